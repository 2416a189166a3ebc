//! What a coverage-guided fuzzer calls beside the library for C: it gives any bytes to every reader of a codec, and to a
//! splitter. Devices and traces it reaches through `include/eip.h` (`tools/long/fuzz_main.c`).
//!
//! CONTRIBUTING has the command. No device and no other crate calls this one.
#![tactic(auto)]

mod readers;

use std::alloc::Global;

/// Gives bytes to every reader of a codec.
#[unsafe(no_mangle)]
pub extern "C" fn eip_fuzz_readers(bytes: &[u8]) {
    readers::read_all(bytes);
}

/// Gives bytes to a splitter in two pieces, the first as long as the first byte says. A refused allocation ends the call.
#[unsafe(no_mangle)]
pub extern "C" fn eip_fuzz_splitter(alloc: Global, bytes: &[u8]) {
    readers::split(alloc, bytes);
}
