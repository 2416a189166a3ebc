//! The profiles of the two devices, at 127.0.0.1.

ghost use Rattle.std.specs.Prelude.{◌≡◌, IfOk};
ghost use Rattle.eip_line.specs.SocketLoop.Ends.{loop_adapter, loop_scanner};

use cip_tables::{Profile, ScannerProfile};
use cip_types::OutOfMemory;
use socket_port::LOOPBACK;
use std::alloc::Global;

/// The adapter's incarnation, and that of the scanner.
const ADAPTER_INCARNATION: u8 = 0x10;

const SCANNER_INCARNATION: u8 = 0x20;

/// The mask of 127.0.0.0/8.
const MASK: u32 = 0xFF00_0000;

/// The example's adapter at 127.0.0.1.
pub fn adapter(alloc: Global) -> Result<Profile, OutOfMemory>
    ensures { IfOk result (λ profile. profile ≡ loop_adapter) }
{
    example_profiles::adapter(alloc, ADAPTER_INCARNATION, LOOPBACK, MASK)
}

/// The example's scanner at 127.0.0.1. Its slot 0 owns the output of the adapter.
pub fn scanner(alloc: Global) -> Result<ScannerProfile, OutOfMemory>
    ensures { IfOk result (λ profile. profile ≡ loop_scanner) }
{
    example_profiles::scanner(alloc, SCANNER_INCARNATION, LOOPBACK, LOOPBACK)
}
