//! Refusals of requests for memory.

use std::alloc::Global;

/// Any allocator refuses a request for so many bytes and n more. `tools/play/refuse.c` also refuses the nth request from then
/// on, or none if n is 0.
const ARMING: usize = 1 << 50;

/// Any allocator refuses a request for so many bytes, but `tools/play/refuse.c` grants it if a request was refused since the
/// last arming.
const ASK: usize = 1 << 51;

/// Has the nth request from now on refused; with 0 none.
pub fn arm(alloc: Global, nth: usize) {
    let _ = Vec::<u8>::with_capacity(alloc, ARMING.saturating_add(nth));
}

/// Has no request refused from now on. Returns whether one was refused since the last arming.
pub fn disarm(alloc: Global) -> bool {
    let refused = Vec::<u8>::with_capacity(alloc, ASK).is_ok();
    arm(alloc, 0);
    refused
}
