//! The end of a station's outputs.

use crate::rim::Rim;
use station_lines::LineSink;
use std::rt::Clock;
use std::sync::Wait;
use std::thread;
use std::time::Duration;

/// A station that ends waits at most so long for its record, and then so long for its outputs, in milliseconds.
const RECORD_MS: u32 = 700;

const LINES_MS: u32 = 300;

/// Waits a bounded time until the record was written. Whether it was, whole.
pub fn drain_record<R: Wait + Clock>(rt: &R, rim: &Rim) -> bool {
    for _ in 0..RECORD_MS {
        if rim.record.is_drained(rt) {
            break;
        }
        thread::sleep(rt, Duration::from_millis(1));
    }
    rim.record.is_drained(rt) && !rim.record.has_failed(rt)
}

/// Waits a bounded time until the lines of both outputs were written.
pub fn drain_lines<R: Wait + Clock>(rt: &R, rim: &Rim) {
    for _ in 0..LINES_MS {
        if rim.out.is_drained(rt) && rim.err.is_drained(rt) {
            return;
        }
        thread::sleep(rt, Duration::from_millis(1));
    }
}

/// Reports a line on the standard error, without waiting.
pub fn report_line<R: Wait + Copy + Drop>(rt: R, rim: &Rim, line: &[u8]) {
    if let Ok(mut err) = rim.err.sink(rt) {
        err.line(line);
    }
}
