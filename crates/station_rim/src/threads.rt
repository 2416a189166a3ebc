//! The threads of a station's outputs. They are not joined, and end with the program.

use crate::outlets::SharedLines;
use std::io::Write;
use std::rt::Clock;
use std::sync::Wait;
use std::thread::{self, Threads};

/// Begins the thread that writes the lines of an output to a stream. Whether it could begin.
pub fn begin_output<R, W>(rt: R, lines: &SharedLines, stream: W) -> bool
where
    R: Threads + Wait + Clock + Copy + Send + Drop + 'static,
    W: Write + Send + Drop + 'static,
{
    match lines.share() {
        Ok(lines) => thread::spawn(&rt, move || lines.write_to(&rt, stream)).is_ok(),
        Err(_) => false,
    }
}
