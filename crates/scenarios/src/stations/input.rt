//! The input of a station.

use crate::stations::sinks::print_lines;
use cip_types::OutOfMemory;
use station_lines::{CallBuffer, CallLines, NextLine};
use std::alloc::Global;
use std::collections::VecDeque;

/// An input that has more bytes each time that it is asked, until it ends.
#[derive(Drop)]
pub struct PrintingInput<R> {
    pub rt: R,
    pub alloc: Global,
    pub inputs: VecDeque<Vec<u8>>,
    pub buffer: CallBuffer,
}

impl<R: Print> CallLines for PrintingInput<R> {
    ghost use Rattle.std.specs.Prelude.{◌≡◌};

    ghost has = { λ old next new. new.rt ≡ old.rt };

    fn next_line(&mut self) -> Result<NextLine, OutOfMemory> {
        match self.inputs.pop_front() {
            Some(bytes) => self.buffer.push(bytes.as_slice())?,
            None => self.buffer.end(),
        }
        let line = self.buffer.next_line(self.alloc)?;
        match &line {
            NextLine::Line(text) if text.is_empty() => print_lines(&self.rt, "input", b"(empty)"),
            NextLine::Line(text) => print_lines(&self.rt, "input", text.as_slice()),
            NextLine::Nothing => {}
            NextLine::End => print_lines(&self.rt, "input", b"(ended)"),
        }
        Ok(line)
    }
}
