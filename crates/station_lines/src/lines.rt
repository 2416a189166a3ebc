//! The lines of an application, which arrive while a station runs.

ghost use Rattle.std.specs.Prelude.{◌≡◌, ◌<◌, ◌++◌, [], true, false, position, length, IfOk, IfSome, OnOk, OnErr};
ghost use Rattle.station_lines.specs.Lines.{input_read, is_full, is_line_feed, last_line, left_behind, left_of_all, next_of, view_next};

use cip_types::OutOfMemory;
use std::alloc::Global;
use std::io::{self, ErrorKind};

/// A buffer that holds more bytes takes none: the reader of the input waits until lines were taken.
const FULL_BYTES: usize = 60_000;

/// What a source of lines has now.
#[derive(Drop)]
pub enum NextLine {
    /// A line, without its LF.
    Line(Vec<u8>),
    /// Nothing, now.
    Nothing,
    /// The input has ended, and each of its lines was taken.
    End,
}

/// A source of lines that never waits. Contracts see it as a relation: from the source, by what it has next, to the source behind
/// that.
pub trait CallLines {
    ghost use Rattle.station_lines.specs.declared.lines.NextLine.{NextLine};

    ghost has: { Self → NextLine → Self → Type 0 };

    /// The next line. The fault: an allocation was refused.
    fn next_line(&mut self) -> Result<NextLine, OutOfMemory>
        ensures { IfOk result (λ next. has self.old next self.new) };
}

/// A source without lines that never ends.
#[derive(Clone, Copy)]
pub struct NoLines;

impl CallLines for NoLines {
    ghost use Rattle.station_lines.specs.declared.lines.NextLine.TheVariants.{Nothing};

    ghost has = { λ old next new. next ≡ Nothing };

    fn next_line(&mut self) -> Result<NextLine, OutOfMemory> {
        Ok(NextLine::Nothing)
    }
}

/// Bytes of an input that were not taken yet, and whether the input has ended.
#[derive(Drop)]
pub struct CallBuffer {
    bytes: Vec<u8>,
    ended: bool,
}

impl CallBuffer {
    /// No bytes yet. Takes no memory.
    pub fn new(alloc: Global) -> CallBuffer
        ensures bytes { result.bytes.items ≡ [] }
        ensures open { result.ended ≡ false }
    {
        CallBuffer {
            bytes: Vec::new(alloc),
            ended: false,
        }
    }

    /// Whether the buffer is full.
    pub fn is_full(&self) -> bool
        ensures { result ≡ is_full self.now.bytes.items }
    {
        self.bytes.len() > FULL_BYTES
    }

    /// Appends bytes of the input. The fault: an allocation was refused, and nothing is appended.
    pub fn push(&mut self, bytes: &[u8]) -> Result<(), OutOfMemory>
        ensures ok { OnOk result (self.new.bytes.items ≡ self.old.bytes.items ++ bytes.now) }
        ensures err { OnErr result (self.new.bytes.items ≡ self.old.bytes.items) }
        ensures open { self.new.ended ≡ self.old.ended }
    {
        self.bytes.extend_from_slice(bytes)?;
        Ok(())
    }

    /// The input has ended.
    pub fn end(&mut self)
        ensures bytes { self.new.bytes ≡ self.old.bytes }
        ensures ended { self.new.ended ≡ true }
    {
        self.ended = true;
    }

    /// Takes the next line. At the end of the input the bytes behind the last LF are a line, and so are those of a full
    /// buffer without an LF. The fault: an allocation was refused, and nothing is taken.
    pub fn next_line(&mut self, alloc: Global) -> Result<NextLine, OutOfMemory>
        ensures given { IfOk result (λ next. view_next next ≡ next_of self.old.ended self.old.bytes.items) }
        ensures left { OnOk result (self.new.bytes.items ≡ left_behind self.old.ended self.old.bytes.items) }
        ensures err { OnErr result (self.new.bytes.items ≡ self.old.bytes.items) }
        ensures ended { self.new.ended ≡ self.old.ended }
    {
        let Some(end) = self.line_len() else {
            return self.last_line(alloc);
        };
        let (line, rest) = self.bytes.split_at(end);
        let line = Vec::from_slice(alloc, line)?;
        let rest = Vec::from_slice(alloc, &rest[1..])?;
        self.bytes = rest;
        Ok(NextLine::Line(line))
    }

    /// The number of bytes before the first LF.
    fn line_len(&self) -> Option<usize>
        ensures first { result ≡ position is_line_feed self.now.bytes.items }
        ensures inside { IfSome result (λ end. end < length self.now.bytes.items) }
    {
        self.bytes.iter().position(|byte| *byte == b'\n')
    }

    /// Takes all bytes, if they are a line.
    fn last_line(&mut self, alloc: Global) -> Result<NextLine, OutOfMemory>
        ensures given { IfOk result (λ next. view_next next ≡ last_line self.old.ended self.old.bytes.items) }
        ensures left { OnOk result (self.new.bytes.items ≡ left_of_all self.old.ended self.old.bytes.items) }
        ensures err { OnErr result (self.new.bytes.items ≡ self.old.bytes.items) }
        ensures ended { self.new.ended ≡ self.old.ended }
    {
        if !self.ended && !self.is_full() {
            return Ok(NextLine::Nothing);
        }
        if self.bytes.is_empty() {
            return Ok(NextLine::End);
        }
        let line = Vec::from_slice(alloc, self.bytes.as_slice())?;
        self.bytes.clear();
        Ok(NextLine::Line(line))
    }
}

/// What a read of an input gives.
#[derive(Clone, Copy, Debug, PartialEq, Eq)]
pub enum InputRead {
    /// This many bytes.
    Bytes(usize),
    /// Nothing: a signal ended the read, and it is made again.
    Again,
    /// The input has ended, or it broke.
    End,
}

/// What a read of an input gives.
pub fn input_read(outcome: io::Result<usize>) -> InputRead
    ensures { result ≡ input_read outcome }
{
    match outcome {
        Ok(0) => InputRead::End,
        Ok(count) => InputRead::Bytes(count),
        Err(error) => match error.kind() {
            ErrorKind::Interrupted => InputRead::Again,
            _ => InputRead::End,
        },
    }
}
