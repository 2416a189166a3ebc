//! The lines of an input and those of a page, on their way to the station that takes them: those of a page come first, and never
//! within a line of the input.

ghost use Rattle.std.specs.Prelude.{◌≡◌, ◌++◌, [], true, false, IfOk, OnErr, OnOk};
ghost use Rattle.station_lines.specs.Lines.{is_full, view_next};
ghost use Rattle.station_rim.specs.UnreadCalls.{UnreadCalls, WasOffered, calls_after, next_call};

use cip_types::OutOfMemory;
use station_lines::{CallBuffer, NextLine};
use std::alloc::Global;
use std::marker::Model;

/// What became of a line that a page offered.
#[derive(Clone, Copy, PartialEq, Eq)]
pub(crate) enum CallOffer {
    /// It is taken, behind the others of the page.
    Taken,
    /// There is no room for lines of a page.
    Full,
    /// An allocation was refused.
    OutOfMemory,
}

/// What was read of an input and not yet taken, and the lines of a page.
#[derive(Drop)]
pub(crate) struct UnreadCalls {
    input: CallBuffer,
    page: CallBuffer,
}

impl Model for UnreadCalls {
    ghost use Rattle.station_rim.specs.UnreadCalls.{UnreadCalls};
    ghost use Rattle.std.specs.Prelude.{◌≡◌, false};

    ghost Value = { UnreadCalls };

    ghost view = { λ c. record { bytes = c.input.bytes.items; ended = c.input.ended; page = c.page.bytes.items } };

    ghost invariant = { λ c. c.page.ended ≡ false };
}

impl UnreadCalls {
    /// Nothing was read, and nothing is offered. Takes no memory.
    pub(crate) fn new(alloc: Global) -> UnreadCalls
        ensures { result ≡ record { bytes = []; ended = false; page = [] } }
    {
        UnreadCalls {
            input: CallBuffer::new(alloc),
            page: CallBuffer::new(alloc),
        }
    }

    /// Whether the reader of the input waits until lines were taken.
    pub(crate) fn is_full(&self) -> bool
        ensures { result ≡ is_full self.now.bytes }
    {
        self.input.is_full()
    }

    /// Appends bytes of the input. The fault: an allocation was refused, and nothing is appended.
    pub(crate) fn push(&mut self, bytes: &[u8]) -> Result<(), OutOfMemory>
        ensures ok { OnOk result (self.new ≡ record self.old { bytes = self.old.bytes ++ bytes.now }) }
        ensures err { OnErr result (self.new ≡ self.old) }
    {
        self.input.push(bytes)
    }

    /// Appends a line of a page, with its LF, if there is room for it.
    pub(crate) fn offer(&mut self, line: &[u8]) -> CallOffer
        ensures { WasOffered self.old line.now result self.new }
    {
        if self.page.is_full() {
            return CallOffer::Full;
        }
        match self.page.push(line) {
            Ok(()) => CallOffer::Taken,
            Err(OutOfMemory) => CallOffer::OutOfMemory,
        }
    }

    /// Takes the next line: one of the page if there is one, else one of the input. The fault: an allocation was refused, and no
    /// line is taken.
    pub(crate) fn next_line(&mut self, alloc: Global) -> Result<NextLine, OutOfMemory>
        ensures given { IfOk result (λ next. view_next next ≡ next_call self.old) }
        ensures left { OnOk result (self.new ≡ calls_after self.old) }
    {
        match self.page.next_line(alloc)? {
            NextLine::Line(line) => Ok(NextLine::Line(line)),
            _ => self.input.next_line(alloc),
        }
    }

    /// The input has ended.
    pub(crate) fn end(&mut self)
        ensures { self.new ≡ record self.old { ended = true } }
    {
        self.input.end();
    }
}
