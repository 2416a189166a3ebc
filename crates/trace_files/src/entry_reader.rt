//! The lines of a trace behind its profile: events, and the parts of their recorded outcomes.

ghost use Rattle.std.specs.Prelude.{◌≡◌, IfOk};
ghost use Rattle.trace_words.specs.Reader.{unread_words, Takes, Finds};
ghost use Rattle.trace_text.specs.Forms.{event_of};
ghost use Rattle.trace_files.specs.Entries.{begins_with_digit, entry_of, recorded_of, recorded_reader, sum_in, taken_line, with_event, with_part, with_recorded, with_sum, TakesLine};
ghost use Rattle.trace_outcomes.specs.Sums.SumLines.{sum_reader};

use cip_tables::{Event, Outcome};
use cip_types::OutOfMemory;
use std::alloc::Global;
use std::mem;
use trace_outcomes::{OutcomeSum, Part, read_part, read_sum};
use trace_text::{Recorded, ascii_text, read_event_line, recorded_with};
use trace_words::{TextFault, Words};

/// The event that came last, with its outcome as far as that is recorded or with the sum of its outcome, and its number, from
/// 1.
#[derive(Drop)]
pub struct EntryReader {
    number: u64,
    event: Event,
    recorded: Option<Outcome>,
    sum: Option<OutcomeSum>,
}

/// An event, and its outcome if that is recorded, or the sum of its outcome.
#[derive(Drop)]
pub struct TraceEntry {
    pub event: Event,
    pub recorded: Recorded,
    pub sum: Option<OutcomeSum>,
}

impl EntryReader {
    /// The first event of a trace. Takes no memory.
    pub fn first(event: Event) -> EntryReader
        ensures { result ≡ record { number = 1; event = event; recorded = None; sum = None } }
    {
        EntryReader {
            number: 1,
            event,
            recorded: None,
            sum: None,
        }
    }

    /// Reads a line that is not skipped. If it is an event, the entry before it is whole, and is answered.
    ///
    /// The faults: `Bad` if the line is not allowed there, and `OutOfMemory`. After a fault the reader is of no use.
    pub fn feed(&mut self, alloc: Global, line: &[u8]) -> Result<Option<TraceEntry>, TextFault>
        ensures { TakesLine (taken_line self.old line.now) result self.new }
    {
        if begins_with_digit(line) {
            self.take_recorded(alloc, line)
        } else {
            self.take_event(alloc, line)
        }
    }

    /// The last entry, whole at the end of a trace. OutOfMemory is the only fault.
    pub fn end(self, alloc: Global) -> Result<TraceEntry, OutOfMemory>
        ensures { IfOk result (λ entry. entry ≡ entry_of self) }
    {
        entry_of(alloc, self.event, self.recorded, self.sum)
    }

    /// Reads the line of an event, in place of which the one before it is answered.
    fn take_event(&mut self, alloc: Global, line: &[u8]) -> Result<Option<TraceEntry>, TextFault>
        ensures { TakesLine (with_event self.old (event_of line.now)) result self.new }
    {
        let event = read_event_line(alloc, line)?;
        self.number = self.number.saturating_add(1);
        let last = mem::replace(&mut self.event, event);
        let recorded = self.recorded.take();
        let sum = self.sum.take();
        let entry = entry_of(alloc, last, recorded, sum)?;
        Ok(Some(entry))
    }

    /// Reads a line of the outcome of the event that came last: its sum, or a part of it.
    fn take_recorded(&mut self, alloc: Global, line: &[u8]) -> Result<Option<TraceEntry>, TextFault>
        ensures { TakesLine (with_recorded self.old line.now (sum_in line.now)) result self.new }
    {
        match read_summed(alloc, line) {
            Ok((number, sum)) => self.take_sum(number, sum),
            Err(TextFault::Bad) => self.take_part(alloc, line),
            Err(TextFault::OutOfMemory) => Err(TextFault::OutOfMemory),
        }
    }

    /// Takes the sum of the outcome of the event that came last, whose number it has. No part of the outcome is recorded.
    fn take_sum(&mut self, number: u64, sum: OutcomeSum) -> Result<Option<TraceEntry>, TextFault>
        ensures { TakesLine (with_sum self.old number sum) result self.new }
    {
        if number != self.number || self.recorded.is_some() || self.sum.is_some() {
            return Err(TextFault::Bad);
        }
        self.sum = Some(sum);
        Ok(None)
    }

    /// Reads the line of a part of the outcome of the event that came last, whose number it has. Its sum is not recorded.
    fn take_part(&mut self, alloc: Global, line: &[u8]) -> Result<Option<TraceEntry>, TextFault>
        ensures { TakesLine (with_part self.old (recorded_of line.now)) result self.new }
    {
        let (number, part) = read_recorded(alloc, line)?;
        if number != self.number || self.sum.is_some() {
            return Err(TextFault::Bad);
        }
        let recorded = self.recorded.take();
        let outcome = recorded_with(alloc, recorded, part)?;
        self.recorded = Some(outcome);
        Ok(None)
    }
}

fn entry_of(
    alloc: Global,
    event: Event,
    recorded: Option<Outcome>,
    sum: Option<OutcomeSum>,
) -> Result<TraceEntry, OutOfMemory>
    ensures { IfOk result (λ entry. entry ≡ record { event = event; recorded = recorded; sum = sum }) }
{
    let recorded = Recorded::of(alloc, recorded)?;
    Ok(TraceEntry {
        event,
        recorded,
        sum,
    })
}

/// Whether a line begins as the number of an event does.
fn begins_with_digit(line: &[u8]) -> bool
    ensures { result ≡ begins_with_digit line.now }
{
    match line {
        [] => false,
        [first, ..] => *first >= b'0' && *first <= b'9',
    }
}

/// A part of a recorded outcome, and the number of its event.
///
/// The faults: `Bad` if the line is none of a recorded outcome, and `OutOfMemory`.
#[tactic(auto, unfolding(crate::specs::Entries::recorded_of))]
fn read_recorded(alloc: Global, line: &[u8]) -> Result<(u64, Part), TextFault>
    ensures { Finds (recorded_of line.now) result }
{
    let text = ascii_text(line).ok_or(TextFault::Bad)?;
    read_numbered(alloc, &mut Words::of(text))
}

fn read_numbered(alloc: Global, words: &mut Words<'_>) -> Result<(u64, Part), TextFault>
    ensures { Takes (recorded_reader (unread_words words.old)) result (unread_words words.new) }
{
    let number = words.u64()?;
    let part = read_part(alloc, words)?;
    Ok((number, part))
}

/// The sum of an outcome, and the number of its event.
///
/// The faults: `Bad` if the line is none of a sum, and `OutOfMemory`.
#[tactic(auto, unfolding(crate::specs::Entries::sum_in))]
fn read_summed(alloc: Global, line: &[u8]) -> Result<(u64, OutcomeSum), TextFault>
    ensures { Finds (sum_in line.now) result }
{
    let text = ascii_text(line).ok_or(TextFault::Bad)?;
    read_summed_words(alloc, &mut Words::of(text))
}

fn read_summed_words(alloc: Global, words: &mut Words<'_>) -> Result<(u64, OutcomeSum), TextFault>
    ensures { Takes (sum_reader (unread_words words.old)) result (unread_words words.new) }
{
    read_sum(alloc, words)
}
