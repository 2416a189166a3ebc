//! A trace, line by line.

ghost use Rattle.std.specs.Prelude.{◌≡◌, ◌++◌, IfOk, Option, Some};
ghost use Rattle.trace_text.specs.declared.trace.TraceFault.{TraceFault};
ghost use Rattle.trace_files.specs.Lines.{end_fault, event_behind, piece_of, Ends, EndsBefore, EndsBehind, FindsFault, Gathers, GoesOn, HandsOut, Reads};
ghost use Rattle.trace_text.specs.Forms.{event_of};
ghost use Rattle.trace_text.specs.Reading.{trace_reading};
ghost use Rattle.trace_files.specs.Profile.{config_of, one_more};

use crate::entry_reader::{EntryReader, TraceEntry};
use crate::profile_lines::ProfileLines;
use cip_tables::{Config, Event};
use cip_types::OutOfMemory;
use std::alloc::Global;
use trace_text::{TraceFault, given_block, is_skipped, read_event_line};
use trace_words::TextFault;

/// What the lines of a trace give, in this order: once the configuration, and then each entry.
#[derive(Drop)]
pub enum TracePiece {
    /// The configuration of the device.
    Config(Config),
    /// The next event, and its outcome if that is recorded.
    Entry(TraceEntry),
}

/// The part of a trace that the lines so far are in.
#[derive(Drop)]
enum TracePart {
    /// No event has come.
    Profile(ProfileLines),
    /// The profile is whole, and this is the event that came last.
    Entries(EntryReader),
}

/// Reads a trace line by line, as `read_trace` reads its text: it finds the same bad line, or else the same fault of the
/// profile. Lines are counted from 1; empty lines and lines that begin with `#` are skipped, and counted.
///
/// It has the memory of the profile's lines, or of one entry. A fault of the profile is answered at the end, since a bad
/// line comes before it; until then no piece is answered. After a fault the reader is of no use.
///
/// What each line does is proved; that the whole is what `read_trace` answers is shown by runs.
#[derive(Drop)]
pub struct TraceReader {
    alloc: Global,
    lines: u64,
    part: TracePart,
    wrong: Option<u8>,
}

impl TraceReader {
    /// A reader of no lines. Takes no memory.
    pub fn new(alloc: Global) -> TraceReader {
        TraceReader {
            alloc,
            lines: 0,
            part: TracePart::Profile(ProfileLines::new(alloc)),
            wrong: None,
        }
    }

    /// Reads the next line, without the LF that ends it, and answers the piece that is whole with it, if one is: with the
    /// line of the first event the configuration, with that of each further one the entry before it.
    ///
    /// The faults: `BadLine`, with the number of this line, or of an earlier one before the first event; `OutOfMemory`.
    pub fn feed(&mut self, line: &[u8]) -> Result<Option<TracePiece>, TraceFault>
        ensures lines { self.new.lines ≡ one_more self.old.lines }
        ensures line { Reads self.old.part self.old.wrong
            (one_more self.old.lines) line.now result self.new.part self.new.wrong }
    {
        self.lines = self.lines.saturating_add(1);
        match &mut self.part {
            TracePart::Profile(profile) => match gather(self.alloc, profile, line)? {
                Some(event) => {
                    let config = profile.config(self.alloc, b"");
                    self.part = TracePart::Entries(EntryReader::first(event));
                    hand_out(config, &mut self.wrong)
                }
                None => Ok(None),
            },
            TracePart::Entries(entries) => go_on(self.alloc, entries, self.wrong, self.lines, line),
        }
    }

    /// Ends the trace with bytes that no LF ends, if there are any. Answers the last piece: the configuration, if there was
    /// no event, or the last entry.
    ///
    /// The faults, in order: `BadLine`, with the number of the first bad line, or of the line behind the last one where
    /// bytes are left or the lines are no whole trace; `BadProfile`; `OutOfMemory` wherever an allocation was refused.
    pub fn end(self, rest: &[u8]) -> Result<TracePiece, TraceFault>
        ensures { Ends self.part self.wrong (one_more self.lines) rest.now result }
    {
        let TraceReader {
            alloc,
            lines,
            part,
            wrong,
        } = self;
        match part {
            TracePart::Profile(profile) => end_before(alloc, profile, rest),
            TracePart::Entries(entries) => end_behind(
                alloc,
                entries,
                judge_end(lines.saturating_add(1), wrong, rest),
            ),
        }
    }
}

/// The configuration of lines without an event, and bytes behind them.
fn end_before(alloc: Global, profile: ProfileLines, rest: &[u8]) -> Result<TracePiece, TraceFault>
    ensures { EndsBefore (config_of (trace_reading (profile.text.items ++ rest.now))) result }
{
    let mut profile = profile;
    match profile.config(alloc, rest) {
        Ok(config) => Ok(TracePiece::Config(config)),
        Err(fault) => Err(fault),
    }
}

/// The last entry, if the end has no fault.
fn end_behind(
    alloc: Global,
    entries: EntryReader,
    judged: Result<(), TraceFault>,
) -> Result<TracePiece, TraceFault>
    ensures { (wrong : Option TraceFault) → FindsFault wrong judged → EndsBehind entries wrong result }
{
    match judged {
        Ok(()) => match entries.end(alloc) {
            Ok(entry) => Ok(TracePiece::Entry(entry)),
            Err(OutOfMemory) => Err(TraceFault::OutOfMemory),
        },
        Err(fault) => Err(fault),
    }
}

/// Reads a line before the first event. Answers the event, if it is the first one; another line is gathered.
fn gather(
    alloc: Global,
    profile: &mut ProfileLines,
    line: &[u8],
) -> Result<Option<Event>, TraceFault>
    ensures { Gathers profile.old line.now result profile.new }
{
    if is_skipped(line) {
        profile.add(alloc, line)?;
        return Ok(None);
    }
    match read_first(alloc, profile.is_whole(), line) {
        Ok(Some(event)) => Ok(Some(event)),
        Ok(None) => {
            profile.add(alloc, line)?;
            Ok(None)
        }
        Err(OutOfMemory) => Err(TraceFault::OutOfMemory),
    }
}

/// The event of a line, unless it is a block of connection ids of a profile that has not ended. `OutOfMemory` is the only error.
fn read_first(alloc: Global, whole: bool, line: &[u8]) -> Result<Option<Event>, OutOfMemory>
    ensures { IfOk result (λ event. event ≡ event_behind whole (event_of line.now)) }
{
    match read_event_line(alloc, line) {
        Ok(event) => Ok(behind(whole, event)),
        Err(TextFault::Bad) => Ok(None),
        Err(TextFault::OutOfMemory) => Err(OutOfMemory),
    }
}

/// The event, unless it is a block of connection ids of a profile that has not ended.
fn behind(whole: bool, event: Event) -> Option<Event>
    ensures { result ≡ event_behind whole (Some event) }
{
    if whole || given_block(&event).is_none() {
        Some(event)
    } else {
        None
    }
}

/// The configuration as a piece. A fault of the profile is kept for the end.
fn hand_out(
    config: Result<Config, TraceFault>,
    wrong: &mut Option<u8>,
) -> Result<Option<TracePiece>, TraceFault>
    ensures { HandsOut config result wrong.new }
{
    match config {
        Ok(config) => Ok(Some(TracePiece::Config(config))),
        Err(TraceFault::BadProfile(number)) => {
            *wrong = Some(number);
            Ok(None)
        }
        Err(fault) => Err(fault),
    }
}

/// Reads the line of this number behind the first event, of a trace whose profile may have a fault.
fn go_on(
    alloc: Global,
    entries: &mut EntryReader,
    wrong: Option<u8>,
    number: u64,
    line: &[u8],
) -> Result<Option<TracePiece>, TraceFault>
    ensures { GoesOn entries.old wrong number line.now result entries.new }
{
    if is_skipped(line) {
        return Ok(None);
    }
    match entries.feed(alloc, line) {
        Ok(entry) => Ok(piece_of(wrong, entry)),
        Err(TextFault::Bad) => Err(TraceFault::BadLine(number)),
        Err(TextFault::OutOfMemory) => Err(TraceFault::OutOfMemory),
    }
}

/// An entry as a piece, if the profile has no fault.
fn piece_of(wrong: Option<u8>, entry: Option<TraceEntry>) -> Option<TracePiece>
    ensures { result ≡ piece_of wrong entry }
{
    match (wrong, entry) {
        (None, Some(entry)) => Some(TracePiece::Entry(entry)),
        _ => None,
    }
}

/// Fails if bytes are left in the line of this number, or else if the profile has a fault.
fn judge_end(number: u64, wrong: Option<u8>, rest: &[u8]) -> Result<(), TraceFault>
    ensures { FindsFault (end_fault number wrong rest.now) result }
{
    if !rest.is_empty() {
        return Err(TraceFault::BadLine(number));
    }
    match wrong {
        Some(first) => Err(TraceFault::BadProfile(first)),
        None => Ok(()),
    }
}
