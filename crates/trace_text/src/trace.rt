//! The text of a trace: the profile of a device, and the events at the device.
//!
//! LF ends a line, and one space separates its words. Empty lines and lines that begin with `#` are skipped.

ghost use Rattle.std.specs.Prelude.{◌≡◌, ℕ, ◌<◌, ◌+◌, List, ◌∷◌, position, length, IfSome, IfNone, IfErr, IsOk, ◌↔◌, Some, None, [], Result, Ok};
ghost use Rattle.trace_text.specs.Reading.{is_line_feed, is_skipped, parts_of, builder_after, config_of, parsed, judged_by, trace_reading, Answers, Leaves};
ghost use Rattle.trace_text.specs.Texts.{IsTraceReading};
ghost use Rattle.cip_tables.specs.Step.{config_fault};

use crate::builder::{TraceBuilder, add_last, add_line};
use crate::kept::Recorded;
use crate::lines::read_line;
use cip_tables::{Config, Event, ProfileFault};
use cip_types::{Items, OutOfMemory};
use memchr::memchr;
use std::alloc::Global;
use thiserror::Error;
use trace_lines::scanner_with;
use trace_words::TextFault;

/// A trace: the configuration of a device, and the events at it, each with its outcome if that is recorded.
#[derive(Drop)]
pub struct Trace {
    pub config: Config,
    pub events: Items<(Event, Recorded)>,
}

impl Trace {
    /// Checks the profile of the device, and answers its first fault. Takes no memory.
    pub fn check(&self) -> Result<(), ProfileFault>
        ensures ok { IsOk result ↔ (config_fault self.now.config ≡ None) }
        ensures fault { IfErr result (λ first. config_fault self.now.config ≡ Some first) }
    {
        match &self.config {
            Config::Adapter(profile) => profile.check(),
            Config::Scanner(profile) => profile.check(),
        }
    }
}

/// Why a trace is not read.
#[derive(Clone, Copy, Debug, PartialEq, Eq, Error)]
pub enum TraceFault {
    /// The line of this number, from 1, is not allowed there. An early end counts as a line.
    #[error("bad line {0}")]
    BadLine(u64),
    /// No line is bad, and this is the number of the first fault of the profile.
    #[error("bad profile {0}")]
    BadProfile(u8),
    /// An allocation was refused.
    #[error("no memory")]
    OutOfMemory,
}

impl From<OutOfMemory> for TraceFault {
    ghost use Rattle.trace_text.specs.declared.trace.TraceFault.TheVariants as fault;

    ghost from_gives = { λ _ f. f ≡ fault.OutOfMemory };

    fn from(_error: OutOfMemory) -> TraceFault {
        TraceFault::OutOfMemory
    }
}

/// Reads the text of a trace: the lines of its profile, and behind the line of each event those of its recorded outcome.
/// `has_one_reading` says of the lines what the answer means.
///
/// The faults: `BadLine` with the number of the first line that begins no trace together with the lines before it (the
/// end, if the lines are no whole trace), `BadProfile` if no line is bad, and `OutOfMemory` wherever an allocation was
/// refused.
#[tactic(auto, unfolding(crate::specs::Reading::trace_reading))]
pub fn read_trace(alloc: Global, text: &[u8]) -> Result<Trace, TraceFault>
    ensures { Answers (trace_reading text.now) result }
{
    let mut builder = TraceBuilder::Empty;
    let mut number = 1;
    let mut rest = text;
    while let Some((line, after)) = first_line(rest) {
        match add_text(alloc, &mut builder, line) {
            Ok(()) => {}
            Err(TextFault::Bad) => return Err(TraceFault::BadLine(number)),
            Err(TextFault::OutOfMemory) => return Err(TraceFault::OutOfMemory),
        }
        number += 1;
        rest = after;
    }
    if !rest.is_empty() {
        return Err(TraceFault::BadLine(number));
    }
    parsed(alloc, builder, number)
}

/// Does nothing. Its contract is a law for callers of `read_trace`, whose answer is `trace_reading` of the text: that is a
/// reading of the text line by line, and the text has no other one. A trace is a reading if the lines of the text, less
/// the skipped ones, are those of the trace in their order, and its profile is valid.
pub fn has_one_reading()
    ensures reading { (text : List ℕ) → IsTraceReading text (trace_reading text) }
    ensures only { (text : List ℕ) (other : Result Trace TraceFault) → IsTraceReading text other
        → trace_reading text ≡ other }
{}

/// The first line, without the LF that ends it, and the text behind that. None if no LF is left.
pub fn first_line(text: &[u8]) -> Option<(&[u8], &[u8])>
    ensures line { IfSome result (λ got. parts_of text.now ≡ got.0.now ∷ parts_of got.1.now) }
    ensures shorter { IfSome result (λ got. length got.1.now < length text.now) }
    ensures last { IfNone result (parts_of text.now ≡ text.now ∷ []) }
{
    let end = line_len(text)?;
    let (line, after) = text.split_at(end);
    Some((line, &after[1..]))
}

/// The number of bytes before the first LF.
fn line_len(text: &[u8]) -> Option<usize>
    ensures { result ≡ position is_line_feed text.now }
{
    memchr(b'\n', text)
}

/// Adds the text of a line to the part that was read so far. After a fault the part is of no use.
///
/// The faults: `Bad` if the line is not allowed there, and `OutOfMemory`.
#[tactic(auto, unfolding(crate::specs::Reading::builder_after))]
pub fn add_text(alloc: Global, builder: &mut TraceBuilder, line: &[u8]) -> Result<(), TextFault>
    ensures { Leaves (builder_after builder.old line.now) result builder.new }
{
    if is_skipped(line) {
        return Ok(());
    }
    let parsed = read_line(alloc, line)?;
    add_line(alloc, builder, parsed)
}

/// Whether a line is skipped: it is empty, or a comment.
pub fn is_skipped(line: &[u8]) -> bool
    ensures { result ≡ is_skipped line.now }
{
    match line {
        [] => true,
        [first, ..] => *first == b'#',
    }
}

/// The configuration of the device whose lines were read, whether its profile is valid or not. None if one is missing.
pub fn config_of(builder: TraceBuilder) -> Option<Config>
    ensures { result ≡ config_of builder }
{
    match builder {
        TraceBuilder::Slots {
            scanner,
            newer,
            terms,
            slots,
        } => Some(Config::Scanner(scanner_with(scanner, newer, terms, slots))),
        TraceBuilder::Events { config, .. } => Some(config),
        _ => None,
    }
}

/// The trace that was read at the end of the text. One more line would have this number.
fn parsed(alloc: Global, builder: TraceBuilder, number: u64) -> Result<Trace, TraceFault>
    ensures { Answers (parsed number builder) result }
{
    match builder {
        TraceBuilder::Slots {
            scanner,
            newer,
            terms,
            slots,
        } => judged(Trace {
            config: Config::Scanner(scanner_with(scanner, newer, terms, slots)),
            events: Items::new(alloc),
        }),
        TraceBuilder::Events {
            config,
            mut entries,
            last,
        } => {
            add_last(alloc, &mut entries, last)?;
            judged(Trace {
                config,
                events: entries,
            })
        }
        _ => Err(TraceFault::BadLine(number)),
    }
}

/// A trace, if its profile is valid.
fn judged(trace: Trace) -> Result<Trace, TraceFault>
    ensures { result ≡ judged_by trace.config trace.events }
{
    match trace.check() {
        Ok(()) => Ok(trace),
        Err(first) => Err(TraceFault::BadProfile(first.number())),
    }
}
