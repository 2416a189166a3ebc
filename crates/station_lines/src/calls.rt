//! The calls of an application: which events they are, and which events are printed.

ghost use Rattle.std.specs.Prelude.{◌≡◌, slice_index_or, IfOk};
ghost use Rattle.trace_words.specs.Reader.{Finds};
ghost use Rattle.station_lines.specs.Calls.{attribute_in, attribute_with, call_of, has_news, is_call, is_numbers, is_reply, is_skipped, is_status, line_of};

use crate::attributes::{AttributeCall, read_attribute_call};
use cip_events::{Event, Outcome, StepFault, Verdict};
use cip_types::OutOfMemory;
use std::alloc::Global;
use trace_text::{TextFault, ascii_text, read_event_line};

/// Whether an event is a call of the application: `write`, `read`, `mode`, `start`, `stop`, `explicit` or `answer`.
pub fn is_call(event: &Event) -> bool
    ensures { result ≡ is_call event.now }
{
    match event {
        Event::Write { point: _, bytes: _ } => true,
        Event::Read { point: _ } => true,
        Event::Mode { run: _ } => true,
        Event::Start { slot: _ } => true,
        Event::Stop { slot: _ } => true,
        Event::Explicit { .. } => true,
        Event::Respond { .. } => true,
        _ => false,
    }
}

/// The call of a line, which has no LF at its end.
///
/// The faults: `Bad` if the line is no call of an application, and `OutOfMemory`.
pub fn read_call(alloc: Global, line: &[u8]) -> Result<Event, TextFault>
    ensures { Finds (call_of line.now) result }
{
    let event = read_event_line(alloc, line)?;
    if is_call(&event) {
        Ok(event)
    } else {
        Err(TextFault::Bad)
    }
}

/// What a line of the input is.
#[derive(PartialEq, Drop)]
pub enum InputLine {
    /// An empty line, or a comment.
    Skipped,
    /// A call of the application.
    Call(Event),
    /// A call that gets or sets an attribute of a target.
    Attribute(AttributeCall),
    /// The call for the state of the station.
    Status,
    /// The call for what was counted of its connections.
    Numbers,
    /// Anything else.
    NoCall,
}

/// What a line of the input is, which has no LF at its end. The only fault is a refused allocation.
pub fn read_line(alloc: Global, line: &[u8]) -> Result<InputLine, OutOfMemory>
    ensures { IfOk result (λ said. said ≡ line_of line.now) }
{
    if is_skipped(line) {
        return Ok(InputLine::Skipped);
    }
    if is_status(line) {
        return Ok(InputLine::Status);
    }
    if is_numbers(line) {
        return Ok(InputLine::Numbers);
    }
    match read_call(alloc, line) {
        Ok(event) => Ok(InputLine::Call(event)),
        Err(TextFault::Bad) => read_attribute(alloc, line),
        Err(TextFault::OutOfMemory) => Err(OutOfMemory),
    }
}

/// What a line is that is no event: a call that concerns an attribute, or none.
fn read_attribute(alloc: Global, line: &[u8]) -> Result<InputLine, OutOfMemory>
    ensures { IfOk result (λ said. said ≡ attribute_with (attribute_in line.now)) }
{
    let Some(text) = ascii_text(line) else {
        return Ok(InputLine::NoCall);
    };
    match read_attribute_call(alloc, text) {
        Ok(call) => Ok(InputLine::Attribute(call)),
        Err(TextFault::Bad) => Ok(InputLine::NoCall),
        Err(TextFault::OutOfMemory) => Err(OutOfMemory),
    }
}

/// Whether a line is empty or a comment.
fn is_skipped(line: &[u8]) -> bool
    ensures { result ≡ is_skipped line.now }
{
    first_or_mark(line) == b'#'
}

/// Whether a line is the word `status` alone.
fn is_status(line: &[u8]) -> bool
    ensures { result ≡ is_status line.now }
{
    line == b"status".as_slice()
}

/// Whether a line is the words `status --csv` alone.
fn is_numbers(line: &[u8]) -> bool
    ensures { result ≡ is_numbers line.now }
{
    line == b"status --csv".as_slice()
}

/// The first byte of a line; that of a comment if it has none.
fn first_or_mark(line: &[u8]) -> u8
    ensures { result ≡ slice_index_or line.now 0 35 }
{
    match line.get(0) {
        Some(first) => *first,
        None => b'#',
    }
}

/// Whether a verdict is a target's reply to an explicit request.
fn is_reply(verdict: &Verdict) -> bool
    ensures { result ≡ is_reply verdict.now }
{
    match verdict {
        Verdict::Replied { .. } => true,
        _ => false,
    }
}

/// Whether the outcome of an event is printed: that of each call, that of each reply to an explicit request, and that of each
/// event with a notice. An event for which there was no memory has none.
pub fn has_news(event: &Event, outcome: &Outcome) -> bool
    ensures { result ≡ has_news event.now outcome.now }
{
    match outcome {
        Ok(answer) => {
            is_call(event) || is_reply(&answer.verdict) || !answer.notices.as_slice().is_empty()
        }
        Err(StepFault::OutOfMemory) => false,
        Err(_) => is_call(event),
    }
}
