//! The lines of a trace, one by one.

ghost use Rattle.std.specs.Prelude.{◌≡◌, ◌++◌, option_map, if◌then◌else◌, Some, None};
ghost use Rattle.trace_words.specs.Reader.{unread_words, Takes, Finds, meaning};
ghost use Rattle.trace_words.specs.Words.{number_of};
ghost use Rattle.trace_text.specs.Forms.{event_of, answer_reader, block_reader, counters_reader, explicit_reader, inquiry_reader, is_ascii, limit_or_part, line_of, line_reader, numbered, profile_meanings, stream_meanings};

use crate::forms::TraceLine;
use cip_tables::Event;
use cip_types::IdBlock;
use std::alloc::Global;
use std::str;
use trace_lines::{
    TermLine, limit_named, read_adapter, read_description, read_heartbeat, read_limit, read_mode,
    read_object, read_openings, read_output, read_point, read_scanner, read_serials, read_slot,
};
use trace_outcomes::read_part;
use trace_words::{TextFault, Words, read_u64};

/// The value of a line.
///
/// The faults: `Bad` if it is no line of a trace, and `OutOfMemory`.
#[tactic(auto, unfolding(crate::specs::Forms::line_of))]
pub fn read_line(alloc: Global, line: &[u8]) -> Result<TraceLine, TextFault>
    ensures { Finds (line_of line.now) result }
{
    let text = ascii_text(line).ok_or(TextFault::Bad)?;
    read_words(alloc, &mut Words::of(text))
}

/// The text of a line. None if a byte of it is no ASCII character.
pub fn ascii_text(line: &[u8]) -> Option<&str>
    ensures { option_map (λ text. text.now) result ≡ (if is_ascii line.now then Some line.now else None) }
{
    if !is_ascii(line) {
        return None;
    }
    Some(unsafe { str::from_utf8_unchecked(line) })
}

/// The event of a line. The line has no LF at its end.
///
/// The faults: `Bad` if it is no line of a trace, or that of a profile or of an outcome, and `OutOfMemory`.
#[tactic(auto, unfolding(crate::specs::Forms::event_of))]
pub fn read_event_line(alloc: Global, line: &[u8]) -> Result<Event, TextFault>
    ensures { Finds (event_of line.now) result }
{
    match read_line(alloc, line)? {
        TraceLine::Event(event) => Ok(event),
        _ => Err(TextFault::Bad),
    }
}

fn is_ascii(line: &[u8]) -> bool
    ensures { result ≡ is_ascii line.now }
{
    line.is_ascii()
}

fn read_words(alloc: Global, words: &mut Words<'_>) -> Result<TraceLine, TextFault>
    ensures { Takes (line_reader (unread_words words.old)) result (unread_words words.new) }
{
    // (most lines are of these events, so their words come first)
    let word = words.word()?;
    match word {
        "datagram" => {
            let peer = words.node()?;
            let bytes = words.bytes(alloc)?;
            words
                .last(Event::Datagram { peer, bytes })
                .map(TraceLine::Event)
        }
        "tick" => {
            let ms = words.u32()?;
            words.last(Event::Tick { ms }).map(TraceLine::Event)
        }
        "write" => {
            let point = words.u32()?;
            let bytes = words.bytes(alloc)?;
            words
                .last(Event::Write { point, bytes })
                .map(TraceLine::Event)
        }
        "read" => {
            let point = words.u32()?;
            words.last(Event::Read { point }).map(TraceLine::Event)
        }
        "mode" => {
            let run = read_mode(words)?;
            words.last(Event::Mode { run }).map(TraceLine::Event)
        }
        "start" => {
            let slot = words.u32()?;
            words.last(Event::Start { slot }).map(TraceLine::Event)
        }
        "stop" => {
            let slot = words.u32()?;
            words.last(Event::Stop { slot }).map(TraceLine::Event)
        }
        _ => read_other(alloc, words, word),
    }
}

/// What follows the word of a request, of an inquiry, of an answer, of counters, of a stream's event or of a profile's line, or the
/// number of an event.
fn read_other(alloc: Global, words: &mut Words<'_>, word: &str) -> Result<TraceLine, TextFault>
    ensures { Takes (meaning (profile_meanings ++ stream_meanings) (limit_or_part word.now) word.now
        (unread_words words.old)) result (unread_words words.new) }
{
    match word {
        "request" => {
            let peer = words.node()?;
            let bytes = words.bytes(alloc)?;
            words
                .last(Event::Request { peer, bytes })
                .map(TraceLine::Event)
        }
        "inquiry" => read_inquiry(alloc, words).map(TraceLine::Event),
        "explicit" => read_explicit(alloc, words).map(TraceLine::Event),
        "answer" => read_answer(alloc, words).map(TraceLine::Event),
        "counters" => read_counters(alloc, words).map(TraceLine::Event),
        "frame" => {
            let stream = words.u16()?;
            let bytes = words.bytes(alloc)?;
            words
                .last(Event::Frame { stream, bytes })
                .map(TraceLine::Event)
        }
        "stream" => {
            let stream = words.u16()?;
            let peer = words.node()?;
            words
                .last(Event::StreamOpened { stream, peer })
                .map(TraceLine::Event)
        }
        "cut" => {
            let stream = words.u16()?;
            words
                .last(Event::StreamCut { stream })
                .map(TraceLine::Event)
        }
        _ => read_profile_line(alloc, words, word),
    }
}

/// What follows `inquiry`: `NODE HEX`.
fn read_inquiry(alloc: Global, words: &mut Words<'_>) -> Result<Event, TextFault>
    ensures { Takes (inquiry_reader (unread_words words.old)) result (unread_words words.new) }
{
    let inquiry = Event::Inquiry {
        peer: words.node()?,
        bytes: words.bytes(alloc)?,
    };
    words.last(inquiry)
}

/// What follows `counters`: `HEX`.
fn read_counters(alloc: Global, words: &mut Words<'_>) -> Result<Event, TextFault>
    ensures { Takes (counters_reader (unread_words words.old)) result (unread_words words.new) }
{
    let counters = Event::Counters {
        bytes: words.bytes(alloc)?,
    };
    words.last(counters)
}

/// What follows `explicit`: `NODE NUMBER HEX`.
fn read_explicit(alloc: Global, words: &mut Words<'_>) -> Result<Event, TextFault>
    ensures { Takes (explicit_reader (unread_words words.old)) result (unread_words words.new) }
{
    let explicit = Event::Explicit {
        target: words.node()?,
        number: words.u32()?,
        bytes: words.bytes(alloc)?,
    };
    words.last(explicit)
}

/// What follows `ids`: `FROM COUNT`.
fn read_block(words: &mut Words<'_>) -> Result<Event, TextFault>
    ensures { Takes (block_reader (unread_words words.old)) result (unread_words words.new) }
{
    let first = words.u32()?;
    let count = words.u32()?;
    words.last(Event::Ids {
        block: IdBlock { first, count },
    })
}

/// What follows `answer`: `NUMBER STATUS HEX`.
fn read_answer(alloc: Global, words: &mut Words<'_>) -> Result<Event, TextFault>
    ensures { Takes (answer_reader (unread_words words.old)) result (unread_words words.new) }
{
    let answer = Event::Respond {
        number: words.u64()?,
        status: words.general(alloc)?,
        bytes: words.bytes(alloc)?,
    };
    words.last(answer)
}

/// What follows the word of a profile's line, or the number of an event.
fn read_profile_line(
    alloc: Global,
    words: &mut Words<'_>,
    word: &str,
) -> Result<TraceLine, TextFault>
    ensures { Takes (meaning profile_meanings (limit_or_part word.now) word.now (unread_words words.old)) result
        (unread_words words.new) }
{
    match word {
        "adapter" => read_adapter(words).map(TraceLine::Adapter),
        "output" => read_output(words).map(TraceLine::Output),
        "input" => read_point(words).map(TraceLine::Input),
        "config" => read_point(words).map(TraceLine::Config),
        "describe" => read_description(alloc, words).map(TraceLine::Description),
        "object" => read_object(words).map(TraceLine::Object),
        "heartbeat" => read_heartbeat(words).map(TraceLine::Heartbeat),
        "scanner" => read_scanner(words).map(TraceLine::Scanner),
        "tidy" => words.last(TraceLine::Term(TermLine::Tidy)),
        "openings" => read_openings(words).map(TraceLine::Term),
        "serials" => read_serials(words).map(TraceLine::Term),
        "ids" => read_block(words).map(TraceLine::Event),
        "slot" => read_slot(alloc, words).map(TraceLine::Slot),
        _ => read_limit_or_part(alloc, words, word),
    }
}

/// What follows the first word of a limit's line, or the number of an event.
fn read_limit_or_part(
    alloc: Global,
    words: &mut Words<'_>,
    word: &str,
) -> Result<TraceLine, TextFault>
    ensures { Takes (limit_or_part word.now (unread_words words.old)) result (unread_words words.new) }
{
    match limit_named(word) {
        Some(limit) => read_limit(limit, words).map(TraceLine::Limit),
        None => read_recorded(alloc, words, word),
    }
}

/// What follows the number of an event: a part of its outcome.
fn read_recorded(alloc: Global, words: &mut Words<'_>, number: &str) -> Result<TraceLine, TextFault>
    ensures { Takes (numbered (number_of 64 number.now) (unread_words words.old)) result (unread_words words.new) }
{
    let number = read_u64(number).ok_or(TextFault::Bad)?;
    let part = read_part(alloc, words)?;
    Ok(TraceLine::Recorded(number, part))
}
