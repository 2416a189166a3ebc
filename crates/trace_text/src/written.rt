//! Traces as they are written.

ghost use Rattle.std.specs.Prelude.{◌≡◌, ◌++◌, ◌∷◌, [], OnOk, IfOk, string_bytes, decimal};
ghost use Rattle.trace_words.specs.Words.{node_word, bytes_word, line_text};
ghost use Rattle.trace_lines.specs.Kinds.{mode_word};
ghost use Rattle.trace_text.specs.Written.{config_lines, event_words, recorded_text, entries_text, trace_text};

use crate::kept::Recorded;
use crate::trace::Trace;
use cip_tables::{Config, Event};
use cip_types::{Node, OutOfMemory};
use std::alloc::Global;
use trace_lines::{push_ids, push_profile, push_scanner};
use trace_outcomes::push_outcome;
use trace_words::{push_digits, push_last_bytes, push_node};

/// The text of a trace. The recorded outcome of an event follows its line.
#[tactic(auto, unfolding(crate::specs::Written::trace_text))]
pub fn write_trace(alloc: Global, trace: &Trace) -> Result<String, OutOfMemory>
    ensures { IfOk result (λ text. string_bytes text ≡ trace_text trace.now) }
{
    let mut out = String::new(alloc);
    push_config(&mut out, &trace.config)?;
    push_entries(&mut out, trace.events.as_slice())?;
    Ok(out)
}

/// Appends the lines of a device's profile. They begin the text of each trace of such a device, and are the whole text of
/// a trace without events. If an allocation is refused, a part of them may be appended.
pub fn push_config(out: &mut String, config: &Config) -> Result<(), OutOfMemory>
    ensures { OnOk result (string_bytes out.new ≡ string_bytes out.old ++ config_lines config.now) }
{
    match config {
        Config::Adapter(profile) => push_profile(out, profile),
        Config::Scanner(profile) => push_scanner(out, profile),
    }
}

fn push_entries(out: &mut String, entries: &[(Event, Recorded)]) -> Result<(), OutOfMemory>
    ensures { OnOk result (string_bytes out.new ≡ string_bytes out.old ++ entries_text 1 entries.now) }
{
    for (index, entry) in entries.iter().enumerate() {
        push_event(out, &entry.0)?;
        push_recorded(out, index as u64 + 1, &entry.1)?;
    }
    Ok(())
}

fn push_recorded(out: &mut String, number: u64, recorded: &Recorded) -> Result<(), OutOfMemory>
    ensures { OnOk result (string_bytes out.new ≡ string_bytes out.old ++ recorded_text number recorded.now) }
{
    match recorded.get() {
        Some(outcome) => push_outcome(out, number, outcome),
        None => Ok(()),
    }
}

/// Appends the line of an event, with the LF that ends it. If an allocation is refused, a part of it may be appended.
pub fn push_event(out: &mut String, event: &Event) -> Result<(), OutOfMemory>
    ensures { OnOk result (string_bytes out.new ≡ string_bytes out.old ++ line_text (event_words event.now)) }
{
    match event {
        Event::Request { peer, bytes } => { push_of_node(out, "request", *peer, bytes.as_slice()) }
        Event::StreamOpened { stream, peer } => push_stream(out, *stream, *peer),
        Event::Frame { stream, bytes } => {
            push_of_number(out, "frame", u32::from(*stream), bytes.as_slice())
        }
        Event::StreamCut { stream } => push_number(out, "cut", u32::from(*stream)),
        Event::Datagram { peer, bytes } => {
            push_of_node(out, "datagram", *peer, bytes.as_slice())
        }
        Event::Inquiry { peer, bytes } => { push_of_node(out, "inquiry", *peer, bytes.as_slice()) }
        Event::Explicit {
            target,
            number,
            bytes,
        } => push_explicit(out, *target, *number, bytes.as_slice()),
        Event::Respond {
            number,
            status,
            bytes,
        } => push_answer(out, *number, *status, bytes.as_slice()),
        Event::Counters { bytes } => push_counters(out, bytes.as_slice()),
        Event::Ids { block } => push_ids(out, *block),
        Event::Write { point, bytes } => { push_of_number(out, "write", *point, bytes.as_slice()) }
        Event::Read { point } => push_number(out, "read", *point),
        Event::Tick { ms } => push_number(out, "tick", *ms),
        Event::Mode { run } => Ok(write!(out, "mode {}\n", mode_name(*run))?),
        Event::Start { slot } => push_number(out, "start", *slot),
        Event::Stop { slot } => push_number(out, "stop", *slot),
    }
}

fn push_number(out: &mut String, keyword: &str, number: u32) -> Result<(), OutOfMemory>
    ensures { OnOk result
        (string_bytes out.new ≡ string_bytes out.old ++ line_text (keyword.now ∷ decimal number ∷ [])) }
{
    write!(out, "{keyword} {number}\n")?;
    Ok(())
}

fn mode_name(run: bool) -> &'static str
    ensures { result.now ≡ mode_word run }
{
    if run { "run" } else { "idle" }
}

fn push_stream(out: &mut String, stream: u16, peer: Node) -> Result<(), OutOfMemory>
    ensures { OnOk result
        (string_bytes out.new ≡ string_bytes out.old ++ line_text (event_words (Event.StreamOpened stream peer))) }
{
    write!(out, "stream {stream} ")?;
    push_node(out, peer)?;
    out.push_str("\n")?;
    Ok(())
}

fn push_explicit(
    out: &mut String,
    target: Node,
    number: u32,
    bytes: &[u8],
) -> Result<(), OutOfMemory>
    ensures { OnOk result
        (string_bytes out.new ≡ string_bytes out.old
        ++ line_text (event_words (Event.Explicit target number bytes.now))) }
{
    out.push_str("explicit ")?;
    push_node(out, target)?;
    // (what is behind the address is as behind a keyword)
    push_of_number(out, "", number, bytes)?;
    Ok(())
}

fn push_answer(out: &mut String, number: u64, status: u8, bytes: &[u8]) -> Result<(), OutOfMemory>
    ensures { OnOk result
        (string_bytes out.new ≡ string_bytes out.old
        ++ line_text (event_words (Event.Respond number status bytes.now))) }
{
    write!(out, "answer {number} ")?;
    push_digits(out, &[status])?;
    push_last_bytes(out, bytes)?;
    Ok(())
}

fn push_counters(out: &mut String, bytes: &[u8]) -> Result<(), OutOfMemory>
    ensures { OnOk result
        (string_bytes out.new ≡ string_bytes out.old ++ line_text (event_words (Event.Counters bytes.now))) }
{
    out.push_str("counters")?;
    push_last_bytes(out, bytes)
}

fn push_of_node(
    out: &mut String,
    keyword: &str,
    node: Node,
    bytes: &[u8],
) -> Result<(), OutOfMemory>
    ensures { OnOk result
        (string_bytes out.new ≡ string_bytes out.old
        ++ line_text (keyword.now ∷ node_word node ∷ bytes_word bytes.now ∷ [])) }
{
    write!(out, "{keyword} ")?;
    push_node(out, node)?;
    push_last_bytes(out, bytes)?;
    Ok(())
}

fn push_of_number(
    out: &mut String,
    keyword: &str,
    number: u32,
    bytes: &[u8],
) -> Result<(), OutOfMemory>
    ensures { OnOk result
        (string_bytes out.new ≡ string_bytes out.old
        ++ line_text (keyword.now ∷ decimal number ∷ bytes_word bytes.now ∷ [])) }
{
    write!(out, "{keyword} {number}")?;
    push_last_bytes(out, bytes)
}
