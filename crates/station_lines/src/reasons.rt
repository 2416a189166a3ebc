//! Why a slot of a scanner is not open, in words.

ghost use Rattle.std.specs.Prelude.{◌≡◌, ◌++◌, ◌-◌, OnOk, string_bytes};
ghost use Rattle.station_lines.specs.Reasons.{later_text, next_text, no_session_text, no_stream_text, no_stream_with, refused_for, refused_front, stream_words, tenths_text, why_text};

use crate::watch::{SlotWait, StateNote, StreamRefusal};
use cip_events::Reason;
use cip_types::{Node, OutOfMemory};
use trace_words::{push_node, push_reason, push_text};

/// Appends what a slot of this target waits for at this time; nothing of one that is open, or whose request is on its way.
pub fn push_why(
    out: &mut String,
    now_ms: u64,
    target: Node,
    note: StateNote,
    wait: SlotWait,
) -> Result<(), OutOfMemory>
    ensures { OnOk result (string_bytes out.new ≡ string_bytes out.old ++ why_text now_ms target note wait) }
{
    match wait {
        SlotWait::Nothing => Ok(()),
        SlotWait::Stopped => push_text(out, "stopped by a call, or never started"),
        SlotWait::NoStream => push_no_stream(out, now_ms, target, note.stream),
        SlotWait::NoSession => push_no_session(out, note.refusal),
        SlotWait::Later(ms) => push_later(out, note.refusal, ms),
    }
}

/// Appends that there is no session with a target.
fn push_no_session(out: &mut String, refusal: Option<Reason>) -> Result<(), OutOfMemory>
    ensures { OnOk result (string_bytes out.new ≡ string_bytes out.old ++ no_session_text refusal) }
{
    push_refused(out, refusal)?;
    push_text(out, "no session with its target")?;
    Ok(())
}

/// Appends that a slot is tried again.
fn push_later(out: &mut String, refusal: Option<Reason>, ms: u64) -> Result<(), OutOfMemory>
    ensures { OnOk result (string_bytes out.new ≡ string_bytes out.old ++ later_text refusal ms) }
{
    push_refused(out, refusal)?;
    push_next(out, ms)?;
    Ok(())
}

/// Appends why there is no stream to a target.
fn push_no_stream(
    out: &mut String,
    now_ms: u64,
    target: Node,
    refusal: Option<StreamRefusal>,
) -> Result<(), OutOfMemory>
    ensures { OnOk result (string_bytes out.new ≡ string_bytes out.old ++ no_stream_text now_ms target refusal) }
{
    match refusal {
        Some(refusal) => push_stream_refusal(out, now_ms, target, refusal),
        None => push_text(out, "no stream to its target"),
    }
}

/// Appends that a target refused a stream or did not answer, and when the next try is.
fn push_stream_refusal(
    out: &mut String,
    now_ms: u64,
    target: Node,
    refusal: StreamRefusal,
) -> Result<(), OutOfMemory>
    ensures { OnOk result (string_bytes out.new ≡ string_bytes out.old ++ no_stream_with now_ms target refusal) }
{
    push_text(out, "no stream: ")?;
    push_node(out, target)?;
    push_stream_words(out, refusal.refused)?;
    push_text(out, "; ")?;
    push_next_at(out, refusal.next_ms, now_ms)?;
    Ok(())
}

/// Appends why there is no stream to a target.
pub(crate) fn push_stream_words(out: &mut String, refused: bool) -> Result<(), OutOfMemory>
    ensures { OnOk result (string_bytes out.new ≡ string_bytes out.old ++ stream_words refused) }
{
    push_text(out, stream_words(refused))
}

/// Appends when the next try is, which is at this time.
fn push_next_at(out: &mut String, next_ms: u64, now_ms: u64) -> Result<(), OutOfMemory>
    ensures { OnOk result (string_bytes out.new ≡ string_bytes out.old ++ next_text (next_ms - now_ms)) }
{
    push_next(out, next_ms.saturating_sub(now_ms))
}

/// Why there is no stream to a target: it refused one, or it did not answer.
fn stream_words(refused: bool) -> &'static str
    ensures { result.now ≡ stream_words refused }
{
    if refused {
        " refuses a stream"
    } else {
        " does not answer"
    }
}

/// Appends for which reason a slot was not opened last, if one is known.
fn push_refused(out: &mut String, reason: Option<Reason>) -> Result<(), OutOfMemory>
    ensures { OnOk result (string_bytes out.new ≡ string_bytes out.old ++ refused_front reason) }
{
    match reason {
        Some(reason) => push_refused_for(out, reason),
        None => Ok(()),
    }
}

/// Appends for which reason a slot was not opened.
fn push_refused_for(out: &mut String, reason: Reason) -> Result<(), OutOfMemory>
    ensures { OnOk result (string_bytes out.new ≡ string_bytes out.old ++ refused_for reason) }
{
    push_text(out, "not opened: ")?;
    push_reason(out, reason)?;
    push_text(out, "; ")?;
    Ok(())
}

/// Appends when the next try is: in so many milliseconds.
fn push_next(out: &mut String, ms: u64) -> Result<(), OutOfMemory>
    ensures { OnOk result (string_bytes out.new ≡ string_bytes out.old ++ next_text ms) }
{
    push_text(out, "the next try is in ")?;
    push_tenths(out, ms / 100)?;
    push_text(out, " s")?;
    Ok(())
}

/// Appends so many tenths.
pub(crate) fn push_tenths(out: &mut String, tenths: u64) -> Result<(), OutOfMemory>
    ensures { OnOk result (string_bytes out.new ≡ string_bytes out.old ++ tenths_text tenths) }
{
    let (whole, rest) = (tenths / 10, tenths % 10);
    write!(out, "{whole}.{rest}")?;
    Ok(())
}
