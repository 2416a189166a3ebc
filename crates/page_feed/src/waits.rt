//! Why a slot of a scanner is not open, and what is known of it beside its device.

ghost use Rattle.std.specs.Prelude.{◌≡◌, ◌++◌, OnOk, string_bytes};
ghost use Rattle.page_feed.specs.Waits.{facts_why, note_of, said_wait, wait_front, wait_text, wait_word};

use cip_types::{Node, OutOfMemory};
use station_lines::{CountedConnection, SlotWait, StateNote, push_why};
use trace_words::push_text;

/// What is known of a slot beside its device, at a time in milliseconds.
#[derive(Clone, Copy)]
pub struct SlotFacts {
    pub target: Node,
    pub wait: SlotWait,
    pub row: Option<CountedConnection>,
    pub now_ms: u64,
}

/// Appends what a slot waits for, if it does, and why in words.
pub fn push_wait(out: &mut String, facts: SlotFacts) -> Result<(), OutOfMemory>
    ensures { OnOk result (string_bytes out.new ≡ string_bytes out.old ++ wait_text facts) }
{
    match facts.wait {
        SlotWait::Nothing => Ok(()),
        _ => push_said_wait(out, facts),
    }
}

/// Appends what a slot waits for.
fn push_said_wait(out: &mut String, facts: SlotFacts) -> Result<(), OutOfMemory>
    ensures { OnOk result (string_bytes out.new ≡ string_bytes out.old ++ said_wait facts) }
{
    push_wait_front(out, facts.wait)?;
    push_facts_why(out, facts)?;
    push_text(out, "\"")?;
    Ok(())
}

/// Appends the word of what a slot waits for, and what is before its reason.
fn push_wait_front(out: &mut String, wait: SlotWait) -> Result<(), OutOfMemory>
    ensures { OnOk result (string_bytes out.new ≡ string_bytes out.old ++ wait_front wait) }
{
    let word = wait_word(wait);
    write!(out, ",\"wait\":\"{word}\",\"why\":\"")?;
    Ok(())
}

/// Appends why a slot is not open, in words.
fn push_facts_why(out: &mut String, facts: SlotFacts) -> Result<(), OutOfMemory>
    ensures { OnOk result (string_bytes out.new ≡ string_bytes out.old ++ facts_why facts) }
{
    let note = note_of(facts.row);
    push_why(out, facts.now_ms, facts.target, note, facts.wait)
}

/// The word of what a slot waits for.
fn wait_word(wait: SlotWait) -> &'static str
    ensures { result.now ≡ wait_word wait }
{
    match wait {
        SlotWait::Nothing => "",
        SlotWait::Stopped => "stopped",
        SlotWait::NoStream => "no stream",
        SlotWait::NoSession => "no session",
        SlotWait::Later(_) => "next try",
    }
}

/// What was noted of a slot: nothing of an unknown one.
fn note_of(row: Option<CountedConnection>) -> StateNote
    ensures { result ≡ note_of row }
{
    match row {
        Some(row) => row.note,
        None => StateNote::since(0),
    }
}
