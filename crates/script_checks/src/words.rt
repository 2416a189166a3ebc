//! Conditions as the words of a script.

ghost use Rattle.std.specs.Prelude.{◌≡◌, ◌++◌, OnOk, string_bytes};
ghost use Rattle.trace_words.specs.Reader.{Finds, Takes, meaning, refuses, unread_words};
ghost use Rattle.script_checks.specs.Reading.{condition_meanings, condition_of, condition_reader, owner_reader, state_reader, value_meanings, value_reader};
ghost use Rattle.script_checks.specs.Texts.{condition_text, held_text, owner_text, state_text};

use crate::condition::{Condition, ExpectedState, OwnerState};
use cip_types::{Items, OutOfMemory};
use std::alloc::Global;
use trace_words::{TextFault, Words, push_bytes, push_node, push_text};

/// The condition of a text: `output POINT = HEX`, `image SLOT = HEX`, `slot N` and `idle`, `opening`, `established`, `timed-out`
/// or `closing`, or `owner POINT` and `none`, `lost`, `run`, `idle` or `of NODE`.
///
/// The faults: `Bad` if the text is none of them, and `OutOfMemory`.
#[tactic(auto, unfolding(crate::specs::Reading::condition_of))]
pub fn read_condition(alloc: Global, text: &str) -> Result<Condition, TextFault>
    ensures { Finds (condition_of text.now) result }
{
    read_words(alloc, &mut Words::of(text))
}

fn read_words(alloc: Global, words: &mut Words<'_>) -> Result<Condition, TextFault>
    ensures { Takes (condition_reader (unread_words words.old)) result (unread_words words.new) }
{
    let word = words.word()?;
    read_behind(alloc, words, word)
}

/// What follows the first word of a condition.
fn read_behind(alloc: Global, words: &mut Words<'_>, word: &str) -> Result<Condition, TextFault>
    ensures { Takes (meaning condition_meanings refuses word.now (unread_words words.old)) result
        (unread_words words.new) }
{
    match word {
        "output" => {
            let point = words.u32()?;
            let bytes = read_value(alloc, words)?;
            words.last(Condition::Output { point, bytes })
        }
        "image" => {
            let slot = words.u32()?;
            let bytes = read_value(alloc, words)?;
            words.last(Condition::Image { slot, bytes })
        }
        "slot" => {
            let slot = words.u32()?;
            let state = read_state(words)?;
            words.last(Condition::Slot { slot, state })
        }
        "owner" => {
            let point = words.u32()?;
            let owner = read_owner(words)?;
            words.last(Condition::Owner { point, owner })
        }
        _ => Err(TextFault::Bad),
    }
}

/// The bytes behind `=`.
fn read_value(alloc: Global, words: &mut Words<'_>) -> Result<Items<u8>, TextFault>
    ensures { Takes (value_reader (unread_words words.old)) result (unread_words words.new) }
{
    let word = words.word()?;
    read_behind_sign(alloc, words, word)
}

/// What follows the word `=`.
fn read_behind_sign(
    alloc: Global,
    words: &mut Words<'_>,
    word: &str,
) -> Result<Items<u8>, TextFault>
    ensures { Takes (meaning value_meanings refuses word.now (unread_words words.old)) result
        (unread_words words.new) }
{
    match word {
        "=" => words.bytes(alloc),
        _ => Err(TextFault::Bad),
    }
}

/// The state of a slot.
fn read_state(words: &mut Words<'_>) -> Result<ExpectedState, TextFault>
    ensures { Takes (state_reader (unread_words words.old)) result (unread_words words.new) }
{
    match words.word()? {
        "idle" => Ok(ExpectedState::Idle),
        "opening" => Ok(ExpectedState::Opening),
        "established" => Ok(ExpectedState::Established),
        "timed-out" => Ok(ExpectedState::TimedOut),
        "closing" => Ok(ExpectedState::Closing),
        _ => Err(TextFault::Bad),
    }
}

/// How an output is owned.
fn read_owner(words: &mut Words<'_>) -> Result<OwnerState, TextFault>
    ensures { Takes (owner_reader (unread_words words.old)) result (unread_words words.new) }
{
    match words.word()? {
        "none" => Ok(OwnerState::Unowned),
        "lost" => Ok(OwnerState::Lost),
        "run" => Ok(OwnerState::Running),
        "idle" => Ok(OwnerState::Idle),
        "of" => {
            let node = words.node()?;
            Ok(OwnerState::Of(node))
        }
        _ => Err(TextFault::Bad),
    }
}

/// Appends a condition as it is read.
pub fn push_condition(out: &mut String, condition: &Condition) -> Result<(), OutOfMemory>
    ensures { OnOk result (string_bytes out.new ≡ string_bytes out.old ++ condition_text condition.now) }
{
    match condition {
        Condition::Output { point, bytes } => push_held(out, "output ", *point, bytes.as_slice()),
        Condition::Image { slot, bytes } => push_held(out, "image ", *slot, bytes.as_slice()),
        Condition::Slot { slot, state } => {
            write!(out, "slot {slot} ")?;
            push_text(out, state_word(*state))
        }
        Condition::Owner { point, owner } => {
            write!(out, "owner {point} ")?;
            push_owner(out, *owner)
        }
    }
}

/// Appends that a point or an image holds bytes.
fn push_held(out: &mut String, word: &str, point: u32, bytes: &[u8]) -> Result<(), OutOfMemory>
    ensures { OnOk result (string_bytes out.new ≡ string_bytes out.old ++ held_text word.now point bytes.now) }
{
    write!(out, "{word}{point} = ")?;
    push_bytes(out, bytes)
}

/// The word of a slot's state.
pub(crate) fn state_word(state: ExpectedState) -> &'static str
    ensures { result.now ≡ state_text state }
{
    match state {
        ExpectedState::Idle => "idle",
        ExpectedState::Opening => "opening",
        ExpectedState::Established => "established",
        ExpectedState::TimedOut => "timed-out",
        ExpectedState::Closing => "closing",
    }
}

/// Appends how an output is owned.
fn push_owner(out: &mut String, owner: OwnerState) -> Result<(), OutOfMemory>
    ensures { OnOk result (string_bytes out.new ≡ string_bytes out.old ++ owner_text owner) }
{
    match owner {
        OwnerState::Unowned => push_text(out, "none"),
        OwnerState::Lost => push_text(out, "lost"),
        OwnerState::Running => push_text(out, "run"),
        OwnerState::Idle => push_text(out, "idle"),
        OwnerState::Of(node) => {
            push_text(out, "of ")?;
            push_node(out, node)
        }
    }
}
