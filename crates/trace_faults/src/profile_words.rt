//! The fault of a text's profile, in words.

use crate::defect_words::push_defect;
use crate::profile_draft::{line_number, profile_of};
use crate::profile_faults::{Defect, LineName, ProfileReason, WordPlace, config_reason};
use cip_events::ProfileFault;
use cip_types::OutOfMemory;
use std::alloc::Global;

/// The first defect of the profile at the front of a text. None if the text has no profile, or a valid one. OutOfMemory
/// is the only fault.
fn profile_reason(alloc: Global, text: &[u8]) -> Result<Option<ProfileReason>, OutOfMemory> {
    match profile_of(alloc, text)? {
        Some(config) => config_reason(alloc, &config),
        None => Ok(None),
    }
}

/// The fault of a profile: its number, and the first line that has it, with the word, the values and what is allowed.
pub fn push_bad_profile(
    alloc: Global,
    out: &mut String,
    text: &[u8],
    number: u8,
) -> Result<(), OutOfMemory> {
    write!(out, "bad profile {number}: ")?;
    match profile_reason(alloc, text)? {
        Some(reason) if reason.defect.fault().number() == number => {
            push_place(out, text, reason.place)?;
            push_defect(out, reason.defect, earlier_line(text, reason.defect))
        }
        _ => push_fault(out, number),
    }
}

/// The words of a fault of a profile, by its number.
fn push_fault(out: &mut String, number: u8) -> Result<(), OutOfMemory> {
    let fault = match number {
        1 => ProfileFault::Incarnation,
        2 => ProfileFault::Address,
        3 => ProfileFault::Points,
        4 => ProfileFault::SameInstance,
        5 => ProfileFault::Length,
        6 => ProfileFault::Timing,
        7 => ProfileFault::Identity,
        8 => ProfileFault::Description,
        9 => ProfileFault::Limits,
        _ => ProfileFault::Objects,
    };
    Ok(write!(out, "{fault}")?)
}

/// The line and the word of a place. A defect of a whole line has the number of its first word, and no word is named.
fn push_place(out: &mut String, text: &[u8], place: WordPlace) -> Result<(), OutOfMemory> {
    if let Some(line) = line_number(text, place.line, place.index) {
        write!(out, "line {line}: ")?;
    }
    if place.word > 1 {
        let word = place.word;
        write!(out, "word {word}: ")?;
    }
    Ok(())
}

/// The line of the earlier place that a defect names.
fn earlier_line(text: &[u8], defect: Defect) -> Option<u64> {
    match defect {
        Defect::SameInstance(_, other) => line_number(text, other.line, other.index),
        Defect::SameGroup { other, .. } => line_number(text, LineName::Slot, other),
        _ => None,
    }
}
