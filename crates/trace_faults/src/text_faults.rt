//! Why a text is no trace, in words.

use crate::lexical::Character;
use crate::profile_words::push_bad_profile;
use crate::reasons::{BadWord, LineReason, WordReason, reason_of, word_at};
use crate::text_lines::{LineAt, line_at};
use cip_types::OutOfMemory;
use std::alloc::Global;
use trace_text::{TraceFault, ascii_text};
use trace_words::push_text;

/// A number of more digits is not printed again.
const LONGEST_DIGITS: usize = 40;

/// Why a text is not read as a trace, for the fault that its reader answered. OutOfMemory is the only fault.
pub fn explain_fault(alloc: Global, text: &[u8], fault: TraceFault) -> Result<String, OutOfMemory> {
    let mut out = String::new(alloc);
    match fault {
        TraceFault::BadLine(number) => push_bad_line(alloc, &mut out, text, number)?,
        TraceFault::BadProfile(number) => push_bad_profile(alloc, &mut out, text, number)?,
        TraceFault::OutOfMemory => push_text(&mut out, "no memory")?,
    }
    push_text(&mut out, "\n")?;
    Ok(out)
}

fn push_bad_line(
    alloc: Global,
    out: &mut String,
    text: &[u8],
    number: u64,
) -> Result<(), OutOfMemory> {
    write!(out, "bad line {number}: ")?;
    match line_at(text, number) {
        LineAt::Line(line) => push_reason(out, line, reason_of(alloc, line)?),
        LineAt::Unended => push_text(out, "the last line does not end with LF"),
        LineAt::Behind => push_text(out, "the text ends before the profile does"),
    }
}

fn push_reason(out: &mut String, line: &[u8], reason: LineReason) -> Result<(), OutOfMemory> {
    match reason {
        LineReason::Character(character) => push_character(out, character),
        LineReason::UnknownWord => push_text(out, "its first word begins no line of a trace"),
        LineReason::Word(bad) => push_word(out, line, bad),
        LineReason::Missing(number) => Ok(write!(out, "word {number} is missing")?),
        LineReason::Extra => push_text(out, "words follow its last one"),
        LineReason::UnknownOutcome => {
            push_text(out, "no part of an outcome follows the event's number")
        }
        LineReason::Misplaced => push_text(
            out,
            "it is not allowed at this place: the profile's lines come first, in their order, and an event's \
outcome behind the event, with its number: verdict, frames, datagrams, notices, or a fault alone",
        ),
    }
}

fn push_character(out: &mut String, character: Character) -> Result<(), OutOfMemory> {
    match character {
        Character::CarriageReturn => push_text(out, "it ends with CR LF, not with LF alone"),
        Character::Tab(column) => Ok(write!(out, "column {column} is a tab")?),
        Character::Space(column) => Ok(write!(
            out,
            "column {column} is a space too many: one separates two words"
        )?),
        Character::Unprinted(column) => Ok(write!(
            out,
            "column {column} is no printed ASCII character"
        )?),
    }
}

fn push_word(out: &mut String, line: &[u8], bad: BadWord) -> Result<(), OutOfMemory> {
    let number = bad.number;
    let words = match bad.reason {
        WordReason::NotDecimal => "is no decimal number",
        WordReason::LeadingZero => "has a zero at its front",
        WordReason::TooLarge(_) => "is a number that is too large",
        WordReason::NotAddress => "is no address of four numbers below 256",
        WordReason::NotHex => "has a character that is no hexadecimal digit",
        WordReason::OddDigits => "has an odd number of hexadecimal digits",
        WordReason::NotEightBytes => "is a key that has not eight bytes",
        WordReason::NotTwoDigits => "is no status of two hexadecimal digits",
        WordReason::OtherName => "is none of the names that are allowed there",
    };
    write!(out, "word {number} {words}")?;
    match bad.reason {
        WordReason::TooLarge(most) => {
            push_excess(out, word_at(ascii_text(line).unwrap_or(""), number), most)
        }
        _ => Ok(()),
    }
}

/// A word that is above the largest number of its place.
fn push_excess(out: &mut String, word: &str, most: u64) -> Result<(), OutOfMemory> {
    if word.len() > LONGEST_DIGITS {
        return Ok(write!(out, ": it is above {most}")?);
    }
    Ok(write!(out, ": {word} is above {most}")?)
}
