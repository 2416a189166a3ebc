//! Why a line is bad: its first character or word that no such line has.

ghost use Rattle.std.specs.Prelude.{◌≡◌, ◌&&◌, false, IfOk, IfSome, is_none, is_some};
ghost use Rattle.trace_words.specs.Reader.{unread_words};
ghost use Rattle.trace_words.specs.Words.{words_of};
ghost use Rattle.trace_outcomes.specs.Parts.{part_reader};
ghost use Rattle.trace_lines.specs.Shapes.{behind_kinds, is_shaped};
ghost use Rattle.trace_text.specs.Forms.{line_of, line_reader};
ghost use Rattle.trace_faults.specs.Lexical.{bad_character};
ghost use Rattle.trace_faults.specs.Reasons.{is_misplaced, is_part_line, IsFirstBad};

use crate::lexical::{Character, bad_character};
use cip_types::OutOfMemory;
use std::alloc::Global;
use trace_lines::{Shape, WordKind, part_shape_of, shape_of, skip_word};
use trace_outcomes::read_part;
use trace_text::ascii_text;
use trace_words::{TextFault, Words, read_u64};

/// Why a word is not of its kind.
#[derive(Clone, Copy, PartialEq, Eq)]
pub enum WordReason {
    /// Not decimal digits alone.
    NotDecimal,
    /// A number with a needless zero at its front.
    LeadingZero,
    /// A number that is greater than its kind allows: above this one.
    TooLarge(u64),
    /// Not four numbers below 256 with dots between them, or not such addresses with commas between them.
    NotAddress,
    /// Not hexadecimal digits alone, and not a dash.
    NotHex,
    /// An odd number of hexadecimal digits.
    OddDigits,
    /// An electronic key that has not eight bytes.
    NotEightBytes,
    /// Not two hexadecimal digits.
    NotTwoDigits,
    /// None of the names that are allowed there.
    OtherName,
}

/// A word of a line, by its number from 1, and why it is not of its kind.
#[derive(Clone, Copy, PartialEq, Eq)]
pub struct BadWord {
    pub number: usize,
    pub reason: WordReason,
}

/// Why a line is bad: the first that holds.
#[derive(Clone, Copy, PartialEq, Eq)]
pub enum LineReason {
    /// A character that no line of a trace has at its place.
    Character(Character),
    /// The first word begins no line.
    UnknownWord,
    /// A word is not of its kind.
    Word(BadWord),
    /// The line ends before this word, by its number from 1.
    Missing(usize),
    /// The line goes on behind its last word.
    Extra,
    /// What follows the number of an event is no part of an outcome.
    UnknownOutcome,
    /// The line reads, but is not allowed at its place.
    Misplaced,
}

/// Why a line that is bad is so. The line is without its LF. OutOfMemory is the only fault.
pub fn reason_of(alloc: Global, line: &[u8]) -> Result<LineReason, OutOfMemory>
    // A character that no line of a trace has at its place comes before all other reasons.
    ensures character { IfOk result
        (λ reason. IfSome (bad_character 32 0 line.now) (λ bad. reason ≡ LineReason.Character bad)) }
    // The reason is the place of the line exactly if the line reads as a line of a trace.
    ensures place { IfOk result
        (λ reason. is_misplaced reason ≡ (is_none (bad_character 32 0 line.now) && is_some (line_of line.now))) }
{
    match bad_character(line) {
        Some(bad) => Ok(LineReason::Character(bad)),
        None => reason_of_text(alloc, line),
    }
}

/// Why a line without such a character is bad.
fn reason_of_text(alloc: Global, line: &[u8]) -> Result<LineReason, OutOfMemory>
    ensures { IfOk result (λ reason. is_misplaced reason ≡ is_some (line_of line.now)) }
{
    match ascii_text(line) {
        Some(text) => reason_of_words(alloc, text),
        None => Ok(LineReason::UnknownWord),
    }
}

fn reason_of_words(alloc: Global, line: &str) -> Result<LineReason, OutOfMemory>
    ensures { IfOk result (λ reason. is_misplaced reason ≡ is_some (line_reader (words_of line.now))) }
{
    let mut words = Words::of(line);
    let Ok(first) = words.word() else {
        return Ok(LineReason::UnknownWord);
    };
    match shape_of(first) {
        Some(shape) => checked(alloc, line, &mut words, shape, 2),
        None if read_u64(first).is_none() => Ok(LineReason::UnknownWord),
        None if is_part(alloc, line)? => Ok(LineReason::Misplaced),
        None => part_reason(alloc, line, &mut words),
    }
}

/// Whether a part of an outcome follows the first word of a line.
fn is_part(alloc: Global, line: &str) -> Result<bool, OutOfMemory>
    ensures { IfOk result (λ is. is ≡ is_part_line (words_of line.now)) }
{
    let mut words = Words::of(line);
    if words.word().is_err() {
        return Ok(false);
    }
    match read_part(alloc, &mut words) {
        Ok(_) => Ok(true),
        Err(TextFault::OutOfMemory) => Err(OutOfMemory),
        Err(TextFault::Bad) => Ok(false),
    }
}

/// What follows the number of an event, and is no part of an outcome.
fn part_reason(alloc: Global, line: &str, words: &mut Words<'_>) -> Result<LineReason, OutOfMemory>
    ensures { is_some (part_reader (unread_words words.old)) ≡ false
        → IfOk result (λ reason. is_misplaced reason ≡ false) }
{
    let Ok(word) = words.word() else {
        return Ok(LineReason::Missing(2));
    };
    match part_shape_of(word) {
        Some(shape) => checked(alloc, line, words, shape, 3),
        None => Ok(LineReason::UnknownOutcome),
    }
}

/// Why the words of a line are not those of this shape alone, of which the first has this number. Misplaced if they are.
fn checked(
    alloc: Global,
    line: &str,
    words: &mut Words<'_>,
    shape: Shape,
    number: usize,
) -> Result<LineReason, OutOfMemory>
    ensures { IfOk result (λ reason. is_misplaced reason
        ≡ is_shaped (shape.entry.0.now, shape.entry.1.now) (unread_words words.old)) }
{
    let (kinds, more) = shape;
    if let Some(reason) = bad_word(alloc, line, words, kinds, number)? {
        return Ok(reason);
    }
    if words.is_done() {
        return Ok(LineReason::Misplaced);
    }
    let next = number.saturating_add(kinds.len());
    if let Some(reason) = bad_word(alloc, line, words, more, next)? {
        return Ok(reason);
    }
    if words.is_done() {
        Ok(LineReason::Misplaced)
    } else {
        Ok(LineReason::Extra)
    }
}

/// The first bad word among those of these kinds, the first of which has this number in the line.
fn bad_word(
    alloc: Global,
    line: &str,
    words: &mut Words<'_>,
    kinds: &[WordKind],
    number: usize,
) -> Result<Option<LineReason>, OutOfMemory>
    ensures { IfOk result (IsFirstBad (behind_kinds kinds.now (unread_words words.old)) (unread_words words.new)) }
{
    let mut rest = kinds;
    let mut number = number;
    while let [kind, after @ ..] = rest {
        if words.is_done() {
            return Ok(Some(LineReason::Missing(number)));
        }
        match skip_word(alloc, *kind, words) {
            Ok(()) => {}
            Err(TextFault::Bad) => return Ok(Some(reason_of_word(line, *kind, number))),
            Err(TextFault::OutOfMemory) => return Err(OutOfMemory),
        }
        number = number.saturating_add(1);
        rest = after;
    }
    Ok(None)
}

/// Why the word of this number, which is not of this kind, is bad.
fn reason_of_word(line: &str, kind: WordKind, number: usize) -> LineReason
    ensures { is_misplaced result ≡ false }
{
    let reason = word_reason(kind, word_at(line, number));
    LineReason::Word(BadWord { number, reason })
}

/// The word of this number, from 1, in a line. Empty if there is none.
pub(crate) fn word_at(line: &str, number: usize) -> &str {
    let mut words = Words::of(line);
    for _ in 1..number {
        let _before = words.word();
    }
    words.word().unwrap_or("")
}

/// Why a word that is not of a kind is none of it.
fn word_reason(kind: WordKind, word: &str) -> WordReason {
    match kind {
        WordKind::U8 => number_reason(word, u8::MAX as u64),
        WordKind::U16 => number_reason(word, u16::MAX as u64),
        WordKind::U32 | WordKind::Instance => number_reason(word, u32::MAX as u64),
        WordKind::U64 => number_reason(word, u64::MAX),
        WordKind::Address | WordKind::Addresses => WordReason::NotAddress,
        WordKind::Hex => digits_reason(word.as_bytes()),
        WordKind::ElectronicKey => key_reason(word.as_bytes()),
        WordKind::GeneralStatus => WordReason::NotTwoDigits,
        _ => WordReason::OtherName,
    }
}

/// Why a word is no number of a kind, the largest of which is this one.
fn number_reason(word: &str, most: u64) -> WordReason {
    let digits = word.as_bytes();
    if digits.is_empty() || !digits.iter().all(|digit| digit.is_ascii_digit()) {
        return WordReason::NotDecimal;
    }
    match digits {
        [b'0', ..] => WordReason::LeadingZero,
        _ => WordReason::TooLarge(most),
    }
}

/// Why a word is no bytes.
fn digits_reason(digits: &[u8]) -> WordReason {
    if digits.iter().all(|digit| digit.is_ascii_hexdigit()) {
        WordReason::OddDigits
    } else {
        WordReason::NotHex
    }
}

/// Why a word is no key.
fn key_reason(digits: &[u8]) -> WordReason {
    match digits_reason(digits) {
        WordReason::OddDigits if digits.len() % 2 == 0 => WordReason::NotEightBytes,
        reason => reason,
    }
}
