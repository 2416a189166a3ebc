//! The text of a name.

ghost use Rattle.std.specs.Prelude.{◌≡◌, MatchOption, None, Some, if◌then◌else◌, option_map};
ghost use Rattle.std.specs.List.{list_any};
ghost use Rattle.trace_words.specs.PointNames.Texts.{IsNameText, begins, characters, ends_c1, has_c1, is_ascii, is_control, is_plain};

use std::str;

/// A name has at most so many characters.
const MOST_CHARACTERS: usize = 32;

/// The text of a name: UTF-8, 1 to 32 characters, none of them a control character. None of other bytes.
pub fn name_text(bytes: &[u8]) -> Option<&str>
    ensures { MatchOption result (¬ (IsNameText bytes.now)) (λ text. (text.now ≡ bytes.now) × IsNameText bytes.now) }
{
    if !is_plain(bytes) {
        return None;
    }
    match str::from_utf8(bytes) {
        Ok(text) => Some(text),
        Err(_) => None,
    }
}

/// Whether bytes have 1 to 32 characters, none of them a control character.
fn is_plain(bytes: &[u8]) -> bool
    ensures { result ≡ is_plain bytes.now }
{
    let count = characters(bytes);
    !has_control(bytes) && !has_c1(bytes) && 0 < count && count <= MOST_CHARACTERS
}

/// Whether a byte is a control character of ASCII.
fn has_control(bytes: &[u8]) -> bool
    ensures { result ≡ list_any is_control bytes.now }
{
    bytes.iter().any(|byte| is_control(*byte))
}

fn is_control(byte: u8) -> bool
    ensures { result ≡ is_control byte }
{
    byte < 32 || byte == 127
}

/// How many characters bytes have.
fn characters(bytes: &[u8]) -> usize
    ensures { result ≡ characters bytes.now }
{
    bytes.iter().filter(|byte| begins(**byte)).count()
}

/// Whether a byte begins a character.
fn begins(byte: u8) -> bool
    ensures { result ≡ begins byte }
{
    byte < 0x80 || byte >= 0xC0
}

/// Whether bytes have a control character of the second set, C2 80 to C2 9F.
fn has_c1(bytes: &[u8]) -> bool
    ensures { result ≡ has_c1 bytes.now }
{
    let mut rest = bytes;
    while let [first, after @ ..] = rest {
        if *first == 0xC2 && ends_c1(after) {
            return true;
        }
        rest = after;
    }
    false
}

/// Whether bytes behind C2 begin with the second byte of a control character.
fn ends_c1(bytes: &[u8]) -> bool
    ensures { result ≡ ends_c1 bytes.now }
{
    match bytes.first() {
        Some(next) => *next < 0xA0,
        None => false,
    }
}

/// The text of bytes. None if one of them is no character of ASCII.
pub(crate) fn ascii_text(bytes: &[u8]) -> Option<&str>
    ensures { option_map (λ text. text.now) result ≡ (if is_ascii bytes.now then Some bytes.now else None) }
{
    if !is_ascii(bytes) {
        return None;
    }
    match str::from_utf8(bytes) {
        Ok(text) => Some(text),
        Err(_) => None,
    }
}

fn is_ascii(bytes: &[u8]) -> bool
    ensures { result ≡ is_ascii bytes.now }
{
    bytes.iter().all(|byte| *byte < 0x80)
}
