//! Texts in attributes: how they are read and printed.

ghost use Rattle.std.specs.Prelude.{◌≡◌, ◌++◌, ◌∷◌, [], map, OnOk, string_bytes};
ghost use Rattle.station_lines.specs.Attributes.Values.{counted_text, padded_text, quoted_text, raw_text, short_string_text, shown_byte, string_text};
ghost use Rattle.cip_types.specs.Fields.{Finds};

use cip_types::OutOfMemory;
use cip_types::fields::u16_at;
use trace_words::{push_bytes, push_text};

/// Appends bytes as they are.
pub fn push_raw(out: &mut String, bytes: &[u8]) -> Result<(), OutOfMemory>
    ensures { OnOk result (string_bytes out.new ≡ string_bytes out.old ++ raw_text bytes.now) }
{
    push_text(out, "bytes ")?;
    push_bytes(out, bytes)
}

/// A byte of a text, or a question mark for one that is no printable character of ASCII.
fn shown_byte(byte: u8) -> u8
    ensures { result ≡ shown_byte byte }
{
    if byte >= b' ' && byte <= b'~' {
        byte
    } else {
        b'?'
    }
}

/// Appends a byte of a text.
fn push_shown(out: &mut String, byte: u8) -> Result<(), OutOfMemory>
    ensures { OnOk result (string_bytes out.new ≡ string_bytes out.old ++ shown_byte byte ∷ []) }
{
    out.push(char::from(shown_byte(byte)))?;
    Ok(())
}

/// Appends the bytes of a text.
fn push_shown_all(out: &mut String, text: &[u8]) -> Result<(), OutOfMemory>
    ensures { OnOk result (string_bytes out.new ≡ string_bytes out.old ++ map shown_byte text.now) }
{
    for byte in text {
        push_shown(out, *byte)?;
    }
    Ok(())
}

/// Appends a text in quotation marks.
pub fn push_quoted(out: &mut String, text: &[u8]) -> Result<(), OutOfMemory>
    ensures { OnOk result (string_bytes out.new ≡ string_bytes out.old ++ quoted_text text.now) }
{
    push_text(out, "\"")?;
    push_shown_all(out, text)?;
    push_text(out, "\"")
}

/// Appends a text that follows one byte, which is its length.
///
/// Volume 1, appendix C, SHORT_STRING.
pub fn push_short_string(out: &mut String, bytes: &[u8]) -> Result<(), OutOfMemory>
    ensures { OnOk result (string_bytes out.new ≡ string_bytes out.old ++ short_string_text bytes.now) }
{
    let [count, text @ ..] = bytes else {
        return push_raw(out, bytes);
    };
    if text.len() == usize::from(*count) {
        push_quoted(out, text)
    } else {
        push_raw(out, bytes)
    }
}

/// The text of this length, behind which one of odd length has at most one pad byte.
fn padded_text(count: u16, bytes: &[u8]) -> Option<&[u8]>
    ensures { Finds (λ x. x.now) result (padded_text count bytes.now) }
{
    let len = usize::from(count);
    if bytes.len() < len {
        return None;
    }
    let (text, pad) = bytes.split_at(len);
    if len % 2 < pad.len() {
        return None;
    }
    Some(text)
}

/// The text that follows two bytes, which are its length. None if the bytes are not such a text.
///
/// Volume 1, appendix C, STRING.
pub fn counted_text(bytes: &[u8]) -> Option<&[u8]>
    ensures { Finds (λ x. x.now) result (counted_text bytes.now) }
{
    let (count, text) = u16_at(bytes)?;
    padded_text(count, text)
}

/// Appends a text that follows two bytes, which are its length.
pub fn push_string(out: &mut String, bytes: &[u8]) -> Result<(), OutOfMemory>
    ensures { OnOk result (string_bytes out.new ≡ string_bytes out.old ++ string_text bytes.now) }
{
    match counted_text(bytes) {
        Some(text) => push_quoted(out, text),
        None => push_raw(out, bytes),
    }
}
