//! The text of a station's state: the lines `incarnation N`, `serial N`, `serials N` and `ids FROM LEFT`, of which an early state
//! has not the last ones.

ghost use Rattle.std.specs.Prelude.{◌≡◌, ◌<◌, ◌++◌, length, position, option_map, IfSome, OnOk, string_bytes};
ghost use Rattle.station_record.specs.KeptState.States.{first_line, ids_of, ids_text, ids_with, is_byte, line_behind, number_before, number_word, serial_in, serials_of, serials_text, state_of, state_text, state_with, view_line, view_rest};

use crate::kept_state::ids::KeptIds;
use crate::kept_state::state::StationState;
use cip_types::OutOfMemory;
use trace_words::read_u64;

/// Appends the text of a state.
pub fn push_state(out: &mut String, state: StationState) -> Result<(), OutOfMemory>
    ensures { OnOk result (string_bytes out.new ≡ string_bytes out.old ++ state_text state) }
{
    let StationState {
        incarnation,
        serial,
        serials,
        ids,
    } = state;
    write!(out, "incarnation {incarnation}\nserial {serial}\n")?;
    push_serials(out, serials)?;
    push_ids(out, ids)
}

/// Appends the line of the first connection serial number, if there is one.
fn push_serials(out: &mut String, serials: Option<u16>) -> Result<(), OutOfMemory>
    ensures { OnOk result (string_bytes out.new ≡ string_bytes out.old ++ serials_text serials) }
{
    if let Some(first) = serials {
        write!(out, "serials {first}\n")?;
    }
    Ok(())
}

/// Appends the line of the place from which on no connection id was given, if there is one.
fn push_ids(out: &mut String, ids: Option<KeptIds>) -> Result<(), OutOfMemory>
    ensures { OnOk result (string_bytes out.new ≡ string_bytes out.old ++ ids_text ids) }
{
    if let Some(KeptIds { from, left }) = ids {
        write!(out, "ids {from} {left}\n")?;
    }
    Ok(())
}

/// The state of a text; None if the text is not that of a state.
pub fn read_state(text: &[u8]) -> Option<StationState>
    ensures { result ≡ state_of text.now }
{
    let (incarnation, rest) = read_line(text, b"incarnation ")?;
    let (serial, rest) = read_line(rest, b"serial ")?;
    let (serials, rest) = read_serials(rest)?;
    let ids = read_ids(rest)?;
    state_with(incarnation, serial, serials, ids)
}

/// The state of these numbers, if they are those of a state.
fn state_with(
    incarnation: u64,
    serial: u64,
    serials: Option<u16>,
    ids: Option<KeptIds>,
) -> Option<StationState>
    ensures { result ≡ state_with incarnation serial serials ids }
{
    if incarnation == 0 || incarnation > 255 || serial > 4_294_967_295 {
        return None;
    }
    Some(StationState {
        incarnation: incarnation as u8,
        serial: serial as u32,
        serials,
        ids,
    })
}

/// The first connection serial number, if the text begins with its line, and the text behind it. None if the line has no such
/// number.
fn read_serials(text: &[u8]) -> Option<(Option<u16>, &[u8])>
    ensures { option_map view_rest result ≡ serials_of text.now }
{
    let Some(rest) = text.strip_prefix(b"serials ") else {
        return Some((None, text));
    };
    let (first, rest) = first_line(rest)?;
    let first = serial_in(first)?;
    Some((Some(first), rest))
}

/// A first connection serial number, if it is one.
fn serial_in(first: u64) -> Option<u16>
    ensures { result ≡ serial_in first }
{
    if first == 0 || first > 65_535 {
        return None;
    }
    Some(first as u16)
}

/// The place from which on no id was given, if the text has its line. None if the text is another one.
fn read_ids(text: &[u8]) -> Option<Option<KeptIds>>
    ensures { result ≡ ids_of text.now }
{
    if text.is_empty() {
        return Some(None);
    }
    let rest = text.strip_prefix(b"ids ")?;
    let (from, rest) = number_before(rest, b' ')?;
    let (left, rest) = first_line(rest)?;
    ids_with(from, left, rest)
}

/// A place from which on no id was given, if it is one and no text is behind its line.
fn ids_with(from: u64, left: u64, rest: &[u8]) -> Option<Option<KeptIds>>
    ensures { result ≡ ids_with from left rest.now }
{
    if !rest.is_empty() || from == 0 || from > 4_294_967_295 || left > 4_294_967_295 {
        return None;
    }
    Some(Some(KeptIds {
        from: from as u32,
        left: left as u32,
    }))
}

/// The number of the first line, which begins with this word, and the text behind the line.
fn read_line<'a>(text: &'a [u8], word: &[u8]) -> Option<(u64, &'a [u8])>
    ensures { option_map view_line result ≡ line_behind word.now text.now }
{
    let rest = text.strip_prefix(word)?;
    first_line(rest)
}

/// The number of the first line, and the text behind it.
fn first_line(text: &[u8]) -> Option<(u64, &[u8])>
    ensures { option_map view_line result ≡ first_line text.now }
{
    number_before(text, b'\n')
}

/// The number before the first byte of this kind, and the text behind that byte.
fn number_before(text: &[u8], end: u8) -> Option<(u64, &[u8])>
    ensures { option_map view_line result ≡ number_before end text.now }
{
    let end = place_of(text, end)?;
    let number = read_number(&text[..end])?;
    Some((number, &text[end + 1..]))
}

/// The place of the first byte of this kind.
fn place_of(text: &[u8], kind: u8) -> Option<usize>
    ensures first { result ≡ position (is_byte kind) text.now }
    ensures inside { IfSome result (λ end. end < length text.now) }
{
    text.iter().position(|byte| *byte == kind)
}

/// The number of a word.
fn read_number(word: &[u8]) -> Option<u64>
    ensures { result ≡ number_word word.now }
{
    match str::from_utf8(word) {
        Ok(word) => read_u64(word),
        Err(_) => None,
    }
}
