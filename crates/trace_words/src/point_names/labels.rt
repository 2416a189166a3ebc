//! Names behind the lines that a station prints.

ghost use Rattle.std.specs.Prelude.{ℕ, List, ◌≡◌, ◌<◌, ◌+◌, ◌∷◌, [], ◌++◌, IfNone, IfSome, OnOk, drop, length, option_map, position, take};
ghost use Rattle.trace_words.specs.PointNames.Labels.{behind_kind, expected_after, found_name, is_gap, is_kind, is_line_feed, is_quoted, is_still_first, label_front, label_mark, label_text, labelled_line, labelled_text, labels_of, leads_point, leads_slot, led_by, lines_in, name_behind, words_in};
ghost use Rattle.trace_words.specs.PointNames.Things.{devices_in, names_in};

use crate::point_names::devices::DeviceNames;
use crate::point_names::line::{Named, number_in};
use crate::point_names::names::Names;
use cip_types::OutOfMemory;

/// What a word of a line stands for, by the words in front of it.
#[derive(Clone, Copy, PartialEq, Eq)]
enum Expected {
    /// The number of a point.
    Point,
    /// The numbers of two points: this is the first.
    Points,
    /// The number of a slot.
    Slot,
    /// A word behind `connection`: an address, or the kind at the last.
    Kind,
    /// Text behind a quotation mark.
    Text,
    /// Any other word: an address, or one that says what is behind it.
    Other,
}

/// Appends a text of lines, each with the names of its points, slots and devices behind it. A line without any stays as it is.
/// The only fault is a refused allocation.
pub fn push_labelled(
    out: &mut Vec<u8>,
    names: &Names,
    devices: &DeviceNames,
    text: &[u8],
) -> Result<(), OutOfMemory>
    ensures { OnOk result (out.new.items ≡ out.old.items
        ++ labelled_text (names_in names.now) (devices_in devices.now) text.now) }
{
    let mut rest = text;
    while let Some((line, after)) = first_line(rest) {
        push_line(out, names, devices, line)?;
        out.extend_from_slice(b"\n")?;
        rest = after;
    }
    push_line(out, names, devices, rest)
}

/// Does nothing. Its contract is a law: where nothing has a name, each byte of a text stays.
pub fn nothing_named_changes_no_byte()
    ensures { (text : List ℕ) → labelled_text [] [] text ≡ text }
{}

/// Appends a line with its labels.
fn push_line(
    out: &mut Vec<u8>,
    names: &Names,
    devices: &DeviceNames,
    line: &[u8],
) -> Result<(), OutOfMemory>
    ensures { OnOk result (out.new.items ≡ out.old.items
        ++ labelled_line (names_in names.now) (devices_in devices.now) line.now) }
{
    out.extend_from_slice(line)?;
    push_labels(out, names, devices, line)
}

/// Appends the labels of a line.
fn push_labels(
    out: &mut Vec<u8>,
    names: &Names,
    devices: &DeviceNames,
    line: &[u8],
) -> Result<(), OutOfMemory>
    ensures { OnOk result (out.new.items ≡ out.old.items
        ++ labels_of (names_in names.now) (devices_in devices.now) line.now) }
{
    let mut is_first = true;
    let mut expected = Expected::Other;
    let mut before: &[u8] = &[];
    let mut rest = line;
    while let Some((word, after)) = first_word(rest) {
        let name = name_behind(names, devices, expected, before, word);
        push_label(out, is_first, expected, word, name)?;
        is_first = is_still_first(is_first, name);
        expected = expected_after(expected, word);
        before = word;
        rest = after;
    }
    let name = name_behind(names, devices, expected, before, rest);
    push_label(out, is_first, expected, rest, name)
}

/// The first line, without the LF that ends it, and what is behind that. None if no LF is left.
pub(crate) fn first_line(text: &[u8]) -> Option<(&[u8], &[u8])>
    ensures line { IfSome result (λ got. lines_in text.now ≡ got.0.now ∷ lines_in got.1.now) }
    ensures shorter { IfSome result (λ got. length got.1.now < length text.now) }
    ensures last { IfNone result (lines_in text.now ≡ text.now ∷ []) }
{
    match line_feed_in(text) {
        Some(end) => Some(parts_at(text, end)),
        None => None,
    }
}

/// The place of the first LF.
fn line_feed_in(text: &[u8]) -> Option<usize>
    ensures first { result ≡ position is_line_feed text.now }
    ensures inside { IfSome result (λ end. end < length text.now) }
{
    text.iter().position(|byte| is_line_feed(*byte))
}

fn is_line_feed(byte: u8) -> bool
    ensures { result ≡ is_line_feed byte }
{
    byte == b'\n'
}

/// The first word, without the byte that ends it, and what is behind that. None if the word is the last one.
fn first_word(line: &[u8]) -> Option<(&[u8], &[u8])>
    ensures word { IfSome result (λ got. words_in line.now ≡ got.0.now ∷ words_in got.1.now) }
    ensures shorter { IfSome result (λ got. length got.1.now < length line.now) }
    ensures last { IfNone result (words_in line.now ≡ line.now ∷ []) }
{
    match gap_in(line) {
        Some(end) => Some(parts_at(line, end)),
        None => None,
    }
}

/// The place of the first byte that ends a word.
fn gap_in(line: &[u8]) -> Option<usize>
    ensures first { result ≡ position is_gap line.now }
    ensures inside { IfSome result (λ end. end < length line.now) }
{
    line.iter().position(|byte| is_gap(*byte))
}

/// What stands in front of the byte at a place, and what stands behind it.
fn parts_at(bytes: &[u8], place: usize) -> (&[u8], &[u8])
    requires { place < length bytes.now }
    ensures front { result.0.now ≡ take place bytes.now }
    ensures back { result.1.now ≡ drop (place + 1) bytes.now }
{
    (&bytes[..place], &bytes[place + 1..])
}

/// Whether a byte ends a word.
fn is_gap(byte: u8) -> bool
    ensures { result ≡ is_gap byte }
{
    byte == b' ' || (byte == b',' || (byte == b':' || byte == b';'))
}

/// What stands behind a word that stood for this.
fn expected_after(expected: Expected, word: &[u8]) -> Expected
    ensures { result ≡ expected_after expected word.now }
{
    match expected {
        Expected::Text => Expected::Text,
        Expected::Points => Expected::Point,
        Expected::Kind => behind_kind(is_kind(word)),
        _ => led_by(word),
    }
}

/// What stands behind a word of a connection, which is its kind or not.
fn behind_kind(is_kind: bool) -> Expected
    ensures { result ≡ behind_kind is_kind }
{
    if is_kind {
        Expected::Points
    } else {
        Expected::Kind
    }
}

/// What stands behind a word.
fn led_by(word: &[u8]) -> Expected
    ensures { result ≡ led_by word.now }
{
    if leads_point(word) {
        Expected::Point
    } else if leads_slot(word) {
        Expected::Slot
    } else if word == b"connection".as_slice() {
        Expected::Kind
    } else if is_quoted(word) {
        Expected::Text
    } else {
        Expected::Other
    }
}

fn leads_point(word: &[u8]) -> bool
    ensures { result ≡ leads_point word.now }
{
    word == b"output".as_slice() || word == b"owner".as_slice()
}

fn leads_slot(word: &[u8]) -> bool
    ensures { result ≡ leads_slot word.now }
{
    (word == b"image".as_slice() || word == b"slot".as_slice())
        || (word == b"refused".as_slice() || word == b"no-ids".as_slice())
}

/// Whether a word is the kind of a connection.
fn is_kind(word: &[u8]) -> bool
    ensures { result ≡ is_kind word.now }
{
    word == b"exclusive".as_slice() || (word == b"input".as_slice() || word == b"listen".as_slice())
}

fn is_quoted(word: &[u8]) -> bool
    ensures { result ≡ is_quoted word.now }
{
    match word.first() {
        Some(first) => *first == b'"',
        None => false,
    }
}

/// The name of what a word stands for, unless it is the same as the word in front of it.
fn name_behind<'a>(
    names: &'a Names,
    devices: &'a DeviceNames,
    expected: Expected,
    before: &[u8],
    word: &[u8],
) -> Option<&'a str>
    ensures { option_map (λ name. name.now) result
        ≡ name_behind (names_in names.now) (devices_in devices.now) expected before.now word.now }
{
    if word == before {
        return None;
    }
    found_name(names, devices, expected, word)
}

/// The name of what a word stands for.
fn found_name<'a>(
    names: &'a Names,
    devices: &'a DeviceNames,
    expected: Expected,
    word: &[u8],
) -> Option<&'a str>
    ensures { option_map (λ name. name.now) result
        ≡ found_name (names_in names.now) (devices_in devices.now) expected word.now }
{
    match expected {
        Expected::Point | Expected::Points => match number_in(word) {
            Some(point) => names.of(Named::Point(point)),
            None => None,
        },
        Expected::Slot => match number_in(word) {
            Some(slot) => names.of(Named::Slot(slot)),
            None => None,
        },
        Expected::Text => None,
        Expected::Kind | Expected::Other => devices.of(word),
    }
}

/// Whether the next label is the first one of a line, behind a word with or without a name.
fn is_still_first(is_first: bool, name: Option<&str>) -> bool
    ensures { result ≡ is_still_first is_first (option_map (λ given. given.now) name.entry) }
{
    match name {
        Some(_) => false,
        None => is_first,
    }
}

/// Appends the label of a word, if it has a name: the first one of a line, or one behind another.
fn push_label(
    out: &mut Vec<u8>,
    is_first: bool,
    expected: Expected,
    word: &[u8],
    name: Option<&str>,
) -> Result<(), OutOfMemory>
    ensures { OnOk result (out.new.items ≡ out.old.items
        ++ label_text is_first expected word.now (option_map (λ given. given.now) name.entry)) }
{
    let Some(name) = name else {
        return Ok(());
    };
    out.extend_from_slice(label_mark(is_first))?;
    out.extend_from_slice(label_front(expected))?;
    out.extend_from_slice(word)?;
    out.extend_from_slice(b" (")?;
    out.extend_from_slice(name.as_bytes())?;
    out.extend_from_slice(b")")?;
    Ok(())
}

fn label_mark(is_first: bool) -> &'static [u8]
    ensures { result.now ≡ label_mark is_first }
{
    if is_first { b" # " } else { b", " }
}

fn label_front(expected: Expected) -> &'static [u8]
    ensures { result.now ≡ label_front expected }
{
    match expected {
        Expected::Slot => b"slot ",
        _ => b"",
    }
}
