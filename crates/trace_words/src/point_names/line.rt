//! The lines of a profile that name a point, a slot or a bit.

ghost use Rattle.std.specs.Prelude.{◌≡◌, ◌<◌, length, position, IfSome};
ghost use Rattle.cip_types.specs.Fields.{Finds};
ghost use Rattle.trace_words.specs.PointNames.Lines.{bit_by, bit_by_point, bit_with, byte_with, front_word, is_space, kind_with, name_kind, named_by, narrowed, number_in, point_with, rest_words, slot_with, whole_by};

use crate::point_names::text::ascii_text;
use crate::read_u64;

/// The two kinds of name lines.
#[derive(Clone, Copy, PartialEq, Eq)]
pub enum NameKind {
    /// `# name`: of a point or a slot.
    Whole,
    /// `# bit`: of a bit of a point's byte.
    Bit,
}

/// What is named.
#[derive(Clone, Copy, PartialEq, Eq)]
pub enum Named {
    /// The point of this number.
    Point(u32),
    /// The slot of this number of a scanner.
    Slot(u32),
    /// A bit, from 0 to 7, of the byte of this number, from 0 on, of a point.
    Bit(u32, u32, u32),
}

/// The kind of a name line, and its other words. None of another line. A name line is a comment whose first words are `# name` or
/// `# bit`; a space ends each.
pub fn name_kind(line: &[u8]) -> Option<(NameKind, &[u8])>
    ensures { Finds (λ x. (x.0, x.1.now)) result (name_kind line.now) }
{
    if front_word(line) != b"#".as_slice() {
        return None;
    }
    kind_with(rest_words(line))
}

/// The kind of a name line behind its first word, and its other words.
fn kind_with(rest: &[u8]) -> Option<(NameKind, &[u8])>
    ensures { Finds (λ x. (x.0, x.1.now)) result (kind_with rest.now) }
{
    if front_word(rest) == b"name".as_slice() {
        return Some((NameKind::Whole, rest_words(rest)));
    }
    if front_word(rest) == b"bit".as_slice() {
        return Some((NameKind::Bit, rest_words(rest)));
    }
    None
}

/// What the words of a name line name, and the text behind. None by other words.
pub fn named_by(kind: NameKind, words: &[u8]) -> Option<(Named, &[u8])>
    ensures { Finds (λ x. (x.0, x.1.now)) result (named_by kind words.now) }
{
    match kind {
        NameKind::Whole => whole_by(words),
        NameKind::Bit => bit_by(words),
    }
}

/// `slot N TEXT`, or `POINT TEXT`.
fn whole_by(words: &[u8]) -> Option<(Named, &[u8])>
    ensures { Finds (λ x. (x.0, x.1.now)) result (whole_by words.now) }
{
    if front_word(words) == b"slot".as_slice() {
        let rest = rest_words(words);
        return slot_with(number_in(front_word(rest)), rest_words(rest));
    }
    point_with(number_in(front_word(words)), rest_words(words))
}

fn slot_with(slot: Option<u32>, text: &[u8]) -> Option<(Named, &[u8])>
    ensures { Finds (λ x. (x.0, x.1.now)) result (slot_with slot text.now) }
{
    match slot {
        Some(slot) => Some((Named::Slot(slot), text)),
        None => None,
    }
}

fn point_with(point: Option<u32>, text: &[u8]) -> Option<(Named, &[u8])>
    ensures { Finds (λ x. (x.0, x.1.now)) result (point_with point text.now) }
{
    match point {
        Some(point) => Some((Named::Point(point), text)),
        None => None,
    }
}

/// `POINT BYTE BIT TEXT`.
fn bit_by(words: &[u8]) -> Option<(Named, &[u8])>
    ensures { Finds (λ x. (x.0, x.1.now)) result (bit_by words.now) }
{
    bit_by_point(number_in(front_word(words)), rest_words(words))
}

fn bit_by_point(point: Option<u32>, words: &[u8]) -> Option<(Named, &[u8])>
    ensures { Finds (λ x. (x.0, x.1.now)) result (bit_by_point point words.now) }
{
    match point {
        Some(point) => byte_with(point, number_in(front_word(words)), rest_words(words)),
        None => None,
    }
}

fn byte_with(point: u32, byte: Option<u32>, words: &[u8]) -> Option<(Named, &[u8])>
    ensures { Finds (λ x. (x.0, x.1.now)) result (byte_with point byte words.now) }
{
    match byte {
        Some(byte) => bit_with(point, byte, number_in(front_word(words)), rest_words(words)),
        None => None,
    }
}

/// A byte has bits 0 to 7.
fn bit_with(point: u32, byte: u32, bit: Option<u32>, text: &[u8]) -> Option<(Named, &[u8])>
    ensures { Finds (λ x. (x.0, x.1.now)) result (bit_with point byte bit text.now) }
{
    match bit {
        Some(bit) if bit < 8 => Some((Named::Bit(point, byte, bit), text)),
        _ => None,
    }
}

/// The word at the front of a line, up to a space.
fn front_word(line: &[u8]) -> &[u8]
    ensures { result.now ≡ front_word line.now }
{
    match space_in(line) {
        Some(end) => &line[..end],
        None => line,
    }
}

/// What is behind the word at the front of a line, and the space that ends it.
fn rest_words(line: &[u8]) -> &[u8]
    ensures { result.now ≡ rest_words line.now }
{
    match space_in(line) {
        Some(end) => &line[end + 1..],
        None => &[],
    }
}

/// The place of the first space.
fn space_in(line: &[u8]) -> Option<usize>
    ensures first { result ≡ position is_space line.now }
    ensures inside { IfSome result (λ end. end < length line.now) }
{
    line.iter().position(|byte| *byte == b' ')
}

/// A number of 32 bits in decimal digits.
pub(crate) fn number_in(word: &[u8]) -> Option<u32>
    ensures { result ≡ number_in word.now }
{
    match ascii_text(word) {
        Some(word) => narrowed(read_u64(word)),
        None => None,
    }
}

/// A number, if it has at most 32 bits.
fn narrowed(number: Option<u64>) -> Option<u32>
    ensures { result ≡ narrowed number }
{
    match number {
        Some(number) if number < 0x1_0000_0000 => Some(number as u32),
        _ => None,
    }
}
