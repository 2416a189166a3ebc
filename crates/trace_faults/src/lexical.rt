//! The characters of a line that no line of a trace has.

ghost use Rattle.std.specs.Prelude.{◌≡◌};
ghost use Rattle.trace_faults.specs.Lexical.{is_fit, last_space, bad_character, character_at};

/// A character that no line of a trace has at its place. A column counts from 1.
#[derive(Clone, Copy, PartialEq, Eq)]
pub enum Character {
    /// A carriage return at the end: the line ends with CR LF.
    CarriageReturn,
    /// A tab.
    Tab(usize),
    /// A space at the front, at the end, or behind another space.
    Space(usize),
    /// A character that is no printed ASCII character.
    Unprinted(usize),
}

/// Whether this byte may be in a line behind this one.
fn is_fit(before: u8, byte: u8) -> bool
    ensures { result ≡ is_fit before byte }
{
    if byte == b' ' {
        before != b' '
    } else {
        byte > b' ' && byte < 127
    }
}

/// What a byte is that may not be in its place.
fn character_at(byte: u8, column: usize, is_last: bool) -> Character
    ensures { result ≡ character_at byte column is_last }
{
    if byte == b'\r' && is_last {
        return Character::CarriageReturn;
    }
    match byte {
        b'\t' => Character::Tab(column),
        b' ' => Character::Space(column),
        _ => Character::Unprinted(column),
    }
}

/// The first character of a line that no line of a trace has at its place. The line is without its LF.
pub fn bad_character(line: &[u8]) -> Option<Character>
    ensures { result ≡ bad_character 32 0 line.now }
{
    let mut before = b' ';
    let mut done = 0;
    let mut rest = line;
    while let [byte, after @ ..] = rest {
        done += 1;
        if !is_fit(before, *byte) {
            return Some(character_at(*byte, done, after.is_empty()));
        }
        before = *byte;
        rest = after;
    }
    match rest {
        [] => last_space(before, done),
        _ => unreachable!(),
    }
}

/// A space at the end of a line of so many bytes that ends with this one.
fn last_space(last: u8, done: usize) -> Option<Character>
    ensures { result ≡ last_space last done }
{
    if last == b' ' && done > 0 {
        Some(Character::Space(done))
    } else {
        None
    }
}
