//! The lines of a text that a host writes, and the words of a line.
//!
//! Linux, `/proc`.

ghost use Rattle.std.specs.Prelude.{◌≡◌, ◌<◌, ◌≤◌, length, IfSome};
ghost use Rattle.std.specs.List.{position, position_or_len};
ghost use Rattle.station_port.specs.Counters.HostLines.{behind_line, behind_spaces, behind_word, decimal_from, decimal_of, digit_value, hex_value, is_line_feed, is_of_word, is_space, line_of, word_behind, word_of};

/// No number has more digits.
const MOST_DIGITS: usize = 20;

/// The place of the first line feed.
fn line_feed(text: &[u8]) -> Option<usize>
    ensures first { result ≡ position is_line_feed text.now }
    ensures inside { IfSome result (λ end. end < length text.now) }
{
    text.iter().position(|byte| *byte == b'\n')
}

/// The place of the first line feed; the length of a text without one.
fn line_end(text: &[u8]) -> usize
    ensures first { result ≡ position_or_len is_line_feed text.now }
    ensures within { result ≤ length text.now }
{
    match line_feed(text) {
        Some(end) => end,
        None => text.len(),
    }
}

/// The first line of a text.
pub fn line_of(text: &[u8]) -> &[u8]
    ensures { result.now ≡ line_of text.now }
{
    let (line, _rest) = text.split_at(line_end(text));
    line
}

/// What is behind the first line of a text.
pub fn behind_line(text: &[u8]) -> &[u8]
    ensures rest { result.now ≡ behind_line text.now }
    ensures less { 0 < length text.now → length result.now < length text.now }
{
    let (_line, rest) = text.split_at(line_end(text));
    match rest {
        [_line_feed, behind @ ..] => behind,
        [] => rest,
    }
}

/// Whether a byte separates two words.
fn is_space(byte: u8) -> bool
    ensures { result ≡ is_space byte }
{
    byte == b' ' || byte == b'\t'
}

/// The place of the first byte of a word.
fn first_of_word(line: &[u8]) -> Option<usize>
    ensures first { result ≡ position is_of_word line.now }
    ensures inside { IfSome result (λ start. start < length line.now) }
{
    line.iter().position(|byte| !is_space(*byte))
}

/// The place of the first byte of a word; the length of a line without one.
fn word_start(line: &[u8]) -> usize
    ensures first { result ≡ position_or_len is_of_word line.now }
    ensures within { result ≤ length line.now }
{
    match first_of_word(line) {
        Some(start) => start,
        None => line.len(),
    }
}

/// The place of the first space.
fn first_space(line: &[u8]) -> Option<usize>
    ensures first { result ≡ position is_space line.now }
    ensures inside { IfSome result (λ end. end < length line.now) }
{
    line.iter().position(|byte| is_space(*byte))
}

/// The place of the first space; the length of a line without one.
fn word_end(line: &[u8]) -> usize
    ensures first { result ≡ position_or_len is_space line.now }
    ensures within { result ≤ length line.now }
{
    match first_space(line) {
        Some(end) => end,
        None => line.len(),
    }
}

/// A line without the spaces at its front.
fn behind_spaces(line: &[u8]) -> &[u8]
    ensures { result.now ≡ behind_spaces line.now }
{
    let (_spaces, rest) = line.split_at(word_start(line));
    rest
}

/// The first word of a line.
#[tactic(auto, unfolding(crate::specs::Counters::HostLines::word_of))]
pub fn word_of(line: &[u8]) -> &[u8]
    ensures { result.now ≡ word_of line.now }
{
    let rest = behind_spaces(line);
    let (word, _behind) = rest.split_at(word_end(rest));
    word
}

/// What is behind the first word of a line.
#[tactic(auto, unfolding(crate::specs::Counters::HostLines::behind_word))]
pub fn behind_word(line: &[u8]) -> &[u8]
    ensures { result.now ≡ behind_word line.now }
{
    let rest = behind_spaces(line);
    let (_word, behind) = rest.split_at(word_end(rest));
    behind
}

/// The word behind so many others; an empty one if there are no more.
pub fn word_behind(count: u32, line: &[u8]) -> &[u8]
    ensures { result.now ≡ word_behind count line.now }
{
    let mut rest = line;
    let mut left = count;
    while left > 0 {
        rest = behind_word(rest);
        left -= 1;
    }
    word_of(rest)
}

/// The value of a decimal digit.
fn digit_value(byte: u8) -> Option<u8>
    ensures { result ≡ digit_value byte }
{
    if byte < b'0' || byte > b'9' {
        return None;
    }
    Some(byte - b'0')
}

/// The number of decimal digits, modulo 2^32. None if one of them is no digit.
fn decimal_from(word: &[u8]) -> Option<u32>
    ensures { result ≡ decimal_from 0 word.now }
{
    let mut number = 0u64;
    for byte in word {
        let Some(digit) = digit_value(*byte) else {
            return None;
        };
        number = (10 * number + u64::from(digit)) % 0x1_0000_0000;
    }
    Some(number as u32)
}

/// The number of a word of decimal digits, modulo 2^32. None if it is no such word.
pub fn decimal_of(word: &[u8]) -> Option<u32>
    ensures { result ≡ decimal_of word.now }
{
    if word.is_empty() || word.len() > MOST_DIGITS {
        return None;
    }
    decimal_from(word)
}

/// The value of a hexadecimal digit.
pub fn hex_value(byte: u8) -> Option<u8>
    ensures { result ≡ hex_value byte }
{
    match byte {
        b'0'..=b'9' => Some(byte - b'0'),
        b'A'..=b'F' => Some(byte - b'A' + 10),
        b'a'..=b'f' => Some(byte - b'a' + 10),
        _ => None,
    }
}
