//! The text of a line: what is left of it without the blanks around it, and its first word.

ghost use Rattle.std.specs.Prelude.{◌≡◌, codes};
ghost use Rattle.std.specs.List.{list_all};
ghost use Rattle.plant_rim.specs.File.Texts.{behind_word, cut_at, first_word, is_name, is_name_byte, is_skipped, trimmed, view_cut};

/// The longest name of a device.
const LONGEST_DEVICE_NAME: usize = 64;

/// A line without the blanks at its front and at its end.
pub fn trimmed(line: &[u8]) -> &[u8]
    ensures { result.now ≡ trimmed line.now }
{
    line.trim_ascii()
}

/// Whether a text is empty, or a comment.
pub fn is_skipped(text: &[u8]) -> bool
    ensures { result ≡ is_skipped text.now }
{
    match text.get(0) {
        Some(first) => *first == b'#',
        None => true,
    }
}

/// The word before the first space, and what is behind it.
pub fn split_word(text: &str) -> (&str, &str)
    ensures word { result.0.now ≡ first_word text.now }
    ensures rest { result.1.now ≡ behind_word text.now }
{
    match text.split_once(' ') {
        Some((word, rest)) => (word, rest),
        None => (text, ""),
    }
}

/// What is before the first ` do ` of a text, and what is behind it; None if there is none.
pub fn split_do(text: &str) -> Option<(&str, &str)>
    ensures { view_cut result ≡ cut_at (codes " do ") text.now }
{
    text.split_once(" do ")
}

/// Whether a word is a name: letters, digits, - and _.
pub fn is_name(word: &[u8]) -> bool
    ensures { result ≡ is_name word.now }
{
    !word.is_empty() && word.len() <= LONGEST_DEVICE_NAME && are_name_bytes(word)
}

fn are_name_bytes(word: &[u8]) -> bool
    ensures { result ≡ list_all is_name_byte word.now }
{
    word.iter().all(|byte| is_name_byte(*byte))
}

fn is_name_byte(byte: u8) -> bool
    ensures { result ≡ is_name_byte byte }
{
    matches!(byte, b'a'..=b'z' | b'A'..=b'Z' | b'0'..=b'9' | b'-' | b'_')
}
