//! The lines of a text.

use trace_text::first_line;

/// What is at a line's number.
pub enum LineAt<'a> {
    /// A line, without its LF.
    Line(&'a [u8]),
    /// Bytes that no LF ends.
    Unended,
    /// Nothing: the text ends before.
    Behind,
}

/// What is at the line of a number, from 1.
pub fn line_at(text: &[u8], number: u64) -> LineAt<'_> {
    let mut rest = text;
    let mut left = number;
    while let Some((line, after)) = first_line(rest) {
        if left <= 1 {
            return LineAt::Line(line);
        }
        left -= 1;
        rest = after;
    }
    if rest.is_empty() {
        LineAt::Behind
    } else {
        LineAt::Unended
    }
}
