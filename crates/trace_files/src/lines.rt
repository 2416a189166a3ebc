//! The lines of a reader.

use std::io::{self, BufRead, Read};

/// The most bytes of a line. A longer one is a bad line.
pub const LONGEST_LINE: usize = 1_048_576;

/// What a reader gave of a line.
#[derive(Clone, Copy, Debug, PartialEq, Eq)]
pub enum LinePart {
    /// The line is whole; its LF is not part of it.
    Whole,
    /// The reader has no more, and has not ended the line.
    Rest,
    /// The line is longer than the longest.
    TooLong,
}

/// Reads on in a line, of which a reader before this one may have given the front.
pub fn read_line_part<R: BufRead>(reader: &mut R, line: &mut Vec<u8>) -> io::Result<LinePart> {
    let limit = (LONGEST_LINE + 1).saturating_sub(line.len()) as u64;
    (&mut *reader).take(limit).read_until(b'\n', line)?;
    if line.last() == Some(&b'\n') {
        line.pop();
        return Ok(LinePart::Whole);
    }
    if line.len() > LONGEST_LINE {
        return Ok(LinePart::TooLong);
    }
    Ok(LinePart::Rest)
}
