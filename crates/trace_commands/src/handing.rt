//! The lines of files, which are read as one text, one behind another.

use crate::fault::{TracesFault, broken, unread};
use std::fs::File;
use std::io::BufReader;
use std::rt::Files;
use trace_files::{LinePart, open_regular, read_line_part};

/// Takes the lines of files.
pub(crate) trait LineTaker {
    /// Takes a whole line, without its LF.
    fn take_line(&mut self, line: &[u8]) -> Result<(), TracesFault>;
}

/// Hands out the lines of the files, one behind another. Answers the bytes behind the last LF; or the front of a line that
/// is too long, which is bad as well.
pub(crate) fn hand_out<R, T>(
    rt: &R,
    files: &[String],
    taker: &mut T,
) -> Result<Vec<u8>, TracesFault>
where
    R: AllocGlobal + Files<File = File>,
    T: LineTaker,
{
    let mut line = Vec::new(rt.alloc());
    for (place, path) in files.iter().enumerate() {
        let file = match open_regular(rt, path.as_str()) {
            Ok(file) => file,
            Err(fault) => return Err(unread(place, fault)),
        };
        let Ok(mut reader) = BufReader::new(rt.alloc(), file) else {
            return Err(TracesFault::OutOfMemory);
        };
        if hand_out_file(&mut reader, place, &mut line, taker)? == LinePart::TooLong {
            return Ok(line);
        }
    }
    Ok(line)
}

/// Hands out the lines of a file, the first of them behind the bytes that the file before has left. Answers how it ended.
fn hand_out_file<T: LineTaker>(
    reader: &mut BufReader<File>,
    place: usize,
    line: &mut Vec<u8>,
    taker: &mut T,
) -> Result<LinePart, TracesFault> {
    for _ in 0..u64::MAX {
        match read_line_part(reader, line) {
            Ok(LinePart::Whole) => {
                taker.take_line(line.as_slice())?;
                line.clear();
            }
            Ok(other) => return Ok(other),
            Err(error) => return Err(broken(place, error.kind())),
        }
    }
    Ok(LinePart::Rest)
}
