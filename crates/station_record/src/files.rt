//! The files of a record: a full one is followed by the next.

ghost use Rattle.std.specs.Prelude.{◌≡◌, ◌≤◌, ◌-◌, IfOk, string_bytes};
ghost use Rattle.station_record.specs.Files.{file_name_text, first_file, grown, longest_file, placed};

use cip_types::OutOfMemory;
use cip_types::limits::LONGEST_TRACE;
use std::alloc::Global;

/// In which file a piece of a record goes.
#[derive(Clone, Copy, Debug, PartialEq, Eq)]
pub enum Placed {
    /// In the present one, behind what it has.
    Same,
    /// In the file of this number, which begins with it.
    Next(u32),
}

/// The present file of a record: its number, from 1, and how many bytes it has.
///
/// A file has at most `LONGEST_TRACE` bytes, if no piece has more. A longer piece has a file of its own.
#[derive(Clone, Copy, Debug, PartialEq, Eq)]
pub struct RecordFiles {
    number: u32,
    bytes: usize,
}

impl RecordFiles {
    /// The first file, which is empty.
    pub fn begin() -> RecordFiles
        ensures { result ≡ first_file }
    {
        RecordFiles {
            number: 1,
            bytes: 0,
        }
    }

    /// Finds the place of a piece of so many bytes: behind the pieces of the present file, if that is empty or has room
    /// for it. Otherwise the piece begins the next file, which then is the present one.
    pub fn place(&mut self, len: usize) -> Placed
        ensures placed { (result, self.new) ≡ placed self.old len }
        ensures short { len ≤ longest_file → self.old.bytes ≤ longest_file → self.new.bytes ≤ longest_file }
    {
        let bytes = self.bytes.saturating_add(len);
        if self.bytes == 0 || bytes <= LONGEST_TRACE {
            self.bytes = bytes;
            return Placed::Same;
        }
        self.number = self.number.saturating_add(1);
        self.bytes = len;
        Placed::Next(self.number)
    }

    /// Counts bytes that the present file has beside its pieces, as a comment at its front.
    pub fn grow(&mut self, len: usize)
        ensures { self.new ≡ grown self.old len }
    {
        self.bytes = self.bytes.saturating_add(len);
    }
}

/// The name of a record's file of this number: the name of the first one, and behind it a dot and the number from 2 on.
pub fn file_name(alloc: Global, name: &str, number: u32) -> Result<String, OutOfMemory>
    ensures { IfOk result (λ text. string_bytes text ≡ file_name_text name.now number) }
{
    if number <= 1 {
        return Ok(format!(in alloc; "{name}")?);
    }
    Ok(format!(in alloc; "{name}.{number}")?)
}
