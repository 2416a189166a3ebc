//! A regular file is opened, or read whole.

use crate::regular::fault::{FileFault, fault_of, is_too_long};
use std::fs::{self, File, OpenFile};
use std::io::Read;
use std::rt::Files;

/// Opens a regular file, or one at the end of symbolic links. What is none is not opened, since the opening of a pipe may
/// wait for ever.
///
/// The faults: `Missing`, `Special`, `Unread`, and `OutOfMemory` if the system has none.
pub fn open_regular<R: Files>(rt: &R, path: &str) -> Result<R::File, FileFault> {
    match fs::metadata(rt, path) {
        Ok(found) if found.is_file() => {}
        Ok(_) => return Err(FileFault::Special),
        Err(error) => return Err(fault_of(error.kind())),
    }
    match File::open(rt, path) {
        Ok(file) => Ok(file),
        Err(error) => Err(fault_of(error.kind())),
    }
}

/// The bytes of a regular file of at most so many. No byte behind them is read, and none at all if the file is known to be
/// longer.
///
/// The faults: those of `open_regular`, then `TooLong`; `OutOfMemory` wherever an allocation was refused.
pub fn read_regular<R>(rt: &R, path: &str, most: u64) -> Result<Vec<u8>, FileFault>
where
    R: AllocGlobal + Files,
{
    let mut file = open_regular(rt, path)?;
    if matches!(file.metadata(), Ok(found) if is_too_long(found.len(), most)) {
        return Err(FileFault::TooLong(most));
    }
    let mut bytes = Vec::new(rt.alloc());
    match (&mut file)
        .take(most.saturating_add(1))
        .read_to_end(&mut bytes)
    {
        Ok(_) if is_too_long(bytes.len() as u64, most) => Err(FileFault::TooLong(most)),
        Ok(_) => Ok(bytes),
        Err(error) => Err(fault_of(error.kind())),
    }
}
