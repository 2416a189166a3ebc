//! The files of a record, which its writer begins one after another.

use crate::kept_files::fresh::{fresh_file, is_special};
use crate::{Placed, RecordFiles, file_name};
use cip_types::OutOfMemory;
use std::alloc::Global;
use std::fs::{self, File};
use std::io::{self, ErrorKind, Write};
use std::rt::Files;

/// Where a record is: its first file's name, and that file if it is open already.
#[derive(Drop)]
pub struct RecordPlace {
    pub path: String,
    pub file: Option<File>,
}

/// A record in its present file.
#[derive(Drop)]
pub struct RecordFile {
    alloc: Global,
    path: String,
    files: RecordFiles,
    file: File,
    /// The bytes of the whole pieces in the present file.
    whole: u64,
}

impl RecordFile {
    /// Begins a record at a place.
    pub fn begin<R: Files<File = File>>(
        rt: &R,
        alloc: Global,
        place: RecordPlace,
    ) -> io::Result<RecordFile> {
        let RecordPlace { path, file } = place;
        let file = match file {
            Some(file) => file,
            None => fresh_file(rt, path.as_str())?,
        };
        Ok(RecordFile {
            alloc,
            path,
            files: RecordFiles::begin(),
            file,
            whole: 0,
        })
    }

    /// Writes a piece whole, at the front of the next file if the present one is full. After a failure the present file has
    /// whole pieces, as far as the system allows.
    pub fn write<R: Files<File = File>>(&mut self, rt: &R, piece: &[u8]) -> io::Result<()> {
        if let Placed::Next(number) = self.files.place(piece.len()) {
            self.follow(rt, number)?;
        }
        self.append(piece)
    }

    /// Begins the next file with a comment that names the one before.
    fn follow<R: Files<File = File>>(&mut self, rt: &R, number: u32) -> io::Result<()> {
        let before = named(file_name(self.alloc, self.path.as_str(), number.saturating_sub(1)))?;
        let next = named(file_name(self.alloc, self.path.as_str(), number))?;
        self.file = fresh_file(rt, next.as_str())?;
        self.whole = 0;
        let comment = match format!(in self.alloc; "# continues {before}\n") {
            Ok(comment) => comment,
            Err(_) => return Err(io::Error::from(ErrorKind::OutOfMemory)),
        };
        self.files.grow(comment.len());
        self.append(comment.as_bytes())
    }

    /// Writes a piece behind the others of the present file.
    fn append(&mut self, piece: &[u8]) -> io::Result<()> {
        match self.file.write_all(piece) {
            Ok(()) => {
                self.whole = self.whole.saturating_add(piece.len() as u64);
                Ok(())
            }
            Err(error) => {
                // (a file that is no regular one keeps what it took)
                let _ = self.file.set_len(self.whole);
                Err(error)
            }
        }
    }
}

/// The name of a file, or the error where there is no memory for it.
fn named(name: Result<String, OutOfMemory>) -> io::Result<String> {
    match name {
        Ok(name) => Ok(name),
        Err(OutOfMemory) => Err(io::Error::from(ErrorKind::OutOfMemory)),
    }
}

/// The place of a record. A regular file is begun here, so that a record that cannot be made is known before the station
/// runs, and the files that followed an earlier record of this name are removed. A pipe or a device, whose opening may wait,
/// is opened by the record's writer.
pub fn place_of_record<R: Files<File = File>>(
    rt: &R,
    alloc: Global,
    path: String,
) -> io::Result<RecordPlace> {
    if is_special(rt, path.as_str()) {
        return Ok(RecordPlace { path, file: None });
    }
    let file = fresh_file(rt, path.as_str())?;
    remove_followers(rt, alloc, path.as_str())?;
    Ok(RecordPlace {
        path,
        file: Some(file),
    })
}

/// Removes an earlier record of this name, with the files that followed it. Ok(false) if there is none.
pub fn forget_record<R: Files<File = File>>(rt: &R, alloc: Global, path: &str) -> io::Result<bool> {
    match fs::remove_file(rt, path) {
        Ok(()) => {
            remove_followers(rt, alloc, path)?;
            Ok(true)
        }
        Err(error) if error.kind() == ErrorKind::NotFound => Ok(false),
        Err(error) => Err(error),
    }
}

/// Removes the files that followed an earlier record of this name, so that none of them is taken for one of the new record.
fn remove_followers<R: Files<File = File>>(rt: &R, alloc: Global, path: &str) -> io::Result<()> {
    for number in 2..u32::MAX {
        let follower = named(file_name(alloc, path, number))?;
        match fs::remove_file(rt, follower.as_str()) {
            Ok(()) => {}
            Err(error) if error.kind() == ErrorKind::NotFound => break,
            Err(error) => return Err(error),
        }
    }
    Ok(())
}
