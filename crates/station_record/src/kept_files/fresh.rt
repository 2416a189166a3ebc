//! Files that are begun, and what is not begun.

use std::fs::{self, File, OpenFile, OpenOptions};
use std::io::{self, ErrorKind};
use std::os::unix::fs::MetadataExt;
use std::rt::Files;

/// Whether a path names something that is neither a regular file nor a link.
pub(crate) fn is_special<R: Files<File = File>>(rt: &R, path: &str) -> bool {
    match fs::symlink_metadata(rt, path) {
        Ok(found) => !found.is_file() && !found.is_symlink() && !found.is_dir(),
        Err(_) => false,
    }
}

/// A file of this name that is new or empty. What is at the end of a symbolic link is never opened to stay, and never
/// changed.
pub(crate) fn fresh_file<R: Files<File = File>>(rt: &R, path: &str) -> io::Result<File> {
    let found = match fs::symlink_metadata(rt, path) {
        Ok(found) => found,
        // (a name that another program takes meanwhile is refused)
        Err(_) => return File::create_new(rt, path),
    };
    if found.is_symlink() {
        return Err(io::Error::from(ErrorKind::AlreadyExists));
    }
    let file = OpenOptions::new().write(true).open(rt, path)?;
    let opened = file.metadata()?;
    if opened.dev() != found.dev() || opened.ino() != found.ino() {
        return Err(io::Error::from(ErrorKind::AlreadyExists));
    }
    if opened.is_file() {
        file.set_len(0)?;
    }
    Ok(file)
}
