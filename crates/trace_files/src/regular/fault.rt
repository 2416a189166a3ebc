//! Why a file is not read.

ghost use Rattle.std.specs.Prelude.{◌≡◌};
ghost use Rattle.trace_files.specs.Regular.Faults.{fault_of, is_too_long};

use std::io::ErrorKind;
use thiserror::Error;

/// Why a file is not read.
#[derive(Clone, Copy, Debug, PartialEq, Eq, Error)]
pub enum FileFault {
    /// There is no such file.
    #[error("cannot be read")]
    Missing,
    /// The system does not read it.
    #[error("cannot be read")]
    Unread,
    /// It is a folder, a pipe or a device.
    #[error("is no regular file")]
    Special,
    /// It has more bytes than are read.
    #[error("is longer than {0} bytes")]
    TooLong(u64),
    /// An allocation was refused.
    #[error("no memory")]
    OutOfMemory,
}

/// Why a file is not read, by the kind of the system's error.
pub(crate) fn fault_of(kind: ErrorKind) -> FileFault
    ensures { result ≡ fault_of kind }
{
    match kind {
        ErrorKind::NotFound => FileFault::Missing,
        ErrorKind::OutOfMemory => FileFault::OutOfMemory,
        _ => FileFault::Unread,
    }
}

/// Whether so many bytes are more than are read.
pub(crate) fn is_too_long(len: u64, most: u64) -> bool
    ensures { result ≡ is_too_long len most }
{
    len > most
}
