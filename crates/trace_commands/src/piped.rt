//! The output of a command that writes a text, and whether somebody still reads it.

ghost use Rattle.std.specs.Prelude.{◌≡◌};
ghost use Rattle.trace_commands.specs.Unread.{is_unread_pipe};

use std::io::{self, ErrorKind, Write};

/// An output that notes when nobody reads it any more.
#[derive(Drop)]
pub struct PipedOutput<O: Write + Drop> {
    out: O,
    is_unread: bool,
}

impl<O: Write + Drop> PipedOutput<O> {
    /// An output that is read.
    pub fn new(out: O) -> PipedOutput<O> {
        PipedOutput {
            out,
            is_unread: false,
        }
    }

    /// Whether it is a pipe that nobody reads any more: who reads no further wants no message.
    pub fn is_unread(&self) -> bool {
        self.is_unread
    }

    /// Notes the outcome of a call.
    fn note<T: Drop>(&mut self, outcome: io::Result<T>) -> io::Result<T>
        ensures { result ≡ outcome }
    {
        if matches!(&outcome, Err(error) if is_unread_pipe(error.kind())) {
            self.is_unread = true;
        }
        outcome
    }
}

impl<O: Write + Drop> Write for PipedOutput<O> {
    fn write(&mut self, bytes: &[u8]) -> io::Result<usize> {
        let outcome = self.out.write(bytes);
        self.note(outcome)
    }

    fn flush(&mut self) -> io::Result<()> {
        let outcome = self.out.flush();
        self.note(outcome)
    }
}

/// Whether an error says that nobody reads a pipe any more.
fn is_unread_pipe(kind: ErrorKind) -> bool
    ensures { result ≡ is_unread_pipe kind }
{
    matches!(kind, ErrorKind::BrokenPipe)
}
