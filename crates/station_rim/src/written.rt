//! How texts are written to a stream: together, as far as they fit, and each of them whole.

ghost use Rattle.std.specs.Prelude.{◌≡◌, OnOk};
ghost use Rattle.std.specs.Io.KnownBytes.{Appends, WriteAppends};
ghost use Rattle.std.specs.Io.{WritesAtMost};
ghost use Rattle.station_rim.specs.Written.{gathers, joins};

use std::io::{self, ErrorKind, Write};
use std::rt::Clock;
use std::thread;
use std::time::Duration;

/// Whether a text of so many bytes is written behind those that are gathered, in a batch of at most so many bytes. A longer one is
/// written by itself.
pub(crate) fn joins(most: usize, gathered: usize, len: usize) -> bool
    ensures { result ≡ joins most gathered len }
{
    gathered <= most && len <= most - gathered
}

/// Whether more is gathered before a batch of at most so many bytes is written: more waits, it would be written behind these, and
/// there is room.
pub(crate) fn gathers(most: usize, is_joined: bool, is_last: bool, gathered: usize) -> bool
    ensures { result ≡ gathers most is_joined is_last gathered }
{
    is_joined && !is_last && gathered < most
}

/// Writes a text whole, and hands it on.
///
/// The fault: the stream has failed, and has a beginning of the text.
pub(crate) fn write_whole<R: Clock, W: Write>(rt: &R, out: &mut W, text: &[u8]) -> io::Result<()>
    ensures { OnOk result (Appends (W.contents out.old) (W.contents out.new) text.now) }
{
    let mut rest = text;
    for _ in 0..u64::MAX {
        if rest.is_empty() {
            return out.flush();
        }
        let count = write_some(rt, out, rest)?;
        rest = &rest[count..];
    }
    Err(io::Error::from(ErrorKind::WriteZero))
}

/// Writes what a stream takes of a text, and answers how many bytes it took. It takes none if a signal interrupts the call, or if
/// another program has made the stream non-blocking and it has no room: then a millisecond passes.
///
/// The fault: the stream has failed.
#[tactic(auto, using(crate::proofs::Appended::nothing_is_appended, crate::proofs::Appended::nothing_was_appended))]
fn write_some<R: Clock, W: Write>(rt: &R, out: &mut W, text: &[u8]) -> io::Result<usize>
    ensures bound { WritesAtMost result text.now }
    ensures bytes { WriteAppends (W.contents out.old) (W.contents out.new) result text.now }
{
    match out.write(text) {
        Ok(0) => Err(io::Error::from(ErrorKind::WriteZero)),
        Ok(count) => Ok(count),
        Err(error) => match error.kind() {
            ErrorKind::Interrupted => Ok(0),
            ErrorKind::WouldBlock => {
                thread::sleep(rt, Duration::from_millis(1));
                Ok(0)
            }
            _ => Err(error),
        },
    }
}
