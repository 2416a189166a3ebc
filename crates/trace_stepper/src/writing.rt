//! Texts on streams that can fail.

ghost use Rattle.trace_stepper.specs.Written.{IsTaken};

use std::io::{ErrorKind, Write};
use thiserror::Error;

/// The stream did not take all of a text.
#[derive(Clone, Copy, Debug, PartialEq, Eq, Error)]
#[error("fault Write")]
pub struct NotTaken;

/// Writes a text and nothing else. Where the stream fails, a beginning of the text is written, as far as the
/// stream took it.
pub fn write_text<W: Write>(out: &mut W, text: &[u8]) -> Result<(), NotTaken>
    ensures { IsTaken (W.contents out.old) text.now result (W.contents out.new) }
{
    let mut rest = text;
    for _ in 0..u64::MAX {
        if rest.is_empty() {
            return Ok(());
        }
        match out.write(rest) {
            Ok(0) => return Err(NotTaken),
            Ok(count) => rest = &rest[count..],
            Err(error) if error.kind() == ErrorKind::Interrupted => {}
            Err(_) => return Err(NotTaken),
        }
    }
    Err(NotTaken)
}
