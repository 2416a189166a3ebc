//! What the program writes.

ghost use Rattle.std.specs.Prelude.{◌++◌, codes, decimal};
ghost use Rattle.std.specs.Io.KnownBytes.{Keeps};
ghost use Rattle.trace_stepper.specs.Written.{IsTaken};
ghost use Rattle.eip_line.specs.Versioned.{IsVersioned, version_line};

use crate::faults::ProgramFault;
use command_lines::VERSION;
use itoa::Buffer;
use std::io::Write;
use trace_stepper::{NotTaken, write_text};

/// Writes a line of a word and a number. Takes no memory.
pub(crate) fn write_numbered<W: Write>(
    out: &mut W,
    word: &[u8],
    number: u64,
) -> Result<(), NotTaken>
    ensures { IsTaken (W.contents out.old) (word.now ++ (decimal number ++ codes "\n")) result (W.contents out.new) }
{
    let mut digits = Buffer::new();
    write_text(out, word)?;
    write_text(out, digits.format(number).as_bytes())?;
    write_text(out, b"\n")
}

/// Flushes the output.
pub(crate) fn flush<O: Write>(out: &mut O) -> Result<(), NotTaken>
    ensures { Keeps (O.contents out.old) (O.contents out.new) }
{
    out.flush().map_err(|_| NotTaken)
}

/// Writes the line of the program's name and version. Takes no memory.
fn write_version<W: Write>(out: &mut W) -> Result<(), NotTaken>
    ensures { IsTaken (W.contents out.old) version_line result (W.contents out.new) }
{
    write_text(out, b"eip_line ")?;
    write_text(out, VERSION.as_bytes())?;
    write_text(out, b"\n")
}

/// Prints the program's name and version.
pub(crate) fn print_version<O: Write>(out: &mut O) -> Result<bool, ProgramFault>
    ensures { IsVersioned (O.contents out.old) result (O.contents out.new) }
{
    write_version(out)?;
    flush(out)?;
    Ok(true)
}
