//! The lines of a plant's standard input. Here a text becomes the step of a device.

ghost use Rattle.std.specs.Prelude.{◌≡◌, ◌<◌, length, position, slice_index_or, IfOk, IfSome};
ghost use Rattle.station_lines.specs.Calls.{is_numbers, is_skipped, is_status};
ghost use Rattle.plant_rim.specs.Typed.{for_device, is_space, typed_of};

use crate::file::read_typed_call;
use cip_types::OutOfMemory;
use station::StationStep;
use std::alloc::Global;

/// What a line of the input is.
#[derive(PartialEq, Drop)]
pub enum TypedLine {
    /// An empty line, or a comment.
    Skipped,
    /// The call for the state of all devices.
    Status,
    /// The call for what was counted of the connections of all devices.
    Numbers,
    /// A step of the device whose name has so many bytes; a space is behind the name, and the text of the step behind that.
    For { name_end: usize, step: StationStep },
    /// Anything else.
    NoCall,
}

/// What a line of the input is, which has no LF at its end. The only fault is a refused allocation.
pub fn read_typed(alloc: Global, line: &[u8]) -> Result<TypedLine, OutOfMemory>
    ensures { IfOk result (λ said. said ≡ typed_of line.now) }
{
    if is_skipped(line) {
        return Ok(TypedLine::Skipped);
    }
    if is_status(line) {
        return Ok(TypedLine::Status);
    }
    if is_numbers(line) {
        return Ok(TypedLine::Numbers);
    }
    for_device(alloc, line, name_end(line))
}

/// What a line is whose name ends at this place.
fn for_device(alloc: Global, line: &[u8], end: Option<usize>) -> Result<TypedLine, OutOfMemory>
    requires { IfSome end (λ place. place < length line.now) }
    ensures { IfOk result (λ said. said ≡ for_device line.now end) }
{
    let Some(name_end) = end else {
        return Ok(TypedLine::NoCall);
    };
    match read_typed_call(alloc, &line[name_end + 1..])? {
        Some(step) => Ok(TypedLine::For { name_end, step }),
        None => Ok(TypedLine::NoCall),
    }
}

/// The place of the first space.
fn name_end(line: &[u8]) -> Option<usize>
    ensures first { result ≡ position is_space line.now }
    ensures inside { IfSome result (λ end. end < length line.now) }
{
    line.iter().position(|byte| *byte == b' ')
}

/// Whether a line is empty or a comment.
fn is_skipped(line: &[u8]) -> bool
    ensures { result ≡ is_skipped line.now }
{
    first_or_mark(line) == b'#'
}

/// The first byte of a line; that of a comment if it has none.
fn first_or_mark(line: &[u8]) -> u8
    ensures { result ≡ slice_index_or line.now 0 35 }
{
    match line.get(0) {
        Some(first) => *first,
        None => b'#',
    }
}

/// Whether a line is the word `status` alone.
fn is_status(line: &[u8]) -> bool
    ensures { result ≡ is_status line.now }
{
    line == b"status".as_slice()
}

/// Whether a line is the words `status --csv` alone.
fn is_numbers(line: &[u8]) -> bool
    ensures { result ≡ is_numbers line.now }
{
    line == b"status --csv".as_slice()
}
