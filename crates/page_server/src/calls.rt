//! The calls that a page hands on.

ghost use Rattle.std.specs.Prelude.{◌≡◌, ◌<◌, length, option_map, position, IfOk, IfSome};
ghost use Rattle.station_lines.specs.Calls.{call_of};
ghost use Rattle.page_server.specs.Calls.{behind_name, call_line, has_line_break, is_line_break, is_page_call, is_space, own_call, writes};

use cip_events::Event;
use cip_types::OutOfMemory;
use station_lines::read_call;
use std::alloc::Global;
use trace_text::TextFault;

/// The line of the input for a call of a page: the call as it is, behind the name of a device if the page is a plant's, with an LF.
/// None for what is no call of a page, and for what would be several lines. The only fault is a refused allocation.
pub(crate) fn call_line(
    alloc: Global,
    is_plant: bool,
    call: &[u8],
) -> Result<Option<Vec<u8>>, OutOfMemory>
    ensures { IfOk result (λ line. option_map (λ l. l.items) line ≡ call_line is_plant call.now) }
{
    if has_line_break(call) || !is_page_call(alloc, own_call(is_plant, call))? {
        return Ok(None);
    }
    let mut line = Vec::from_slice(alloc, call)?;
    line.extend_from_slice(b"\n")?;
    Ok(Some(line))
}

/// What a call says to its device: the part behind the name, if the page is a plant's.
fn own_call(is_plant: bool, call: &[u8]) -> &[u8]
    ensures { result.now ≡ own_call is_plant call.now }
{
    if is_plant { behind_name(call) } else { call }
}

/// Whether a line is a call that a page hands on: `write`, `mode`, `start` or `stop`. The only fault is a refused allocation.
fn is_page_call(alloc: Global, line: &[u8]) -> Result<bool, OutOfMemory>
    ensures { IfOk result (λ is. is ≡ is_page_call (call_of line.now)) }
{
    match read_call(alloc, line) {
        Ok(event) => Ok(writes(&event)),
        Err(TextFault::Bad) => Ok(false),
        Err(TextFault::OutOfMemory) => Err(OutOfMemory),
    }
}

/// Whether a call has a line break, and so would be several lines of the input.
fn has_line_break(call: &[u8]) -> bool
    ensures { result ≡ has_line_break call.now }
{
    call.iter().any(|byte| is_line_break(*byte))
}

/// Whether a byte is LF or CR.
fn is_line_break(byte: u8) -> bool
    ensures { result ≡ is_line_break byte }
{
    byte == b'\n' || byte == b'\r'
}

/// A call at a device without the name in front, which ends with the first space; nothing if there is no space.
fn behind_name(line: &[u8]) -> &[u8]
    ensures { result.now ≡ behind_name line.now }
{
    match name_end(line) {
        Some(end) => &line[end + 1..],
        None => &[],
    }
}

/// The place of the first space.
fn name_end(line: &[u8]) -> Option<usize>
    ensures first { result ≡ position is_space line.now }
    ensures inside { IfSome result (λ end. end < length line.now) }
{
    line.iter().position(|byte| *byte == b' ')
}

/// Whether an event is a call that changes a device.
fn writes(event: &Event) -> bool
    ensures { result ≡ writes event.now }
{
    match event {
        Event::Write { point: _, bytes: _ } => true,
        Event::Mode { run: _ } => true,
        Event::Start { slot: _ } => true,
        Event::Stop { slot: _ } => true,
        _ => false,
    }
}
