//! Class 1 datagrams in words.

use crate::router::{push_data, push_id};
use cip_datagram::{DatagramFault, read_datagram, read_header};
use cip_types::OutOfMemory;
use std::alloc::Global;
use trace_words::push_text;

/// A datagram, by its fields. One from an originator to a target has a run/idle header, if it has data.
///
/// Volume 2, chapter 2, common packet format; Volume 1, chapter 3, real time formats.
pub fn push_datagram(
    alloc: Global,
    out: &mut String,
    bytes: &[u8],
    to_target: bool,
) -> Result<(), OutOfMemory> {
    let datagram = match read_datagram(bytes) {
        Ok(datagram) => datagram,
        Err(fault) => return push_unread(alloc, out, bytes, fault),
    };
    let direction = if to_target { "O->T" } else { "T->O" };
    write!(out, "{direction} connection id ")?;
    push_id(out, datagram.connection)?;
    let sequence = datagram.sequence;
    let count = datagram.count;
    write!(
        out,
        ", sequence number {sequence}, sequence count {count}, "
    )?;
    if to_target && !datagram.data.is_empty() {
        return push_run_idle(alloc, out, datagram.data);
    }
    push_data(alloc, out, datagram.data)
}

fn push_run_idle(alloc: Global, out: &mut String, data: &[u8]) -> Result<(), OutOfMemory> {
    match read_header(data) {
        Some((true, rest)) => {
            push_text(out, "run mode, ")?;
            push_data(alloc, out, rest)
        }
        Some((false, rest)) => {
            push_text(out, "idle mode, ")?;
            push_data(alloc, out, rest)
        }
        None => {
            push_text(out, "no run/idle header, ")?;
            push_data(alloc, out, data)
        }
    }
}

fn push_unread(
    alloc: Global,
    out: &mut String,
    bytes: &[u8],
    fault: DatagramFault,
) -> Result<(), OutOfMemory> {
    write!(out, "no class 1 datagram, since {fault}: ")?;
    push_data(alloc, out, bytes)
}
