//! Values that several parts print.

use cip_types::{ConnId, OutOfMemory, Triad};
use std::alloc::Global;
use std::str;
use trace_words::{push_bytes, push_text};

/// The three numbers that name a connection.
pub fn push_triad(out: &mut String, triad: Triad) -> Result<(), OutOfMemory> {
    let Triad {
        serial,
        vendor,
        originator,
    } = triad;
    Ok(write!(
        out,
        "connection {serial} of vendor {vendor} originator {originator}"
    )?)
}

/// A connection id, as eight hexadecimal digits.
pub fn push_id(out: &mut String, id: ConnId) -> Result<(), OutOfMemory> {
    let ConnId(id) = id;
    Ok(write!(out, "{id:08x}")?)
}

/// A time in microseconds, as milliseconds.
pub fn push_interval(out: &mut String, us: u32) -> Result<(), OutOfMemory> {
    let ms = us / 1000;
    let rest = us % 1000;
    if rest == 0 {
        return Ok(write!(out, "{ms} ms")?);
    }
    Ok(write!(out, "{ms}.{rest:03} ms")?)
}

/// A name in quotes; one with bytes that are no printed ASCII characters, or with quotes, by its bytes.
pub fn push_name(out: &mut String, name: &[u8]) -> Result<(), OutOfMemory> {
    match str::from_utf8(name) {
        Ok(text) if is_plain(name) => Ok(write!(out, "\"{text}\"")?),
        _ => push_bytes(out, name),
    }
}

/// Whether all bytes are printed ASCII characters but the quote.
fn is_plain(name: &[u8]) -> bool {
    name.iter()
        .all(|byte| *byte >= b' ' && *byte <= b'~' && *byte != b'"')
}

/// The number of bytes, and the bytes.
pub fn push_data(alloc: Global, out: &mut String, bytes: &[u8]) -> Result<(), OutOfMemory> {
    if bytes.is_empty() {
        return push_text(out, "no data");
    }
    let len = bytes.len();
    write!(out, "{len} bytes of data ")?;
    push_bytes(out, bytes)
}
