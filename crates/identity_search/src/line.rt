//! The line of an answer.

ghost use Rattle.std.specs.Prelude.{◌≡◌, ◌++◌, IfOk, OnOk, map, string_bytes};
ghost use Rattle.identity_search.specs.Reading.Items.{view_found};
ghost use Rattle.identity_search.specs.Lines.{device_words, identity_line, line_words, number_words, shown_byte, state_words};

use crate::reading::FoundIdentity;
use cip_types::fields::put_bytes;
use cip_types::{Identity, Node, OutOfMemory};
use std::alloc::Global;
use trace_words::{push_digits, push_node, push_text};

/// The line of an answer from this address: the address, vendor, device type, product, revision, status word, serial number
/// and state, and the name, of which each byte that is no printable character of ASCII is a question mark. `OutOfMemory` is
/// the only fault.
pub fn identity_line(
    alloc: Global,
    from: Node,
    found: &FoundIdentity<'_>,
) -> Result<Vec<u8>, OutOfMemory>
    ensures { IfOk result (λ v. v.items ≡ identity_line from (view_found found.now)) }
{
    let words = words_of(alloc, from, found)?;
    let mut line = Vec::from_slice(alloc, words.as_bytes())?;
    put_name(&mut line, found.name)?;
    put_bytes(&mut line, b"\n")?;
    Ok(line)
}

/// The line up to the name.
fn words_of(alloc: Global, from: Node, found: &FoundIdentity<'_>) -> Result<String, OutOfMemory>
    ensures { IfOk result (λ text. string_bytes text ≡ line_words from (view_found found.now)) }
{
    let mut out = String::new(alloc);
    push_node(&mut out, from)?;
    push_device(&mut out, found.device)?;
    push_state(&mut out, found)?;
    Ok(out)
}

/// Appends vendor, device type, product and revision.
#[tactic(auto, unfolding(crate::specs::Lines::device_words))]
fn push_device(out: &mut String, device: Identity) -> Result<(), OutOfMemory>
    ensures { OnOk result (string_bytes out.new ≡ string_bytes out.old ++ device_words device) }
{
    let (vendor, device_type, product) = (device.vendor, device.device_type, device.product);
    let (major, minor) = (device.major, device.minor);
    Ok(write!(
        out,
        " vendor {vendor} type {device_type} product {product} revision {major}.{minor}"
    )?)
}

/// Appends status word, serial number and state, and the word before the name.
#[tactic(auto, unfolding(crate::specs::Lines::state_words))]
fn push_state(out: &mut String, found: &FoundIdentity<'_>) -> Result<(), OutOfMemory>
    ensures { OnOk result (string_bytes out.new ≡ string_bytes out.old
        ++ state_words found.now.status found.now.serial found.now.state) }
{
    push_text(out, " status ")?;
    push_digits(out, &found.status.to_be_bytes())?;
    push_numbers(out, found.serial, found.state)
}

/// Appends serial number and state, and the word before the name.
fn push_numbers(out: &mut String, serial: u32, state: u8) -> Result<(), OutOfMemory>
    ensures { OnOk result (string_bytes out.new ≡ string_bytes out.old ++ number_words serial state) }
{
    Ok(write!(out, " serial {serial} state {state} name ")?)
}

/// Appends a name.
fn put_name(out: &mut Vec<u8>, name: &[u8]) -> Result<(), OutOfMemory>
    ensures { OnOk result (out.new.items ≡ out.old.items ++ map shown_byte name.now) }
{
    for byte in name {
        out.push(shown_byte(*byte))?;
    }
    Ok(())
}

/// A byte of a name, or a question mark for one that is no printable character of ASCII.
fn shown_byte(byte: u8) -> u8
    ensures { result ≡ shown_byte byte }
{
    if byte >= b' ' && byte <= b'~' {
        byte
    } else {
        b'?'
    }
}
