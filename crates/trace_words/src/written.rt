//! Words as they are written.

ghost use Rattle.std.specs.Prelude.{◌≡◌, ◌≤◌, length, ◌++◌, OnOk, string_bytes, flat_map, codes, decimal};
ghost use Rattle.hex.specs.Hex.{encode_lower};
ghost use Rattle.trace_words.specs.Words.{node_word, nodes_word, bytes_word};

use cip_types::{Node, OutOfMemory};
use itoa::Buffer;
use std::str;

/// The number of bytes whose digits are appended at a time.
const PIECE: usize = 64;

pub fn push_text(out: &mut String, text: &str) -> Result<(), OutOfMemory>
    ensures { OnOk result (string_bytes out.new ≡ string_bytes out.old ++ text.now) }
{
    out.push_str(text)?;
    Ok(())
}

/// A number in decimal digits.
pub fn push_number(out: &mut String, number: u64) -> Result<(), OutOfMemory>
    ensures { OnOk result (string_bytes out.new ≡ string_bytes out.old ++ decimal number) }
{
    let mut digits = Buffer::new();
    push_text(out, digits.format(number))
}

/// Bytes as lower-case hexadecimal digits; `-` for no bytes.
pub fn push_bytes(out: &mut String, bytes: &[u8]) -> Result<(), OutOfMemory>
    ensures { OnOk result (string_bytes out.new ≡ string_bytes out.old ++ bytes_word bytes.now) }
{
    if bytes.is_empty() {
        return push_text(out, "-");
    }
    push_digits(out, bytes)
}

/// Bytes as lower-case hexadecimal digits.
pub fn push_digits(out: &mut String, bytes: &[u8]) -> Result<(), OutOfMemory>
    ensures { OnOk result (string_bytes out.new ≡ string_bytes out.old ++ encode_lower bytes.now) }
{
    let mut rest = bytes;
    while !rest.is_empty() {
        let (piece, after) = rest.split_at(rest.len().min(PIECE));
        push_piece(out, piece)?;
        rest = after;
    }
    Ok(())
}

/// At most `PIECE` bytes as digits.
fn push_piece(out: &mut String, piece: &[u8]) -> Result<(), OutOfMemory>
    requires { length piece.now ≤ 64 }
    ensures { OnOk result (string_bytes out.new ≡ string_bytes out.old ++ encode_lower piece.now) }
{
    let mut room = [0; 2 * PIECE];
    let digits = &mut room[..2 * piece.len()];
    hex::encode_to_slice(piece, digits).unwrap();
    push_text(out, unsafe { str::from_utf8_unchecked(digits) })
}

/// A space, bytes, and the end of the line.
pub fn push_last_bytes(out: &mut String, bytes: &[u8]) -> Result<(), OutOfMemory>
    ensures { OnOk result
        (string_bytes out.new ≡ string_bytes out.old ++ (codes " " ++ (bytes_word bytes.now ++ codes "\n"))) }
{
    out.push_str(" ")?;
    push_bytes(out, bytes)?;
    push_text(out, "\n")
}

/// Addresses separated by commas; `-` for none.
pub fn push_nodes(out: &mut String, nodes: &[Node]) -> Result<(), OutOfMemory>
    ensures { OnOk result (string_bytes out.new ≡ string_bytes out.old ++ nodes_word nodes.now) }
{
    let [first, others @ ..] = nodes else {
        return push_text(out, "-");
    };
    push_node(out, *first)?;
    push_others(out, others)
}

fn push_others(out: &mut String, nodes: &[Node]) -> Result<(), OutOfMemory>
    ensures { OnOk result
        (string_bytes out.new ≡ string_bytes out.old ++ flat_map (λ other. codes "," ++ node_word other) nodes.now) }
{
    for node in nodes {
        out.push_str(",")?;
        push_node(out, *node)?;
    }
    Ok(())
}

/// An address as four numbers separated by dots.
pub fn push_node(out: &mut String, node: Node) -> Result<(), OutOfMemory>
    ensures { OnOk result (string_bytes out.new ≡ string_bytes out.old ++ node_word node) }
{
    let [a, b, c, d] = node.0.to_be_bytes();
    push_octet(out, a)?;
    push_octet(out, b)?;
    push_octet(out, c)?;
    push_number(out, u64::from(d))
}

fn push_octet(out: &mut String, octet: u8) -> Result<(), OutOfMemory>
    ensures { OnOk result (string_bytes out.new ≡ string_bytes out.old ++ (decimal octet ++ codes ".")) }
{
    push_number(out, u64::from(octet))?;
    push_text(out, ".")
}
