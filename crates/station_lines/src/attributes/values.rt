//! The values of attributes as they are printed.

ghost use Rattle.std.specs.Prelude.{◌≡◌, ◌+◌, ◌≤◌, ◌++◌, OnOk, codes, flat_map, length, string_bytes, [], ◌∷◌};
ghost use Rattle.station_lines.specs.Attributes.Values.{address_text, addresses_text, dword_text, interface_text, pairs_text, physical_text, quoted_text, revision_text, udint_text, uint_text, usint_text, value_text, word_text};
ghost use Rattle.hex.specs.Hex.{encode_lower};

use crate::attributes::kind::AttributeType;
use crate::attributes::texts::{
    counted_text, push_quoted, push_raw, push_short_string, push_string,
};
use cip_types::fields::u32_in;
use cip_types::{Node, OutOfMemory};
use trace_words::{push_digits, push_node, push_number, push_text};

/// Appends bytes as a value of this type; those that have not its form as they are.
#[tactic(auto, unfolding(crate::specs::Attributes::Values::value_text))]
pub fn push_value(out: &mut String, kind: AttributeType, bytes: &[u8]) -> Result<(), OutOfMemory>
    ensures { OnOk result (string_bytes out.new ≡ string_bytes out.old ++ value_text kind bytes.now) }
{
    match kind {
        AttributeType::Usint => push_usint(out, bytes),
        AttributeType::Uint => push_uint(out, bytes),
        AttributeType::Udint => push_udint(out, bytes),
        AttributeType::Word => push_word(out, bytes),
        AttributeType::Dword => push_dword(out, bytes),
        AttributeType::Revision => push_revision(out, bytes),
        AttributeType::ShortString => push_short_string(out, bytes),
        AttributeType::CountedString => push_string(out, bytes),
        AttributeType::Interface => push_interface(out, bytes),
        AttributeType::PhysicalAddress => push_physical(out, bytes),
        AttributeType::Raw => push_raw(out, bytes),
    }
}

fn push_usint(out: &mut String, bytes: &[u8]) -> Result<(), OutOfMemory>
    ensures { OnOk result (string_bytes out.new ≡ string_bytes out.old ++ usint_text bytes.now) }
{
    let [number] = bytes else {
        return push_raw(out, bytes);
    };
    push_number(out, u64::from(*number))
}

fn push_uint(out: &mut String, bytes: &[u8]) -> Result<(), OutOfMemory>
    ensures { OnOk result (string_bytes out.new ≡ string_bytes out.old ++ uint_text bytes.now) }
{
    let [low, high] = bytes else {
        return push_raw(out, bytes);
    };
    push_number(out, u64::from(u16::from_le_bytes([*low, *high])))
}

fn push_udint(out: &mut String, bytes: &[u8]) -> Result<(), OutOfMemory>
    ensures { OnOk result (string_bytes out.new ≡ string_bytes out.old ++ udint_text bytes.now) }
{
    let [a, b, c, d] = bytes else {
        return push_raw(out, bytes);
    };
    push_number(out, u64::from(u32::from_le_bytes([*a, *b, *c, *d])))
}

fn push_word(out: &mut String, bytes: &[u8]) -> Result<(), OutOfMemory>
    ensures { OnOk result (string_bytes out.new ≡ string_bytes out.old ++ word_text bytes.now) }
{
    let [low, high] = bytes else {
        return push_raw(out, bytes);
    };
    push_digits(out, &u16::from_le_bytes([*low, *high]).to_be_bytes())
}

fn push_dword(out: &mut String, bytes: &[u8]) -> Result<(), OutOfMemory>
    ensures { OnOk result (string_bytes out.new ≡ string_bytes out.old ++ dword_text bytes.now) }
{
    let [a, b, c, d] = bytes else {
        return push_raw(out, bytes);
    };
    push_digits(out, &u32::from_le_bytes([*a, *b, *c, *d]).to_be_bytes())
}

fn push_revision(out: &mut String, bytes: &[u8]) -> Result<(), OutOfMemory>
    ensures { OnOk result (string_bytes out.new ≡ string_bytes out.old ++ revision_text bytes.now) }
{
    let [major, minor] = bytes else {
        return push_raw(out, bytes);
    };
    push_number(out, u64::from(*major))?;
    push_text(out, ".")?;
    push_number(out, u64::from(*minor))
}

/// Appends a word, and the address in the four bytes from this position on.
fn push_address(out: &mut String, word: &str, bytes: &[u8], at: usize) -> Result<(), OutOfMemory>
    requires { at + 4 ≤ length bytes.now }
    ensures { OnOk result (string_bytes out.new ≡ string_bytes out.old ++ (word.now ++ address_text bytes.now at)) }
{
    push_text(out, word)?;
    push_node(out, Node(u32_in(bytes, at)))
}

/// Appends address, mask, gateway and two name servers.
fn push_addresses(out: &mut String, bytes: &[u8]) -> Result<(), OutOfMemory>
    requires { 20 ≤ length bytes.now }
    ensures { OnOk result (string_bytes out.new ≡ string_bytes out.old ++ addresses_text bytes.now) }
{
    push_address(out, "address ", bytes, 0)?;
    push_address(out, " mask ", bytes, 4)?;
    push_address(out, " gateway ", bytes, 8)?;
    push_address(out, " name-server ", bytes, 12)?;
    push_address(out, " name-server-2 ", bytes, 16)?;
    Ok(())
}

/// Appends the addresses and the domain of an interface.
///
/// Volume 2, chapter 5, TCP/IP Interface object, attribute 5.
fn push_interface(out: &mut String, bytes: &[u8]) -> Result<(), OutOfMemory>
    ensures { OnOk result (string_bytes out.new ≡ string_bytes out.old ++ interface_text bytes.now) }
{
    if bytes.len() < 20 {
        return push_raw(out, bytes);
    }
    let Some(domain) = counted_text(&bytes[20..]) else {
        return push_raw(out, bytes);
    };
    push_domain(out, bytes, domain)
}

/// Appends the addresses in these bytes, and a domain.
fn push_domain(out: &mut String, bytes: &[u8], domain: &[u8]) -> Result<(), OutOfMemory>
    requires { 20 ≤ length bytes.now }
    ensures { OnOk result (string_bytes out.new ≡ string_bytes out.old
        ++ (addresses_text bytes.now ++ (codes " domain " ++ quoted_text domain.now))) }
{
    push_addresses(out, bytes)?;
    push_text(out, " domain ")?;
    push_quoted(out, domain)?;
    Ok(())
}

/// Appends a physical address.
fn push_physical(out: &mut String, bytes: &[u8]) -> Result<(), OutOfMemory>
    ensures { OnOk result (string_bytes out.new ≡ string_bytes out.old ++ physical_text bytes.now) }
{
    if bytes.len() == 6 {
        push_pairs(out, bytes)
    } else {
        push_raw(out, bytes)
    }
}

/// Appends bytes as pairs of digits with colons between them.
fn push_pairs(out: &mut String, bytes: &[u8]) -> Result<(), OutOfMemory>
    ensures { OnOk result (string_bytes out.new ≡ string_bytes out.old ++ pairs_text bytes.now) }
{
    let [first, others @ ..] = bytes else {
        return Ok(());
    };
    push_digits(out, &[*first])?;
    push_other_pairs(out, others)
}

fn push_other_pairs(out: &mut String, bytes: &[u8]) -> Result<(), OutOfMemory>
    ensures { OnOk result (string_bytes out.new
        ≡ string_bytes out.old ++ flat_map (λ other. codes ":" ++ encode_lower (other ∷ [])) bytes.now) }
{
    for byte in bytes {
        out.push_str(":")?;
        push_digits(out, &[*byte])?;
    }
    Ok(())
}
