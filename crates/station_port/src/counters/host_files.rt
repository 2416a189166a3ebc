//! What the files of a host say: the interface of an address, and what was counted of it.
//!
//! Linux, `/proc/net/route` and `/proc/net/dev`.

ghost use Rattle.std.specs.Prelude.{◌≡◌, ◌+◌, ◌<◌, ◌≤◌, ◌++◌, length, drop, option_map, flat_map, IfOk, IfSome, OnOk, None};
ghost use Rattle.std.specs.Int.{w32, to_le_bytes};
ghost use Rattle.std.specs.List.{position};
ghost use Rattle.station_port.specs.Counters.HostLines.{lines_of};
ghost use Rattle.station_port.specs.Counters.HostFiles.{address_of, byte_at, byte_of, colon_of, counters_text, counts_in, has_mask, interface_among, interface_of, interface_with, is_colon, is_of, link_counters, longer, longest_from, mask_among, mask_to, numbers_in, unicast};

use crate::counters::host_lines::{
    behind_line, behind_word, decimal_of, hex_value, line_of, word_behind, word_of,
};
use cip_types::fields::put_u32;
use cip_types::{Node, OutOfMemory};
use std::alloc::Global;

/// The interface of the addresses that begin with 127.
const LOOPBACK: &[u8] = b"lo";

/// Behind so many words of a route is its network, and its mask.
const NETWORK: u32 = 1;

const MASK: u32 = 7;

/// The numbers of an interface.
const NUMBERS: usize = 16;

/// The byte of two hexadecimal digits.
fn byte_of(high: u8, low: u8) -> Option<u8>
    ensures { result ≡ byte_of high low }
{
    let high = hex_value(high)?;
    let low = hex_value(low)?;
    Some(16 * high + low)
}

/// The byte of the two digits at a place of a word.
fn byte_at(word: &[u8], place: usize) -> Option<u8>
    requires { place + 1 < length word.now }
    ensures { result ≡ byte_at word.now place }
{
    byte_of(word[place], word[place + 1])
}

/// The address of eight hexadecimal digits, of which the last two are its first byte.
#[tactic(auto, unfolding(crate::specs::Counters::HostFiles::address_of))]
fn address_of(word: &[u8]) -> Option<u32>
    ensures { result ≡ address_of word.now }
{
    if word.len() != 8 {
        return None;
    }
    let a = byte_at(word, 0)?;
    let b = byte_at(word, 2)?;
    let c = byte_at(word, 4)?;
    let d = byte_at(word, 6)?;
    Some(u32::from_le_bytes([a, b, c, d]))
}

/// The mask of a route with this network and this mask, if it is one to the address.
fn mask_among(address: u32, network: u32, mask: u32) -> Option<u32>
    ensures { result ≡ mask_among address network mask }
{
    if address & mask == network {
        Some(mask)
    } else {
        None
    }
}

/// The mask of a route, if it is one to the address.
#[tactic(auto, unfolding(crate::specs::Counters::HostFiles::mask_to))]
fn mask_to(address: u32, line: &[u8]) -> Option<u32>
    ensures { result ≡ mask_to address line.now }
{
    let network = address_of(word_behind(NETWORK, line))?;
    let mask = address_of(word_behind(MASK, line))?;
    mask_among(address, network, mask)
}

/// The longer one of two masks.
fn longer(mask: Option<u32>, other: Option<u32>) -> Option<u32>
    ensures { result ≡ longer mask other }
{
    match (mask, other) {
        (Some(mask), Some(other)) if mask < other => Some(other),
        (Some(mask), _) => Some(mask),
        (None, other) => other,
    }
}

/// The longest mask of the routes to an address.
fn longest_mask(address: u32, routes: &[u8]) -> Option<u32>
    ensures { result ≡ longest_from None address (lines_of routes.now) }
{
    let mut rest = routes;
    let mut longest: Option<u32> = None;
    while !rest.is_empty() {
        longest = longer(longest, mask_to(address, line_of(rest)));
        rest = behind_line(rest);
    }
    longest
}

/// Whether a mask is this one.
fn has_mask(other: Option<u32>, mask: u32) -> bool
    ensures { result ≡ has_mask other mask }
{
    match other {
        Some(other) => other == mask,
        None => false,
    }
}

/// The interface of the first route to an address with this mask.
fn interface_with(address: u32, mask: u32, routes: &[u8]) -> Option<&[u8]>
    ensures { option_map (λ lent. lent.now) result ≡ interface_with address mask (lines_of routes.now) }
{
    let mut rest = routes;
    while !rest.is_empty() {
        let line = line_of(rest);
        if has_mask(mask_to(address, line), mask) {
            return Some(word_of(line));
        }
        rest = behind_line(rest);
    }
    None
}

/// The interface of the route to an address with the longest mask.
fn interface_among(address: u32, routes: &[u8]) -> Option<&[u8]>
    ensures { option_map (λ lent. lent.now) result ≡ interface_among address (lines_of routes.now) }
{
    match longest_mask(address, routes) {
        Some(mask) => interface_with(address, mask, routes),
        None => None,
    }
}

/// The interface that the routes of a host have for an address: that of the longest mask. Addresses that begin with 127 have the
/// loopback. None if there is no such route.
///
/// The text is that of `/proc/net/route`: behind a first line one for each route.
pub fn interface_of(routes: &[u8], address: Node) -> Option<&[u8]>
    ensures { option_map (λ lent. lent.now) result ≡ interface_of routes.now address }
{
    if address.0 / 0x0100_0000 == 127 {
        return Some(LOOPBACK);
    }
    interface_among(address.0, behind_line(routes))
}

/// The place of the first colon.
fn first_colon(line: &[u8]) -> Option<usize>
    ensures first { result ≡ position is_colon line.now }
    ensures inside { IfSome result (λ colon. colon < length line.now) }
{
    line.iter().position(|byte| *byte == b':')
}

/// The place of the first colon; the length of a line without one.
fn colon_of(line: &[u8]) -> usize
    ensures first { result ≡ colon_of line.now }
    ensures within { result ≤ length line.now }
{
    match first_colon(line) {
        Some(colon) => colon,
        None => line.len(),
    }
}

/// Whether a line is that of an interface.
fn is_of(interface: &[u8], line: &[u8]) -> bool
    ensures { result ≡ is_of interface.now line.now }
{
    let colon = colon_of(line);
    let (name, _numbers) = line.split_at(colon);
    colon < line.len() && word_of(name) == interface
}

/// What follows the colon of a line.
fn behind_colon(line: &[u8]) -> &[u8]
    ensures { result.now ≡ drop (colon_of line.now + 1) line.now }
{
    let (_name, rest) = line.split_at(colon_of(line));
    match rest {
        [_colon, behind @ ..] => behind,
        [] => rest,
    }
}

/// What follows the name of an interface and its colon, in its line.
fn counts_in<'a>(interface: &[u8], counts: &'a [u8]) -> Option<&'a [u8]>
    ensures { option_map (λ lent. lent.now) result ≡ counts_in interface.now (lines_of counts.now) }
{
    let mut rest = counts;
    while !rest.is_empty() {
        let line = line_of(rest);
        if is_of(interface, line) {
            return Some(behind_colon(line));
        }
        rest = behind_line(rest);
    }
    None
}

/// The sixteen numbers of an interface, modulo 2^32. None if one of them is no number. OutOfMemory is the only fault.
fn numbers_in(alloc: Global, line: &[u8]) -> Result<Option<Vec<u32>>, OutOfMemory>
    ensures numbers { IfOk result (λ numbers. option_map (λ n. n.items) numbers ≡ numbers_in 16 line.now) }
    ensures all { IfOk result (λ numbers. IfSome numbers (λ n. length n.items ≡ 16)) }
{
    let mut numbers = Vec::with_capacity(alloc, NUMBERS)?;
    let mut rest = line;
    while numbers.len() < NUMBERS {
        let Some(number) = decimal_of(word_of(rest)) else {
            return Ok(None);
        };
        numbers.push(number)?;
        rest = behind_word(rest);
    }
    Ok(Some(numbers))
}

/// The packets that are not multicast ones, modulo 2^32.
fn unicast(packets: u32, multicast: u32) -> u32
    ensures { result ≡ unicast packets multicast }
{
    let more = u64::from(packets) + 0x1_0000_0000 - u64::from(multicast);
    (more % 0x1_0000_0000) as u32
}

/// Appends numbers of four bytes.
fn put_numbers(out: &mut Vec<u8>, numbers: &[u32]) -> Result<(), OutOfMemory>
    ensures { OnOk result (out.new.items ≡ out.old.items ++ flat_map (to_le_bytes w32) numbers.now) }
{
    for number in numbers {
        put_u32(out, *number)?;
    }
    Ok(())
}

/// The 92 bytes of the counters of an interface and of its medium, in place of which these sixteen numbers were counted.
fn counters_text(alloc: Global, n: &[u32]) -> Result<Vec<u8>, OutOfMemory>
    requires { length n.now ≡ 16 }
    ensures { IfOk result (λ bytes. bytes.items ≡ counters_text n.now) }
{
    let unicast = unicast(n[1], n[7]);
    let own = [
        n[0], unicast, n[7], n[3], n[2], 0, n[8], n[9], 0, n[11], n[10], n[5], 0, 0, n[13], 0, 0,
        0, 0, n[12], n[14], 0, n[4],
    ];
    let mut out = Vec::with_capacity(alloc, 92)?;
    put_numbers(&mut out, own.as_slice())?;
    Ok(out)
}

/// The 92 bytes of what a host has counted of an interface: the eleven counters of the interface, and the twelve of its medium, as far as
/// the host has them, and zeros in place of the others. None if the text has no such interface. OutOfMemory is the only fault.
///
/// The text is that of `/proc/net/dev`. Volume 2, chapter 5, Ethernet Link object, attributes 4 and 5.
pub fn link_counters(
    alloc: Global,
    counts: &[u8],
    interface: &[u8],
) -> Result<Option<Vec<u8>>, OutOfMemory>
    ensures { IfOk result (λ bytes. option_map (λ b. b.items) bytes ≡ link_counters counts.now interface.now) }
{
    let Some(line) = counts_in(interface, counts) else {
        return Ok(None);
    };
    let Some(numbers) = numbers_in(alloc, line)? else {
        return Ok(None);
    };
    let text = counters_text(alloc, numbers.as_slice())?;
    Ok(Some(text))
}
