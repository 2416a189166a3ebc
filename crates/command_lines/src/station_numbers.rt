//! Values of options: addresses, ports and times.

ghost use Rattle.std.specs.Prelude.{◌≡◌};
ghost use Rattle.command_lines.specs.StationOptions.{delay_of, inactivity_of, incarnation_of, percent_of, port_of, record_bytes_of, seconds_of, seed_of, serial_of};
ghost use Rattle.trace_words.specs.Words.{node_of};

use cip_types::Node;
use std::net::Ipv4Addr;
use trace_words::read_u64;

/// The longest time of a station, in seconds: some 31 years.
const LONGEST_S: u64 = 1_000_000_000;

/// The longest time for which an adapter's stream may be silent, in seconds.
const LONGEST_INACTIVITY_S: u64 = 3_600;

/// The longest wait of a datagram, in milliseconds.
const LONGEST_DELAY_MS: u64 = 60_000;

/// The address of a word: four numbers below 256 with dots between them.
pub fn address_of(word: &str) -> Option<Node>
    ensures { result ≡ node_of word.now }
{
    match word.parse::<Ipv4Addr>() {
        Ok(address) => Some(Node(address.to_bits())),
        Err(_) => None,
    }
}

/// The port of a word: 1 to 65,535.
pub fn port_of(word: &str) -> Option<u16>
    ensures { result ≡ port_of word.now }
{
    let number = read_u64(word)?;
    if number == 0 || number > 65_535 {
        return None;
    }
    Some(number as u16)
}

/// The seconds of a word: 1 to 1,000,000,000.
pub fn seconds_of(word: &str) -> Option<u32>
    ensures { result ≡ seconds_of word.now }
{
    let number = read_u64(word)?;
    if number == 0 || number > LONGEST_S {
        return None;
    }
    Some(number as u32)
}

/// The incarnation of a word: 1 to 255.
pub fn incarnation_of(word: &str) -> Option<u8>
    ensures { result ≡ incarnation_of word.now }
{
    let number = read_u64(word)?;
    if number == 0 || number > 255 {
        return None;
    }
    Some(number as u8)
}

/// The serial number of a word: 1 to 4,294,967,295.
pub fn serial_of(word: &str) -> Option<u32>
    ensures { result ≡ serial_of word.now }
{
    let number = read_u64(word)?;
    if number == 0 || number > 4_294_967_295 {
        return None;
    }
    Some(number as u32)
}

/// The seconds of a word: 0 to 3,600.
pub fn inactivity_of(word: &str) -> Option<u16>
    ensures { result ≡ inactivity_of word.now }
{
    let number = read_u64(word)?;
    if number > LONGEST_INACTIVITY_S {
        return None;
    }
    Some(number as u16)
}

/// The percentage of a word: 0 to 100.
pub fn percent_of(word: &str) -> Option<u8>
    ensures { result ≡ percent_of word.now }
{
    let number = read_u64(word)?;
    if number > 100 {
        return None;
    }
    Some(number as u8)
}

/// The milliseconds of a word: 0 to 60,000.
pub fn delay_of(word: &str) -> Option<u16>
    ensures { result ≡ delay_of word.now }
{
    let number = read_u64(word)?;
    if number > LONGEST_DELAY_MS {
        return None;
    }
    Some(number as u16)
}

/// The seed of a word: a number of 64 bits.
pub fn seed_of(word: &str) -> Option<u64>
    ensures { result ≡ seed_of word.now }
{
    read_u64(word)
}

/// The most bytes of a record, by a word: a number of 64 bits, and not 0.
pub fn record_bytes_of(word: &str) -> Option<u64>
    ensures { result ≡ record_bytes_of word.now }
{
    let number = read_u64(word)?;
    if number == 0 {
        return None;
    }
    Some(number)
}
