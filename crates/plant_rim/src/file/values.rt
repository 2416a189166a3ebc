//! The values in a plant's file: numbers, addresses, paths.

ghost use Rattle.std.specs.Prelude.{◌≡◌};
ghost use Rattle.trace_words.specs.Reader.{Takes, unread_words};
ghost use Rattle.plant_rim.specs.File.Lines.{Reads, address_of, address_reader, at_of, delay_of, every_of, folder_of, not_zero, percent_of, seconds_of, seed_of, text_of, view_text};
ghost use Rattle.plant_rim.specs.File.Made.{up_to, within_of};

use crate::file::faults::{PlantLineFault, PlantReadFault};
use crate::file::plant::PlantWord;
use cip_types::Node;
use station::DueTime;
use std::alloc::Global;
use trace_words::{TextFault, Words, read_u64};

/// The longest time of a plant, in seconds: some 31 years.
const LONGEST_PLANT_S: u64 = 1_000_000_000;

/// The longest wait of a datagram, in milliseconds.
const LONGEST_HOLD_MS: u64 = 60_000;

/// The last time of a line, in milliseconds: that of some 49 days.
const LAST_MS: u64 = 4_294_967_295;

/// A text of bytes.
pub fn text_of(bytes: &[u8]) -> Result<&str, PlantLineFault>
    ensures { view_text result ≡ text_of bytes.now }
{
    match str::from_utf8(bytes) {
        Ok(text) => Ok(text),
        Err(_) => Err(PlantLineFault::NotText),
    }
}

/// A number up to this one.
fn up_to(most: u64, word: &str) -> Option<u64>
    ensures { result ≡ up_to most word.now }
{
    let number = read_u64(word)?;
    if number > most { None } else { Some(number) }
}

/// A number, if it is not 0.
fn not_zero(number: u64) -> Option<u64>
    ensures { result ≡ not_zero number }
{
    if number == 0 { None } else { Some(number) }
}

/// A percentage.
pub fn percent_of(word: &str) -> Result<u8, PlantLineFault>
    ensures { result ≡ percent_of word.now }
{
    match up_to(100, word) {
        Some(percent) => Ok(percent as u8),
        None => Err(PlantLineFault::BadPercent),
    }
}

/// A delay in milliseconds.
pub fn delay_of(word: &str) -> Result<u16, PlantLineFault>
    ensures { result ≡ delay_of word.now }
{
    match up_to(LONGEST_HOLD_MS, word) {
        Some(ms) => Ok(ms as u16),
        None => Err(PlantLineFault::BadDelay),
    }
}

/// A seed.
pub fn seed_of(word: &str) -> Result<u64, PlantLineFault>
    ensures { result ≡ seed_of word.now }
{
    read_u64(word).ok_or(PlantLineFault::BadSeed)
}

/// A number of seconds.
pub fn seconds_of(word: &str) -> Result<u32, PlantLineFault>
    ensures { result ≡ seconds_of word.now }
{
    match up_to(LONGEST_PLANT_S, word).and_then(not_zero) {
        Some(seconds) => Ok(seconds as u32),
        None => Err(PlantLineFault::BadSeconds),
    }
}

/// The time at which a line is due once.
pub fn at_of(word: &str) -> Result<DueTime, PlantLineFault>
    ensures { result ≡ at_of word.now }
{
    match up_to(LAST_MS, word) {
        Some(ms) => Ok(DueTime::At(ms as u32)),
        None => Err(PlantLineFault::BadTime),
    }
}

/// The time after which a line is due again and again.
pub fn every_of(word: &str) -> Result<DueTime, PlantLineFault>
    ensures { result ≡ every_of word.now }
{
    match up_to(LAST_MS, word).and_then(not_zero) {
        Some(ms) => Ok(DueTime::Every(ms as u32)),
        None => Err(PlantLineFault::BadTime),
    }
}

/// The time within which a condition is expected.
pub fn within_of(word: &str) -> Result<u32, PlantLineFault>
    ensures { result ≡ within_of word.now }
{
    match up_to(LAST_MS, word) {
        Some(ms) => Ok(ms as u32),
        None => Err(PlantLineFault::BadTime),
    }
}

/// An address, if there is one.
pub fn read_address(text: &str) -> Result<Option<Node>, PlantReadFault>
    ensures { Reads (address_of text.now) result }
{
    if text.is_empty() {
        return Ok(None);
    }
    match read_node(&mut Words::of(text)) {
        Ok(node) => Ok(Some(node)),
        Err(TextFault::Bad) => Err(PlantReadFault::Line(PlantLineFault::BadAddress)),
        Err(TextFault::OutOfMemory) => Err(PlantReadFault::OutOfMemory),
    }
}

/// The address of the last word.
fn read_node(words: &mut Words<'_>) -> Result<Node, TextFault>
    ensures { Takes (address_reader (unread_words words.old)) result (unread_words words.new) }
{
    let node = words.node()?;
    words.last(node)
}

/// The path of a folder.
pub fn read_folder(alloc: Global, path: &str) -> Result<PlantWord, PlantReadFault>
    ensures { Reads (folder_of path.now) result }
{
    if path.is_empty() {
        return Err(PlantReadFault::Line(PlantLineFault::NoFolder));
    }
    let path = PlantWord::copy_of(alloc, path)?;
    Ok(path)
}
