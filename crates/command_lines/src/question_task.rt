//! The commands that ask: for the data sheet of a profile, which devices there are, and what a story comes to.

ghost use Rattle.std.specs.Prelude.{◌≡◌, map};
ghost use Rattle.command_lines.specs.Questions.{is_plain, is_seconds, named_sheet, search_at, search_of, sheet_of, timed_search, world_of};

use crate::station_numbers::{address_of, seconds_of};
use crate::station_options::StationMisuse;
use cip_types::Node;
use eds_text::is_name;
use std::convert::AsStr;

/// The seconds in which devices answer, if no option says it.
const USUAL_SECONDS: u32 = 1;

/// The names in a data sheet.
#[derive(Clone, Copy, PartialEq, Eq)]
pub enum SheetTask {
    /// They are made of the numbers of the profile.
    OfNumbers,
    /// The words behind the profile are the names of the vendor, of the product, and the catalog number.
    Named,
}

/// A search for devices: at an address, which may be that of all hosts of a network, for so many seconds.
#[derive(Clone, Copy, PartialEq, Eq)]
pub struct SearchTask {
    pub host: Node,
    pub seconds: u32,
}

/// The data sheet that words request: the name of a profile, and three names or none.
///
/// The faults, in order: `NoFile`, `ThreeNames`, `BadName` at the first word that is none.
pub fn sheet_of<S: AsStr>(words: &[S]) -> Result<SheetTask, StationMisuse>
    ensures { result ≡ sheet_of (map S.text words.now) }
{
    match words {
        [] => Err(StationMisuse::NoFile),
        [_file] => Ok(SheetTask::OfNumbers),
        [_file, vendor, product, catalog] => {
            named_sheet(vendor.as_str(), product.as_str(), catalog.as_str())
        }
        [_file, rest @ ..] => Err(StationMisuse::ThreeNames(rest.len())),
    }
}

/// A data sheet with these names.
fn named_sheet(vendor: &str, product: &str, catalog: &str) -> Result<SheetTask, StationMisuse>
    ensures { result ≡ named_sheet vendor.now product.now catalog.now }
{
    if !is_name(vendor) {
        return Err(StationMisuse::BadName(3));
    }
    if !is_name(product) {
        return Err(StationMisuse::BadName(2));
    }
    if !is_name(catalog) {
        return Err(StationMisuse::BadName(1));
    }
    Ok(SheetTask::Named)
}

/// The search that words request: an address, and `--seconds N` or nothing.
///
/// The faults, in order: `NoHost`, `NoSuchOption`, `NoValue`, `BadValue`, `BadAddress`.
pub fn search_of<S: AsStr>(words: &[S]) -> Result<SearchTask, StationMisuse>
    ensures { result ≡ search_of (map S.text words.now) }
{
    match words {
        [] => Err(StationMisuse::NoHost),
        [host] => search_at(host.as_str(), 1, USUAL_SECONDS),
        [_host, option] if is_seconds(option.as_str()) => Err(StationMisuse::NoValue(1)),
        [host, option, value] if is_seconds(option.as_str()) => {
            timed_search(host.as_str(), value.as_str())
        }
        [_host, rest @ ..] => Err(StationMisuse::NoSuchOption(rest.len())),
    }
}

/// Whether a word is the option of a time.
fn is_seconds(word: &str) -> bool
    ensures { result ≡ is_seconds word.now }
{
    word == "--seconds"
}

/// A search at a host for the seconds of a word.
fn timed_search(host: &str, value: &str) -> Result<SearchTask, StationMisuse>
    ensures { result ≡ timed_search host.now value.now }
{
    match seconds_of(value) {
        Some(seconds) => search_at(host, 3, seconds),
        None => Err(StationMisuse::BadValue(1)),
    }
}

/// A search at a host; so many words are left, from the host on.
fn search_at(host: &str, left: usize, seconds: u32) -> Result<SearchTask, StationMisuse>
    ensures { result ≡ search_at host.now left seconds }
{
    match address_of(host) {
        Some(host) => Ok(SearchTask { host, seconds }),
        None => Err(StationMisuse::BadAddress(left)),
    }
}

/// A story of a simulated network: whether it is played over the plain engines.
#[derive(Clone, Copy, PartialEq, Eq)]
pub struct WorldTask {
    pub plain: bool,
}

/// The story that words request: the name of its file, and `--plain` or nothing.
///
/// The faults, in order: `NoFile`, `NoSuchOption` at the first word that is none.
pub fn world_of<S: AsStr>(words: &[S]) -> Result<WorldTask, StationMisuse>
    ensures { result ≡ world_of (map S.text words.now) }
{
    match words {
        [] => Err(StationMisuse::NoFile),
        [_file] => Ok(WorldTask { plain: false }),
        [_file, option] if is_plain(option.as_str()) => Ok(WorldTask { plain: true }),
        [_file, option, rest @ ..] if is_plain(option.as_str()) => {
            Err(StationMisuse::NoSuchOption(rest.len()))
        }
        [_file, rest @ ..] => Err(StationMisuse::NoSuchOption(rest.len())),
    }
}

/// Whether a word is the option of the plain engines.
fn is_plain(word: &str) -> bool
    ensures { result ≡ is_plain word.now }
{
    word == "--plain"
}
