//! What a data sheet offers of the connections that an adapter admits: packet intervals, triggers, kinds and numbers, by the
//! limits that its maker states.

ghost use Rattle.std.specs.Prelude.{◌≡◌, ◌<◌, ◌≤◌, ◌^◌};
ghost use Rattle.adapter_table.specs.Objects.{most_class3};
ghost use Rattle.eds_text.specs.Offer.{admitted_least, all_of, capacity_of, has_place, offered_intervals, offers_changes, rate_at, words_of};

use adapter_table::{Description, InputPoint, MakerLimits, Places, Profile, least_us};
use cip_productions::Kind;
use cip_types::limits::{LONGEST_RPI_US, MOST_CONNECTIONS};

/// The shortest packet interval that a data sheet offers, in microseconds: an actual one has whole milliseconds.
///
/// Volume 1, chapter 3, requested and actual packet interval.
pub const SHORTEST_OFFERED_US: u32 = 1_000;

/// The packet interval of a new connection, in microseconds, where the maker states no longer one.
pub const USUAL_RPI_US: u32 = 10_000;

/// The class 3 connections of an adapter, where its maker states no number (limit 2.16).
const MOST_CLASS3: u64 = 64;

/// The bytes of the longest datagram of a connection: a sequence count, a run/idle header and a point.
pub const LONGEST_DATAGRAM: u64 = 1_406;

/// The requested packet intervals that a data sheet offers, in microseconds: the least, the greatest, and that of a new
/// connection.
#[derive(Clone, Copy)]
pub struct OfferedIntervals {
    pub least: u32,
    pub most: u32,
    pub first: u32,
}

/// How much an adapter takes: how many datagrams in a second of a connection at the shortest interval that is offered,
/// how many connections, how many multicast producers, and how many connections of class 3.
#[derive(Clone, Copy)]
pub struct SheetCapacity {
    pub rate: u32,
    pub connections: u64,
    pub producers: u64,
    pub messages: u64,
}

/// The least packet interval that the device admits. A described one takes each for one of whole milliseconds, rounded down.
fn admitted_least(description: &Option<Description>, least: Option<u32>) -> u32
    ensures { result ≡ admitted_least description.now least }
{
    match description {
        Some(_) => least_us(least),
        None => least.unwrap_or(0),
    }
}

/// The packet intervals that are offered: none is below the least that the device admits.
///
/// Volume 1, chapter 3, requested and actual packet interval.
pub fn offered_intervals(profile: &Profile) -> OfferedIntervals
    ensures { result ≡ offered_intervals profile.now }
{
    let admitted = admitted_least(&profile.description, profile.limits.least_rpi);
    let least = SHORTEST_OFFERED_US.max(admitted);
    OfferedIntervals {
        least,
        most: LONGEST_RPI_US,
        first: USUAL_RPI_US.max(least),
    }
}

/// How many words of two bytes the configuration of a described device has: each is a parameter of its data sheet.
///
/// Volume 1, chapter 7, electronic data sheets: Params.
pub fn words_of(description: &Option<Description>, config: Option<InputPoint>) -> u64
    ensures value { result ≡ words_of description.now config }
    ensures few { result ≤ 2 ^ 63 }
{
    match (description, config) {
        (Some(_), Some(config)) => config.len / 2,
        _ => 0,
    }
}

/// Whether a connection is offered that produces on changes of state. Its path has no inhibit time, without which it is
/// refused where the maker states how far ahead numbers can be.
///
/// Volume 1, chapter 3, production trigger.
pub fn offers_changes(limits: &MakerLimits) -> bool
    ensures { result ≡ offers_changes limits.now }
{
    limits.newer.is_none()
}

/// Whether a connection of this kind can be established at all.
///
/// Volume 1, chapter 3, application connection types.
pub fn has_place(limits: &MakerLimits, kind: Kind) -> bool
    ensures { result ≡ has_place limits.now kind }
{
    match limits.places {
        Some(places) => 0 < places.of(kind),
        None => true,
    }
}

/// How much the adapter takes.
///
/// Volume 1, chapter 7, electronic data sheets: Capacity.
pub fn capacity_of(profile: &Profile) -> SheetCapacity
    ensures { result ≡ capacity_of profile.now }
{
    SheetCapacity {
        rate: rate_at(offered_intervals(profile)),
        connections: all_of(profile.limits.places),
        producers: profile.inputs.as_slice().len() as u64,
        messages: most_class3(profile.limits.class3_places()),
    }
}

/// How many connections of class 3 there can be.
fn most_class3(places: Option<u8>) -> u64
    ensures { result ≡ most_class3 places }
{
    match places {
        Some(places) => u64::from(places),
        None => MOST_CLASS3,
    }
}

/// How many datagrams of a connection there are in a second, at most.
fn rate_at(intervals: OfferedIntervals) -> u32
    requires { 0 < intervals.least }
    ensures { result ≡ rate_at intervals }
{
    1_000_000u32.div_ceil(intervals.least)
}

/// How many connections can be established at one time.
fn all_of(places: Option<Places>) -> u64
    ensures { result ≡ all_of places }
{
    match places {
        Some(places) => {
            u64::from(places.owners) + (u64::from(places.readers) + u64::from(places.listeners))
        }
        None => MOST_CONNECTIONS as u64,
    }
}
