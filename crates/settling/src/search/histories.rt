//! Events of histories.

ghost use Rattle.std.specs.Prelude.{◌≡◌, drop, slice_index};
ghost use Rattle.settling.specs.Search.Histories.{bytes_of, byte_in, events_of_all};
ghost use Rattle.settling.specs.Search.Placements.{rest};
ghost use Rattle.settling.specs.Search.Schedules.{history};

use cip_tables::{Config, Event};
use device_lock::History;

/// All events of a device.
#[tactic(auto, using(crate::specs::Search::Lemmas::Listing::history_none, crate::specs::Search::Lemmas::Listing::history_some))]
pub fn events_of(histories: &[History], device: u32) -> &[Event]
    ensures { result.now ≡ history (events_of_all histories.now) device }
{
    match histories.get(device as usize) {
        None => &[],
        Some(history) => history.events(),
    }
}

/// How many events of a device are placed.
pub fn placed_at(placed: &[usize], device: u32) -> usize
    ensures { result ≡ slice_index placed.now device }
{
    match placed.get(device as usize) {
        Some(place) => *place,
        None => 0,
    }
}

/// The events from a place on.
fn events_from(events: &[Event], place: usize) -> &[Event]
    ensures { result.now ≡ drop place events.now }
{
    if place <= events.len() {
        &events[place..]
    } else {
        &[]
    }
}

/// The events of a device that are still to be placed.
pub fn events_left<'a>(histories: &'a [History], placed: &[usize], device: u32) -> &'a [Event]
    ensures { result.now ≡ rest (events_of_all histories.now) placed.now device }
{
    events_from(events_of(histories, device), placed_at(placed, device))
}

/// The incarnation byte of a device.
pub fn byte_of(history: &History) -> u8
    ensures { result ≡ byte_in history.now }
{
    match history.config() {
        Config::Adapter(profile) => profile.incarnation,
        Config::Scanner(profile) => profile.incarnation,
    }
}

/// The incarnation byte of the device at a place.
#[tactic(auto, using(crate::specs::Search::Lemmas::Listing::byte_none, crate::specs::Search::Lemmas::Listing::byte_some))]
pub fn byte_at(histories: &[History], device: usize) -> u8
    ensures { result ≡ slice_index (bytes_of histories.now) device }
{
    match histories.get(device) {
        None => 0,
        Some(history) => byte_of(history),
    }
}
