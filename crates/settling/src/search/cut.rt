//! Where a cut brings a device its next event.

ghost use Rattle.std.specs.Prelude.{◌≡◌, ◌↔◌, true, IsTrue, IfSome, IfNone, OnSome, slice_get};
ghost use Rattle.std.specs.List.{list_any};
ghost use Rattle.segment_world.specs.declared.transit.direction.Direction.{Direction};
ghost use Rattle.settling.specs.Search.Causes.{CutReaches};
ghost use Rattle.settling.specs.Search.Histories.{events_of_all};
ghost use Rattle.settling.specs.Search.Placements.{rest};
ghost use Rattle.settling.specs.Search.Schedules.{is_unused, uses};

use crate::search::histories::events_left;
use cip_tables::{Device, Event};
use device_lock::History;
use segment_world::{Direction, World, receiver_of};

/// Whether the event is the mark that the stream opens, or a frame over it.
fn uses_stream(number: u16, event: &Event) -> bool
    ensures { result ≡ uses number event.now }
{
    match event {
        Event::StreamOpened { stream, .. } => *stream == number,
        Event::Frame { stream, .. } => *stream == number,
        _ => false,
    }
}

fn is_used(number: u16, events: &[Event]) -> bool
    ensures { result ≡ list_any (uses number) events.now }
{
    events.iter().any(|event| uses_stream(number, event))
}

/// Whether neither end of a stream has an event to come that uses it.
fn is_unused<D: Device + Drop>(
    world: &World<D>,
    histories: &[History],
    placed: &[usize],
    stream: u16,
) -> bool
    ensures { result ≡ is_unused stream (rest (events_of_all histories.now) placed.now)
        (slice_get world.now.streams stream) }
{
    match world.endpoints(stream) {
        None => false,
        Some(endpoints) => !is_used(stream, events_left(histories, placed, endpoints.from))
            && !is_used(stream, events_left(histories, placed, endpoints.to)),
    }
}

/// Whether a cut of the stream would reach this device, which takes from this direction.
fn cut_reaches<D: Device + Drop>(
    world: &World<D>,
    stream: u16,
    direction: Direction,
    device: u32,
) -> bool
    ensures { IsTrue result ↔ CutReaches world.now stream device direction }
{
    match world.endpoints(stream) {
        None => false,
        Some(endpoints) => !endpoints.ended
            && receiver_of(endpoints, direction) == device
            && world.has_taken(stream, direction),
    }
}

/// The direction in which a cut of this stream, where it may be made, brings its mark to the device.
pub fn cut_way<D: Device + Drop>(
    world: &World<D>,
    histories: &[History],
    placed: &[usize],
    stream: u16,
    device: u32,
) -> Option<Direction>
    ensures none { IfNone result
        (is_unused stream (rest (events_of_all histories.now) placed.now) (slice_get world.now.streams stream) ≡ true
        → (d : Direction) → CutReaches world.now stream device d → ⊥) }
    ensures may { OnSome result
        (is_unused stream (rest (events_of_all histories.now) placed.now) (slice_get world.now.streams stream) ≡ true) }
    ensures reaches { IfSome result (CutReaches world.now stream device) }
{
    if !is_unused(world, histories, placed, stream) {
        return None;
    }
    if cut_reaches(world, stream, Direction::Forth, device) {
        return Some(Direction::Forth);
    }
    if cut_reaches(world, stream, Direction::Back, device) {
        return Some(Direction::Back);
    }
    None
}
