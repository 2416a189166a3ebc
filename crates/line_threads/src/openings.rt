//! Which streams a line opens.

ghost use Rattle.std.specs.Prelude.{◌≡◌, ◌++◌, map, IfOk, OnOk};
ghost use Rattle.line_threads.specs.Openings.{distinct, has, opening, openings, other_than, others_at, place_of, reached, target_of, without};

use cip_tables::{Config, SlotConfig};
use cip_types::{Node, OutOfMemory};
use std::alloc::Global;

/// The places of the devices at the two ends of a stream.
#[derive(Clone, Copy)]
pub struct StreamPlaces {
    pub from: usize,
    pub to: usize,
}

/// The place of the device with this address, if there is the device. Takes no memory.
pub fn place_of(nodes: &[Node], node: Node) -> Option<usize>
    ensures { result ≡ place_of nodes.now node }
{
    nodes.iter().position(|other| other.0 == node.0)
}

/// The streams of a line whose devices have these addresses and configurations, in the order of their numbers: each
/// scanner opens one to each of its targets that is another device of the line. `OutOfMemory` is the only error.
pub fn openings_of(
    alloc: Global,
    nodes: &[Node],
    configs: &[Config],
) -> Result<Vec<StreamPlaces>, OutOfMemory>
    ensures { IfOk result (λ v. v.items ≡ openings nodes.now configs.now) }
{
    let mut openings = Vec::new(alloc);
    for (place, config) in configs.iter().enumerate() {
        let reached = reached(alloc, nodes, place, config)?;
        add_openings(&mut openings, place, &reached)?;
    }
    Ok(openings)
}

/// Adds the streams that the device of this place opens.
fn add_openings(
    openings: &mut Vec<StreamPlaces>,
    from: usize,
    reached: &[usize],
) -> Result<(), OutOfMemory>
    ensures { OnOk result (openings.new.items ≡ openings.old.items ++ map (opening from) reached.now) }
{
    for to in reached {
        openings.push(StreamPlaces { from, to: *to })?;
    }
    Ok(())
}

/// The other devices of the line that a device has as targets, each once. `OutOfMemory` is the only error.
fn reached(
    alloc: Global,
    nodes: &[Node],
    own: usize,
    config: &Config,
) -> Result<Vec<usize>, OutOfMemory>
    ensures { IfOk result (λ v. v.items ≡ reached nodes.now own config.now) }
{
    match config {
        Config::Adapter(_) => Ok(Vec::new(alloc)),
        Config::Scanner(profile) => reached_over(alloc, nodes, own, profile.slots.as_slice()),
    }
}

/// The same over the slots of a scanner.
fn reached_over(
    alloc: Global,
    nodes: &[Node],
    own: usize,
    slots: &[SlotConfig],
) -> Result<Vec<usize>, OutOfMemory>
    ensures { IfOk result (λ v. v.items ≡ distinct (others_at nodes.now own (map target_of slots.now))) }
{
    let mut reached = Vec::new(alloc);
    for slot in slots {
        add_reached(&mut reached, own, place_of(nodes, slot.target))?;
    }
    Ok(reached)
}

/// Adds a place that is not the device's own, and not there yet.
fn add_reached(
    reached: &mut Vec<usize>,
    own: usize,
    place: Option<usize>,
) -> Result<(), OutOfMemory>
    ensures { OnOk result (reached.new.items ≡ reached.old.items ++ without reached.old.items (other_than own place)) }
{
    let Some(place) = place else {
        return Ok(());
    };
    if place == own || has(reached, place) {
        return Ok(());
    }
    reached.push(place)?;
    Ok(())
}

fn has(places: &[usize], place: usize) -> bool
    ensures { result ≡ has place places.now }
{
    places.iter().any(|other| *other == place)
}
