//! Finds a schedule whose events are histories.

ghost use Rattle.std.specs.Prelude.{◌≡◌, ◌<◌, ◌^◌, None, [], IfOk, IfErr, OnOk, length};
ghost use Rattle.cip_tables.specs.Step.{AcceptsAll};
ghost use Rattle.segment_world.specs.Configs.{opening_world, world_fault};
ghost use Rattle.settling.specs.Search.Histories.{bytes_of, configs_of, events_of_all, nodes_of, start_of};
ghost use Rattle.settling.specs.Search.Openings.{FirstOpen, Opening};
ghost use Rattle.settling.specs.Search.Schedules.{Settles};
ghost use Rattle.settling.specs.Search.Searches.{AllAnswered, IsWrong, OpensFirst, WhyUnplaced};

use crate::search::histories::byte_of;
use crate::search::place::{Unplaced, place_histories};
use crate::search::streams::{count_named, open_streams};
use cip_tables::{Config, Device};
use cip_types::OutOfMemory;
use device_lock::History;
use segment_world::{Act, World, WorldFault, world_fault};
use std::alloc::Global;

// THE CONFIGURATIONS

/// Returns Ok where a world can be made of the histories' configurations, which is what `settle` requires: no two have
/// one incarnation byte or one address, and each makes a device.
///
/// The faults, in order: `OutOfMemory` where a copy of the configurations is refused, `SameIncarnation`, `SameNode`, and
/// `Profile` with the first fault of the first configuration that has one.
pub fn check_configs(alloc: Global, histories: &[History]) -> Result<(), WorldFault>
    ensures valid { OnOk result (world_fault (configs_of histories.now) ≡ None) }
    ensures fault { IfErr result (IsWrong (world_fault (configs_of histories.now))) }
{
    let configs = copy_configs(alloc, histories)?;
    match world_fault(&configs) {
        Some(fault) => Err(fault),
        None => Ok(()),
    }
}

// THE WORLD BEFORE THE FIRST EVENTS

/// The world that the devices were in before their first events.
fn opening_world<D: Device + Drop>(
    alloc: Global,
    histories: &[History],
) -> Result<World<D>, OutOfMemory>
    requires accepts { AcceptsAll D.accepts }
    requires valid { world_fault (configs_of histories.now) ≡ None }
    ensures { IfOk result (λ world. world ≡ start_of histories.now) }
{
    match World::new(alloc, copy_configs(alloc, histories)?) {
        Ok(world) => Ok(world),
        Err(WorldFault::OutOfMemory) => Err(OutOfMemory),
        Err(_) => unreachable!(),
    }
}

fn copy_configs(alloc: Global, histories: &[History]) -> Result<Vec<Config>, OutOfMemory>
    ensures { IfOk result (λ configs. configs.items ≡ configs_of histories.now) }
{
    let mut configs = Vec::new(alloc);
    for history in histories {
        configs.push(history.config().copy(alloc)?)?;
    }
    Ok(configs)
}

/// How many devices there are. No two have one incarnation byte, so 32 bits suffice.
fn count_devices(histories: &[History]) -> u32
    requires valid { world_fault (configs_of histories.now) ≡ None }
    ensures { result ≡ length histories.now }
{
    for history in histories {
        let _byte = byte_of(history); // gives the prover that it is below 256
    }
    in_32_bits(histories.len())
}

fn in_32_bits(count: usize) -> u32
    requires { count < 2 ^ 32 }
    ensures { result ≡ count }
{
    count as u32
}

/// Opens the streams that the histories name.
fn open_first<D: Device + Drop>(
    world: &mut World<D>,
    acts: &mut Vec<Act>,
    histories: &[History],
) -> Result<(), OutOfMemory>
    requires opening { Opening world.old (events_of_all histories.now) }
    requires nodes { world.old.nodes ≡ nodes_of histories.now }
    requires none { acts.old.items ≡ [] }
    requires devices { length histories.now < 2 ^ 32 }
    ensures { OnOk result (FirstOpen world.old (events_of_all histories.now) acts.new.items world.new) }
{
    if histories.len() < 2 {
        return Ok(());
    }
    open_streams(world, acts, histories, count_named(histories))?;
    Ok(())
}

// THE SEARCH

/// A schedule whose events are the histories, all of which are answered.
///
/// It first opens the streams that the histories name, each between the first device that has its StreamOpened and the
/// peer that this event names, or else between the first two devices; then it places events, and cuts a stream only
/// where neither end has an event to come that uses it.
///
/// The faults, in order: `Uncaused`, and `OutOfMemory` wherever a growth of memory is refused.
pub fn find_schedule<D: Device + Drop>(
    alloc: Global,
    histories: &[History],
) -> Result<Vec<Act>, Unplaced>
    requires accepts { AcceptsAll D.accepts }
    requires valid { world_fault (configs_of histories.now) ≡ None }
    requires answered { AllAnswered (start_of histories.now) (events_of_all histories.now) }
    ensures settled { IfOk result (λ acts. Settles (start_of histories.now) (events_of_all histories.now) acts.items) }
    ensures opens { IfOk result (λ acts. OpensFirst (start_of histories.now) (events_of_all histories.now) acts.items) }
    ensures stuck { IfErr result
        (WhyUnplaced (start_of histories.now) (events_of_all histories.now) (bytes_of histories.now)) }
{
    let devices = count_devices(histories);
    let mut world = opening_world::<D>(alloc, histories)?;
    let mut acts = Vec::new(alloc);
    open_first(&mut world, &mut acts, histories)?;
    match place_histories(alloc, world, histories, devices) {
        Ok(mut later) => match acts.append(&mut later) {
            Ok(()) => Ok(acts),
            Err(_) => Err(Unplaced::OutOfMemory),
        },
        Err(fault) => Err(fault),
    }
}
