//! Places the events of histories in a world.

ghost use Rattle.std.specs.Prelude.{◌≡◌, ◌<◌, ◌≤◌, ℕ, IfOk, IfErr, OnOk, MatchBool, length};
ghost use Rattle.settling.specs.Search.Histories.{bytes_of, events_of_all};
ghost use Rattle.settling.specs.Search.Lowest.{IsLowest};
ghost use Rattle.settling.specs.Search.Placements.{FewerLeft, IsOver, IsPlaced, IsReachable, Moved, Preserves, Ready, StuckHere, left_count};
ghost use Rattle.settling.specs.Search.Schedules.{Settles};
ghost use Rattle.settling.specs.Search.Searches.{Explains};

use crate::search::lowest::lower_of;
use crate::search::placement::Placement;
use cip_tables::Device;
use cip_types::OutOfMemory;
use device_lock::History;
use segment_world::{Act, World};
use std::alloc::Global;

/// Why the events could not be placed.
#[derive(Clone, Copy)]
pub enum Unplaced {
    /// Of the devices with events to come, the one with the lowest byte, and how many of its events were placed.
    Uncaused(usize, usize),
    OutOfMemory,
}

impl From<OutOfMemory> for Unplaced {
    ghost use Rattle.std.specs.Prelude.{◌≡◌};
    ghost use Rattle.settling.specs.declared.search.place.Unplaced.TheVariants as fault;

    ghost from_gives = { λ _ f. f ≡ fault.OutOfMemory };

    fn from(_error: OutOfMemory) -> Unplaced {
        Unplaced::OutOfMemory
    }
}

impl<D: Device + Drop> Placement<D> {
    /// Places events of a device as long as short searches find them.
    fn advance(
        &mut self,
        alloc: Global,
        histories: &[History],
        device: u32,
    ) -> Result<bool, OutOfMemory>
        requires device { device < length histories.now }
        requires reachable { IsReachable (events_of_all histories.now) self.old }
        ensures kept { OnOk result (Preserves (events_of_all histories.now) self.old self.new) }
        ensures moved { IfOk result (Moved (events_of_all histories.now) self.old self.new) }
    {
        let mut moved = false;
        loop {
            if !self.try_near(alloc, histories, device)? {
                return Ok(moved);
            }
            moved = true;
        }
    }

    /// Advances each device.
    fn advance_each(
        &mut self,
        alloc: Global,
        histories: &[History],
        devices: u32,
    ) -> Result<bool, OutOfMemory>
        requires devices { devices ≡ length histories.now }
        requires reachable { IsReachable (events_of_all histories.now) self.old }
        ensures kept { OnOk result (Preserves (events_of_all histories.now) self.old self.new) }
        ensures moved { IfOk result (Moved (events_of_all histories.now) self.old self.new) }
    {
        let mut moved = false;
        for device in 0..devices {
            if self.advance(alloc, histories, device)? {
                moved = true;
            }
        }
        Ok(moved)
    }

    /// Places events as long as short searches find them.
    fn advance_all(
        &mut self,
        alloc: Global,
        histories: &[History],
        devices: u32,
    ) -> Result<(), OutOfMemory>
        requires devices { devices ≡ length histories.now }
        requires reachable { IsReachable (events_of_all histories.now) self.old }
        ensures kept { OnOk result (Preserves (events_of_all histories.now) self.old self.new) }
        ensures less { OnOk result
            (left_count (events_of_all histories.now) self.new.placed
            ≤ left_count (events_of_all histories.now) self.old.placed) }
    {
        loop {
            if !self.advance_each(alloc, histories, devices)? {
                return Ok(());
            }
        }
    }

    /// Places one event, of the first device that has a way to it. Where none has one, all are stuck.
    fn place_one(
        &mut self,
        alloc: Global,
        histories: &[History],
        devices: u32,
    ) -> Result<bool, OutOfMemory>
        requires devices { devices ≡ length histories.now }
        requires reachable { IsReachable (events_of_all histories.now) self.old }
        ensures kept { OnOk result (Preserves (events_of_all histories.now) self.old self.new) }
        ensures moved { IfOk result
            (λ moved. MatchBool moved (FewerLeft (events_of_all histories.now) self.old self.new)
            ((i : ℕ) → i < length histories.now → StuckHere (events_of_all histories.now) self.new i)) }
    {
        for device in 0..devices {
            if self.try_all(alloc, histories, device)? {
                return Ok(true);
            }
        }
        Ok(false)
    }

    /// Places events as long as one can be placed.
    fn place_all(
        &mut self,
        alloc: Global,
        histories: &[History],
        devices: u32,
    ) -> Result<(), OutOfMemory>
        requires devices { devices ≡ length histories.now }
        requires reachable { IsReachable (events_of_all histories.now) self.old }
        ensures kept { OnOk result (Preserves (events_of_all histories.now) self.old self.new) }
        ensures stuck { OnOk result
            ((i : ℕ) → i < length histories.now → StuckHere (events_of_all histories.now) self.new i) }
    {
        loop {
            self.advance_all(alloc, histories, devices)?;
            if !self.place_one(alloc, histories, devices)? {
                return Ok(());
            }
        }
    }

    /// Of the devices with events to come, the one with the lowest byte, and how many of its events are placed.
    fn lowest_over(&self, histories: &[History], devices: u32) -> Option<(usize, usize)>
        requires devices { devices ≡ length histories.now }
        ensures { IsLowest (IsPlaced (events_of_all histories.now) self.now)
            (IsOver (events_of_all histories.now) self.now) (bytes_of histories.now) (length histories.now) result }
    {
        let mut best = None;
        for device in 0..devices {
            if let Some(_event) = self.next(histories, device) {
                let over = (device as usize, self.place_of(device));
                best = Some(lower_of(histories, best, over));
            }
        }
        best
    }
}

/// A schedule from this world on whose events are the histories.
pub fn place_histories<D: Device + Drop>(
    alloc: Global,
    world: World<D>,
    histories: &[History],
    devices: u32,
) -> Result<Vec<Act>, Unplaced>
    requires devices { devices ≡ length histories.now }
    requires ready { Ready world (events_of_all histories.now) }
    ensures settled { IfOk result (λ acts. Settles world (events_of_all histories.now) acts.items) }
    ensures stuck { IfErr result (Explains world (events_of_all histories.now) (bytes_of histories.now)) }
{
    let mut placement = Placement::new(alloc, world, histories.len())?;
    placement.place_all(alloc, histories, devices)?;
    match placement.lowest_over(histories, devices) {
        None => Ok(placement.into_acts()),
        Some((device, place)) => Err(Unplaced::Uncaused(device, place)),
    }
}
