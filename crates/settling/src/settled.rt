//! Finds a schedule for histories and receipts.

ghost use Rattle.std.specs.Prelude.{◌≡◌, None, [], IfOk, IfErr};
ghost use Rattle.cip_tables.specs.Step.{AcceptsAll};
ghost use Rattle.segment_world.specs.Configs.{world_fault};
ghost use Rattle.settling.specs.Search.Histories.{configs_of};
ghost use Rattle.settling.specs.Receipts.{AllGood, AreMarks};
ghost use Rattle.settling.specs.Settlings.{SettlesAll, WhyNot};

use crate::marks::Marks;
use crate::receipts::{first_foreign, first_missing, outcomes_of_all};
use crate::search::{Unplaced, byte_at, find_schedule};
use cip_tables::Device;
use cip_types::{Items, OutOfMemory};
use device_lock::{History, Receipt};
use segment_world::Act;
use std::alloc::Global;
use thiserror::Error;

/// A schedule for histories and receipts.
#[derive(Drop)]
pub struct Settled {
    /// The acts, from a world that is fresh of the histories' configurations, in their order.
    pub schedule: Items<Act>,
}

/// Why there is no schedule for histories and receipts: the first of these. Each names a device by its incarnation byte.
#[derive(Clone, Copy, Debug, PartialEq, Eq, Error)]
pub enum Unsettled {
    /// A receipt, the first such one: a fresh device that is run over the history does not have its event at its place,
    /// or not its answer, or an earlier receipt is for the same event. With the index that the receipt names.
    #[error("a receipt that does not fit: device {0}, index {1}")]
    Foreign(u8, u32),
    /// An event without a receipt, of the device with the lowest byte that has one, and its first: with the index over
    /// the device's whole history.
    #[error("an event without a receipt: device {0}, index {1}")]
    Missing(u8, u64),
    /// An event that nothing brings about: after some orderly schedule no device's next event can happen. It is that of
    /// the device with the lowest byte that has events to come, with the index over the device's whole history.
    #[error("an event without a cause: device {0}, index {1}")]
    Uncaused(u8, u64),
    /// A growth of memory was refused.
    #[error("no memory")]
    OutOfMemory,
}

impl From<OutOfMemory> for Unsettled {
    ghost use Rattle.std.specs.Prelude.{◌≡◌};
    ghost use Rattle.settling.specs.declared.settled.Unsettled.TheVariants as fault;

    ghost from_gives = { λ _ f. f ≡ fault.OutOfMemory };

    fn from(_error: OutOfMemory) -> Unsettled {
        Unsettled::OutOfMemory
    }
}

/// A mark for each event that has a receipt, where all receipts are good.
fn marks_of<D: Device + Drop>(
    alloc: Global,
    histories: &[History],
    receipts: &[Receipt],
) -> Result<Marks, Unsettled>
    requires accepts { AcceptsAll D.accepts }
    requires valid { world_fault (configs_of histories.now) ≡ None }
    ensures good { IfOk result (λ _. AllGood histories.now [] receipts.now) }
    ensures marks { IfOk result (AreMarks histories.now receipts.now) }
    ensures foreign { IfErr result (WhyNot histories.now receipts.now) }
{
    let outcomes = outcomes_of_all::<D>(alloc, histories)?;
    let mut marks = Marks::new(alloc, histories)?;
    match first_foreign(histories, &outcomes, &mut marks, receipts) {
        Some((device, index)) => Err(Unsettled::Foreign(device, index)),
        None => Ok(marks),
    }
}

/// A schedule whose events are the histories, and in which each receipt stands.
///
/// The schedule begins with fresh devices of the histories' configurations, none of its acts faults, the events of each
/// device are its history, each receipt stands at its place with the schedule's answer, and each event has exactly one
/// receipt. It first opens the streams, as `find_schedule` does.
///
/// The faults, in order: `Foreign`, `Missing`, `Uncaused`, and `OutOfMemory` wherever a growth of memory is refused.
pub fn settle<D: Device + Drop>(
    alloc: Global,
    histories: &[History],
    receipts: &[Receipt],
) -> Result<Settled, Unsettled>
    requires accepts { AcceptsAll D.accepts }
    requires valid { world_fault (configs_of histories.now) ≡ None }
    ensures settled { IfOk result (λ settled. SettlesAll histories.now receipts.now settled.schedule) }
    ensures unsettled { IfErr result (WhyNot histories.now receipts.now) }
{
    let marks = marks_of::<D>(alloc, histories, receipts)?;
    if let Some((device, place)) = first_missing(histories, &marks) {
        let byte = byte_at(histories, device);
        return Err(Unsettled::Missing(byte, place as u64));
    }
    match find_schedule::<D>(alloc, histories) {
        Ok(acts) => Ok(Settled {
            schedule: Items::from_vec(acts),
        }),
        Err(Unplaced::Uncaused(device, place)) => {
            let byte = byte_at(histories, device);
            Err(Unsettled::Uncaused(byte, place as u64))
        }
        Err(Unplaced::OutOfMemory) => Err(Unsettled::OutOfMemory),
    }
}
