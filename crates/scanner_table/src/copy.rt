//! Copies of profiles and tables, and a table with a later number for the next connection id.

ghost use Rattle.std.specs.Prelude.{◌≡◌, ◌≤◌, ◌↔◌, IfOk, IsTrue};
ghost use Rattle.cip_types.specs.Ids.{end_number};
ghost use Rattle.scanner_table.specs.WellFormed.{IsWellFormed};

use crate::profile::{ScannerProfile, SlotConfig};
use crate::slot::Slot;
use crate::table::ScannerTable;
use cip_types::{Items, OutOfMemory};
use std::alloc::Global;

impl SlotConfig {
    /// Copies the configuration of a slot. `OutOfMemory` is the only error.
    pub fn copy(&self, alloc: Global) -> Result<SlotConfig, OutOfMemory>
        ensures { IfOk result (λ copy. copy ≡ self.now) }
    {
        let config_data = Items::copy_of(alloc, self.config_data.as_slice())?;
        Ok(SlotConfig {
            target: self.target,
            kind: self.kind,
            config: self.config,
            consumed: self.consumed,
            produced: self.produced,
            out_len: self.out_len,
            in_len: self.in_len,
            o_t_rpi: self.o_t_rpi,
            t_o_rpi: self.t_o_rpi,
            mult: self.mult,
            multicast: self.multicast,
            key: self.key,
            config_data,
            trigger: self.trigger,
            inhibit: self.inhibit,
        })
    }
}

/// Copies the configurations of all slots, in order.
fn copy_slots(alloc: Global, slots: &[SlotConfig]) -> Result<Items<SlotConfig>, OutOfMemory>
    ensures { IfOk result (λ copies. copies ≡ slots.now) }
{
    let mut copies = Vec::new(alloc);
    for slot in slots {
        copies.push(slot.copy(alloc)?)?;
    }
    Ok(Items::from_vec(copies))
}

impl ScannerProfile {
    /// Copies the profile. `OutOfMemory` is the only error.
    pub fn copy(&self, alloc: Global) -> Result<ScannerProfile, OutOfMemory>
        ensures { IfOk result (λ copy. copy ≡ self.now) }
    {
        let slots = copy_slots(alloc, self.slots.as_slice())?;
        Ok(ScannerProfile {
            incarnation: self.incarnation,
            node: self.node,
            vendor: self.vendor,
            serial: self.serial,
            open_timeout: self.open_timeout,
            retry: self.retry,
            newer: self.newer,
            tidy: self.tidy,
            openings: self.openings,
            serials: self.serials,
            ids: self.ids,
            slots,
        })
    }
}

impl Slot {
    /// Copies the slot, with its output and its image. `OutOfMemory` is the only error.
    pub fn copy(&self, alloc: Global) -> Result<Slot, OutOfMemory>
        ensures { IfOk result (λ copy. copy ≡ self.now) }
    {
        let output = Items::copy_of(alloc, self.output.as_slice())?;
        let image = Items::copy_of(alloc, self.image.as_slice())?;
        Ok(Slot {
            state: self.state,
            desired_up: self.desired_up,
            retry_at: self.retry_at,
            output,
            image,
        })
    }
}

/// Copies slots with their outputs and images, in order. `OutOfMemory` is the only error.
pub fn copy_of_slots(alloc: Global, slots: &[Slot]) -> Result<Vec<Slot>, OutOfMemory>
    ensures { IfOk result (λ copies. copies.items ≡ slots.now) }
{
    let mut copies = Vec::new(alloc);
    for slot in slots {
        copies.push(slot.copy(alloc)?)?;
    }
    Ok(copies)
}

impl ScannerTable {
    /// Copies the table. `OutOfMemory` is the only error.
    pub fn copy(&self, alloc: Global) -> Result<ScannerTable, OutOfMemory>
        ensures { IfOk result (λ copy. copy ≡ self.now) }
    {
        let profile = self.profile.copy(alloc)?;
        let slots = Items::from_vec(copy_of_slots(alloc, self.slots.as_slice())?);
        let streams = Items::copy_of(alloc, self.streams.as_slice())?;
        let explicit = Items::copy_of(alloc, self.explicit.as_slice())?;
        let ids = Items::copy_of(alloc, self.ids.as_slice())?;
        Ok(ScannerTable {
            profile,
            slots,
            run: self.run,
            clock: self.clock,
            ids,
            next_id: self.next_id,
            next_serial: self.next_serial,
            next_request: self.next_request,
            streams,
            explicit,
        })
    }

    /// Returns whether two tables are equal. Takes no memory.
    pub fn same(&self, other: &ScannerTable) -> bool
        ensures { IsTrue result ↔ (self.now ≡ other.now) }
    {
        self == other
    }

    /// Moves the number of the next connection id forward. Takes no memory.
    ///
    /// The new number is no less than the present one, and at most that behind the last id of the table's blocks. Without a
    /// stated block that is 16,777,216.
    pub fn with_next_id(self, counter: u32) -> ScannerTable
        requires whole { IsWellFormed self }
        requires later { self.next_id ≤ counter }
        requires last { counter ≤ end_number self.ids }
        ensures value { result ≡ record self { next_id = counter } }
        ensures whole { IsWellFormed result }
    {
        ScannerTable {
            next_id: counter,
            ..self
        }
    }
}
