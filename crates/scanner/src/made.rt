//! The first state of the slots, and copies of their table.

ghost use Rattle.std.specs.Prelude.{◌≡◌, map, IfOk};
ghost use Rattle.scanner_table.specs.Step.{fresh_slot, first_serial, scanner_table};
ghost use Rattle.scanner.specs.Tables.{table_in};

use crate::slots::ScannerSlots;
use cip_types::{Items, Ms, OutOfMemory, one_block};
use scanner_slots::ScannerState;
use scanner_table::{ScannerProfile, ScannerTable, Slot, SlotConfig, SlotState, copy_of_slots};
use std::alloc::Global;

/// Makes a slot before its first start.
fn fresh_slot(alloc: Global, config: &SlotConfig) -> Result<Slot, OutOfMemory>
    ensures { IfOk result (λ slot. slot ≡ fresh_slot config.now) }
{
    let output = Items::zeros(alloc, config.out_len as usize)?;
    let image = Items::zeros(alloc, config.in_len as usize)?;
    Ok(Slot {
        state: SlotState::Idle,
        desired_up: false,
        retry_at: Ms(0),
        output,
        image,
    })
}

fn fresh_slots(alloc: Global, configs: &[SlotConfig]) -> Result<Vec<Slot>, OutOfMemory>
    ensures { IfOk result (λ slots. slots.items ≡ map fresh_slot configs.now) }
{
    let mut slots = Vec::new(alloc);
    for config in configs {
        slots.push(fresh_slot(alloc, config)?)?;
    }
    Ok(slots)
}

/// Returns the connection serial number of the first opening.
fn first_serial(serials: Option<u16>) -> u16
    ensures { result ≡ first_serial serials }
{
    serials.unwrap_or(1)
}

impl ScannerSlots {
    /// Makes the slots of a fresh scanner.
    pub fn fresh(alloc: Global, profile: ScannerProfile) -> Result<Self, OutOfMemory>
        ensures { IfOk result (λ slots. table_in slots ≡ scanner_table profile) }
    {
        let slots = fresh_slots(alloc, profile.slots.as_slice())?;
        let state = ScannerState {
            slots,
            run: false,
            clock: Ms(0),
            ids: one_block(alloc, profile.first_ids())?,
            next_id: 1,
            next_serial: first_serial(profile.serials),
            next_request: 1,
            streams: Vec::new(alloc),
            explicit: Vec::new(alloc),
        };
        Ok(ScannerSlots {
            alloc,
            profile,
            state,
        })
    }

    /// Makes the slots of a scanner with this table.
    pub fn from_table(alloc: Global, table: &ScannerTable) -> Result<Self, OutOfMemory>
        ensures { IfOk result (λ slots. table_in slots ≡ table.now) }
    {
        let profile = table.profile.copy(alloc)?;
        let state = ScannerState {
            slots: copy_of_slots(alloc, table.slots.as_slice())?,
            run: table.run,
            clock: table.clock,
            ids: Vec::from_slice(alloc, table.ids.as_slice())?,
            next_id: table.next_id,
            next_serial: table.next_serial,
            next_request: table.next_request,
            streams: Vec::from_slice(alloc, table.streams.as_slice())?,
            explicit: Vec::from_slice(alloc, table.explicit.as_slice())?,
        };
        Ok(ScannerSlots {
            alloc,
            profile,
            state,
        })
    }

    /// Copies the table.
    pub fn copy(&self) -> Result<ScannerTable, OutOfMemory>
        ensures { IfOk result (λ table. table ≡ table_in self.now) }
    {
        Ok(ScannerTable {
            profile: self.profile.copy(self.alloc)?,
            slots: Items::from_vec(copy_of_slots(self.alloc, &self.state.slots)?),
            run: self.state.run,
            clock: self.state.clock,
            ids: Items::copy_of(self.alloc, &self.state.ids)?,
            next_id: self.state.next_id,
            next_serial: self.state.next_serial,
            next_request: self.state.next_request,
            streams: Items::copy_of(self.alloc, &self.state.streams)?,
            explicit: Items::copy_of(self.alloc, &self.state.explicit)?,
        })
    }
}
