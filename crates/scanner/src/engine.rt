//! A scanner over its slots.

use crate::slots::ScannerSlots;
use cip_tables::{
    AnyConnection, Class3Report, Config, ConnectionReport, ConsumerCounts, Delivery, Device,
    DeviceTable, DeviceTotals, Event, NewFault, Outcome, SlotReport, StepFault, StreamReport,
    TableCopy,
};
use cip_types::{Ms, Node, OutOfMemory, Triad};
use scanner_data::{receive, slot_report};
use scanner_slots::Hints;
use scanner_table::{fresh_tables_are_whole, steps_keep_tables_whole};
use std::alloc::Global;
use std::marker::Model;

/// A scanner over its slots, which contracts see as its table.
///
/// It keeps the allocator that it was made with. What it remembers beside its slots shows in no outcome.
#[derive(Drop)]
pub struct Scanner<H: Hints> {
    slots: ScannerSlots,
    hints: H,
}

impl<H: Hints> Model for Scanner<H> {
    ghost use Rattle.scanner_table.specs.declared.table.ScannerTable.{ScannerTable};
    ghost use Rattle.scanner_table.specs.Whole.{IsWholeScanner};
    ghost use Rattle.scanner_slots.specs.Bounding.{IsHinted};
    ghost use Rattle.scanner.specs.Tables.{table_in};

    ghost Value = { ScannerTable };

    ghost view = { λ s. table_in s.slots };

    ghost invariant = { λ s. IsWholeScanner (table_in s.slots) × IsHinted (H.bounds s.hints) (table_in s.slots) };
}

impl<H: Hints> Device for Scanner<H> {
    ghost use Rattle.cip_tables.specs.declared.table.DeviceTable.{DeviceTable};
    ghost use Rattle.cip_tables.specs.Step.{makes_scanner};

    ghost table = { λ scanner. DeviceTable.Scanner scanner };

    ghost accepts = { makes_scanner };

    fn is_accepted(config: &Config) -> bool {
        match config {
            Config::Adapter(_) => false,
            Config::Scanner(_) => true,
        }
    }

    fn new(alloc: Global, config: Config) -> Result<Self, NewFault> {
        let profile = match config {
            Config::Scanner(profile) => profile,
            Config::Adapter(profile) => {
                profile.check()?;
                return Err(NewFault::WrongKind);
            }
        };
        profile.check()?;
        // The fresh table is whole, since the profile has no fault.
        fresh_tables_are_whole();
        let slots = ScannerSlots::fresh(alloc, profile)?;
        Ok(Scanner {
            slots,
            hints: H::new(),
        })
    }

    #[inline(always)]
    #[tactic(auto, unfolding(cip_tables::specs::Step::step), using(cip_tables::specs::FollowLaws::scanner_follows, crate::proofs::Kept::follows_kept))]
    fn step(&mut self, event: &Event) -> Outcome {
        // The next table is whole, as the invariant of this type says.
        steps_keep_tables_whole();
        match event {
            Event::Tick { ms } => self.slots.tick(&mut self.hints, *ms),
            _ => self.slots.take_event(&mut self.hints, event),
        }
    }

    #[tactic(auto, unfolding(cip_tables::specs::Step::step), using(crate::proofs::Kept::received_kept))]
    fn deliver(&mut self, peer: Node, bytes: &[u8]) -> Delivery {
        // The next table is whole, as the invariant of this type says.
        steps_keep_tables_whole();
        receive(
            &self.slots.profile,
            &mut self.slots.state,
            &mut self.hints,
            peer,
            bytes,
        )
    }

    #[tactic(auto, unfolding(cip_tables::specs::Step::step), using(cip_tables::specs::FollowLaws::scanner_follows, crate::proofs::Kept::written_kept))]
    fn write_point(&mut self, point: u32, bytes: &[u8]) -> Outcome {
        // The next table is whole, as the invariant of this type says.
        steps_keep_tables_whole();
        self.slots.write(&mut self.hints, point, bytes)
    }

    #[tactic(auto, unfolding(cip_tables::specs::Step::step, scanner_table::specs::Points::read))]
    fn read_point(&self, point: u32) -> Result<&[u8], StepFault> {
        self.slots.image_at(point)
    }

    fn copy(&self) -> Result<TableCopy, OutOfMemory> {
        Ok(TableCopy::scanner(self.slots.copy()?))
    }

    #[tactic(auto, unfolding(cip_tables::specs::Step::step), using(crate::proofs::Waking::device_rests))]
    fn next_wake(&self) -> Ms {
        self.slots.due_in()
    }

    fn owner(&self, _output: u32) -> Option<ConnectionReport> {
        None
    }

    fn consumers(&self, _input: u32) -> ConsumerCounts {
        ConsumerCounts {
            exclusive_owners: 0,
            input_only: 0,
            listen_only: 0,
        }
    }

    fn connection(&self, _place: u32) -> Option<ConnectionReport> {
        None
    }

    fn class3_connection(&self, _place: u32) -> Option<Class3Report> {
        None
    }

    fn connection_of(&self, _triad: Triad) -> Option<AnyConnection> {
        None
    }

    fn slot(&self, number: u32) -> Option<SlotReport> {
        slot_report(&self.slots.profile, &self.slots.state, number)
    }

    fn stream(&self, place: u32) -> Option<StreamReport> {
        self.slots.stream(place)
    }

    fn totals(&self) -> DeviceTotals {
        self.slots.totals()
    }

    fn is_whole(&self) {
        // Reading a field gives the prover the invariant of this type.
        let _clock = self.slots.state.clock;
    }
}

impl<H: Hints> Scanner<H> {
    ghost use Rattle.std.specs.Prelude.{◌≡◌, not, None, IfOk, IfErr};
    ghost use Rattle.cip_events.specs.Faults.{IsRefusedAs};
    ghost use Rattle.cip_tables.specs.declared.table.DeviceTable.{DeviceTable};
    ghost use Rattle.cip_tables.specs.Step.{is_adapter};

    /// Makes a scanner that goes on from a copied table.
    ///
    /// The errors, in order: `WrongKind` if the copy is of an adapter's table; `OutOfMemory`.
    pub fn from_copy(alloc: Global, copy: &TableCopy) -> Result<Self, NewFault>
        ensures table { IfOk result (λ scanner. DeviceTable.Scanner scanner ≡ copy.now) }
        ensures fault { IfErr result (λ fault. IsRefusedAs None (not (is_adapter copy.now)) fault) }
    {
        let DeviceTable::Scanner(table) = copy.table() else {
            return Err(NewFault::WrongKind);
        };
        let slots = ScannerSlots::from_table(alloc, table)?;
        Ok(Scanner {
            slots,
            hints: H::new(),
        })
    }
}
