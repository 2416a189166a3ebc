//! Entries of a record, of which each one with a sum gets the outcome of the device.

ghost use Rattle.std.specs.Prelude.{◌≡◌, None, Some, IfOk, IfErr, OnOk};
ghost use Rattle.cip_tables.specs.Run.{outcome_of, table_of};
ghost use Rattle.cip_tables.specs.Step.{config_fault, opening_table, step};
ghost use Rattle.trace_stepper.specs.Stepping.{IsRefused};
ghost use Rattle.trace_outcomes.specs.WrittenOutcomes.{outcome_text};
ghost use Rattle.trace_files.specs.Playing.{IsFilled, SumsOn};
ghost use Rattle.trace_files.specs.Profile.{one_more};

use crate::entry_reader::TraceEntry;
use crate::player::{step_of, write_outcome};
use cip_tables::{Config, Device, Event, NewFault, Outcome};
use cip_types::OutOfMemory;
use std::alloc::Global;
use trace_outcomes::{OutcomeSum, has_sum};
use trace_stepper::StepperFault;
use trace_text::Recorded;

/// A device that takes the entries of a record one by one, and gives its outcome to each that has a sum in its place; their
/// number so far; and the number of the first one that has another sum than this outcome.
#[derive(Drop)]
pub struct Filler<D> {
    alloc: Global,
    device: D,
    count: u64,
    differs: Option<u64>,
    text: String,
}

impl<D: Device + Drop> Filler<D> {
    /// A fresh device of a configuration.
    ///
    /// The faults, in order: `Profile`, `WrongKind`, `OutOfMemory`.
    pub fn new(alloc: Global, config: Config) -> Result<Filler<D>, StepperFault>
        ensures table { IfOk result (λ filler. D.table filler.device ≡ opening_table config) }
        ensures count { IfOk result (λ filler. filler.count ≡ 0) }
        ensures differs { IfOk result (λ filler. filler.differs ≡ None) }
        ensures fault { IfErr result (IsRefused (config_fault config) (D.accepts config)) }
    {
        match D::new(alloc, config) {
            Ok(device) => Ok(Filler {
                alloc,
                device,
                count: 0,
                differs: None,
                text: String::new(alloc),
            }),
            Err(NewFault::Profile(_)) => Err(StepperFault::Profile),
            Err(NewFault::WrongKind) => Err(StepperFault::WrongKind),
            Err(NewFault::OutOfMemory) => Err(StepperFault::OutOfMemory),
        }
    }

    /// The number, from 1, of the first entry that has another sum than the outcome which the device gave.
    pub fn differs(&self) -> Option<u64>
        ensures { result ≡ self.now.differs }
    {
        self.differs
    }

    /// Steps the device by the event of the next entry, and answers the entry: with the device's outcome where a sum is
    /// recorded, and else as it is. OutOfMemory is the only fault.
    pub fn fill(&mut self, entry: TraceEntry) -> Result<(Event, Recorded), OutOfMemory>
        ensures filled { IsFilled entry (step (D.table self.old.device) entry.event) result }
        ensures table { OnOk result (D.table self.new.device
            ≡ table_of (D.table self.old.device) (step (D.table self.old.device) entry.event)) }
        ensures count { OnOk result (self.new.count ≡ one_more self.old.count) }
        ensures differs { OnOk result (SumsOn self.old.differs entry.sum
            (outcome_of (step (D.table self.old.device) entry.event)) (one_more self.old.count) self.new.differs) }
    {
        let TraceEntry {
            event,
            recorded,
            sum,
        } = entry;
        let outcome = step_of(&mut self.device, &event)?;
        self.count = self.count.saturating_add(1);
        let Some(sum) = sum else {
            return Ok((event, recorded));
        };
        write_outcome(&mut self.text, self.count, &outcome)?;
        self.differs = judge_sum(
            self.differs,
            sum,
            &outcome,
            self.count,
            self.text.as_bytes(),
        );
        let filled = Recorded::of(self.alloc, Some(outcome))?;
        Ok((event, filled))
    }
}

/// The number of the first entry that has another sum than its outcome, with the entry of this number more. The text has the
/// lines of the outcome.
fn judge_sum(
    differs: Option<u64>,
    sum: OutcomeSum,
    outcome: &Outcome,
    number: u64,
    text: &[u8],
) -> Option<u64>
    requires { text.now ≡ outcome_text number outcome.now }
    ensures { SumsOn differs (Some sum) outcome.now number result }
{
    if differs.is_some() {
        return differs;
    }
    if has_sum(text, outcome, Some(sum)) {
        None
    } else {
        Some(number)
    }
}
