//! Entries of a trace, played at a device.

ghost use Rattle.std.specs.Prelude.{◌≡◌, None, IfOk, IfErr, OnOk, string_bytes};
ghost use Rattle.cip_tables.specs.Run.{outcome_of, table_of};
ghost use Rattle.cip_tables.specs.Step.{config_fault, opening_table, step};
ghost use Rattle.trace_outcomes.specs.WrittenOutcomes.{outcome_text};
ghost use Rattle.trace_stepper.specs.Stepping.{IsRefused};
ghost use Rattle.trace_files.specs.Playing.{JudgesOn, StepsTo, WritesOutcome};
ghost use Rattle.trace_files.specs.Profile.{one_more};

use crate::entry_reader::TraceEntry;
use cip_tables::{Config, Device, Event, NewFault, Outcome};
use cip_types::OutOfMemory;
use std::alloc::Global;
use std::io::Write;
use trace_outcomes::{has_sum, is_out_of_memory};
use trace_stepper::{StepperFault, agrees, write_text};
use trace_text::push_outcome;

/// A device that takes the entries of a trace one by one; their number so far; and the number of the first one whose
/// recorded outcome was not given.
#[derive(Drop)]
pub struct Player<D> {
    device: D,
    count: u64,
    differs: Option<u64>,
    text: String,
}

impl<D: Device + Drop> Player<D> {
    /// A fresh device of a configuration.
    ///
    /// The faults, in order: `Profile`, `WrongKind`, `OutOfMemory`.
    pub fn new(alloc: Global, config: Config) -> Result<Player<D>, StepperFault>
        ensures table { IfOk result (λ player. D.table player.device ≡ opening_table config) }
        ensures count { IfOk result (λ player. player.count ≡ 0) }
        ensures differs { IfOk result (λ player. player.differs ≡ None) }
        ensures fault { IfErr result (IsRefused (config_fault config) (D.accepts config)) }
    {
        match D::new(alloc, config) {
            Ok(device) => Ok(Player {
                device,
                count: 0,
                differs: None,
                text: String::new(alloc),
            }),
            Err(NewFault::Profile(_)) => Err(StepperFault::Profile),
            Err(NewFault::WrongKind) => Err(StepperFault::WrongKind),
            Err(NewFault::OutOfMemory) => Err(StepperFault::OutOfMemory),
        }
    }

    /// The number, from 1, of the first entry whose recorded outcome was not given.
    pub fn differs(&self) -> Option<u64>
        ensures { result ≡ self.now.differs }
    {
        self.differs
    }

    /// Steps the device by the event of the next entry, and writes the outcome.
    ///
    /// The faults: `OutOfMemory`, and `Write` if the stream did not take the text.
    pub fn play<O: Write>(&mut self, entry: &TraceEntry, out: &mut O) -> Result<(), StepperFault>
        ensures written { WritesOutcome (step (D.table self.old.device) entry.now.event) (one_more self.old.count)
            (O.contents out.old) (O.contents out.new) result }
        ensures table { OnOk result (D.table self.new.device
            ≡ table_of (D.table self.old.device) (step (D.table self.old.device) entry.now.event)) }
        ensures count { OnOk result (self.new.count ≡ one_more self.old.count) }
        ensures differs { OnOk result (JudgesOn self.old.differs entry.now
            (outcome_of (step (D.table self.old.device) entry.now.event)) (one_more self.old.count) self.new.differs) }
    {
        let outcome = step_of(&mut self.device, &entry.event)?;
        self.count = self.count.saturating_add(1);
        write_outcome(&mut self.text, self.count, &outcome)?;
        write_text(out, self.text.as_bytes())?;
        self.differs = judge(
            self.differs,
            entry,
            &outcome,
            self.count,
            self.text.as_bytes(),
        );
        Ok(())
    }
}

/// The outcome of an event at a device. OutOfMemory is the only fault.
pub(crate) fn step_of<D: Device>(device: &mut D, event: &Event) -> Result<Outcome, OutOfMemory>
    ensures { StepsTo (step (D.table device.old) event.now) (D.table device.old) result (D.table device.new) }
{
    let outcome = device.step(event);
    if is_out_of_memory(&outcome) {
        Err(OutOfMemory)
    } else {
        Ok(outcome)
    }
}

/// Makes the text of an outcome.
pub(crate) fn write_outcome(
    text: &mut String,
    number: u64,
    outcome: &Outcome,
) -> Result<(), OutOfMemory>
    ensures { OnOk result (string_bytes text.new ≡ outcome_text number outcome.now) }
{
    text.clear();
    push_outcome(text, number, outcome)
}

/// The number of the first entry whose recorded outcome was not given, with the entry of this number more. The text has the
/// lines of the outcome.
fn judge(
    differs: Option<u64>,
    entry: &TraceEntry,
    outcome: &Outcome,
    number: u64,
    text: &[u8],
) -> Option<u64>
    requires { text.now ≡ outcome_text number outcome.now }
    ensures { JudgesOn differs entry.now outcome.now number result }
{
    if differs.is_some() {
        return differs;
    }
    if agrees(&entry.recorded, Some(outcome)) && has_sum(text, outcome, entry.sum) {
        None
    } else {
        Some(number)
    }
}
