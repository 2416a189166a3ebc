//! A device that is stepped by the events of a trace.

ghost use Rattle.std.specs.Prelude.{◌≡◌, true, None, IfOk, IfErr, drop};
ghost use Rattle.cip_tables.specs.Step.{opening_table, config_fault};
ghost use Rattle.trace_stepper.specs.Stepping.{outcomes_of_trace, MovesOn, IsRefused};

use crate::writing::NotTaken;
use cip_tables::{Device, NewFault, Outcome};
use cip_types::{Items, OutOfMemory};
use std::alloc::{AllocFailed, Global};
use thiserror::Error;
use trace_outcomes::is_out_of_memory;
use trace_text::Trace;

/// Why a trace was not played to its end. A new fault gets a number behind these.
#[derive(Clone, Copy, Debug, PartialEq, Eq, Error)]
pub enum StepperFault {
    /// The profile of the trace is wrong.
    #[error("bad profile")]
    Profile = 1,
    /// An allocation was refused.
    #[error("no memory")]
    OutOfMemory = 2,
    /// The device is not made of such a configuration.
    #[error("wrong kind of device")]
    WrongKind = 3,
    /// The outcomes could not be written.
    #[error("fault Write")]
    Write = 4,
}

impl From<OutOfMemory> for StepperFault {
    ghost use Rattle.trace_stepper.specs.declared.stepper.StepperFault.TheVariants as fault;

    ghost from_gives = { λ _ f. f ≡ fault.OutOfMemory };

    fn from(_error: OutOfMemory) -> StepperFault {
        StepperFault::OutOfMemory
    }
}

impl From<NotTaken> for StepperFault {
    ghost use Rattle.trace_stepper.specs.declared.stepper.StepperFault.TheVariants as fault;

    ghost from_gives = { λ _ f. f ≡ fault.Write };

    fn from(_error: NotTaken) -> StepperFault {
        StepperFault::Write
    }
}

impl<T: Drop> From<AllocFailed<T>> for StepperFault {
    ghost use Rattle.trace_stepper.specs.declared.stepper.StepperFault.TheVariants as fault;

    ghost from_gives = { λ _ f. f ≡ fault.OutOfMemory };

    fn from(_refused: AllocFailed<T>) -> StepperFault {
        StepperFault::OutOfMemory
    }
}

/// A device of a trace's configuration, and the index of the trace's next event.
#[derive(Drop)]
pub struct Stepper<'a, D> {
    device: D,
    trace: &'a Trace,
    place: usize,
}

impl<'a, D: Device> Stepper<'a, D> {
    /// A fresh device before the first event of a trace.
    ///
    /// The faults, in order: `Profile`, `WrongKind`, `OutOfMemory`.
    pub fn new(alloc: Global, trace: &'a Trace) -> Result<Stepper<'a, D>, StepperFault>
        ensures table { IfOk result (λ stepper. D.table stepper.device ≡ opening_table trace.now.config) }
        ensures events { IfOk result (λ stepper. drop stepper.place stepper.trace.now.events ≡ trace.now.events) }
        ensures good { IfOk result (λ _. config_fault trace.now.config ≡ None) }
        ensures kind { IfOk result (λ _. D.accepts trace.now.config ≡ true) }
        ensures fault { IfErr result (IsRefused (config_fault trace.now.config) (D.accepts trace.now.config)) }
    {
        if trace.check().is_err() {
            return Err(StepperFault::Profile);
        }
        if !D::is_accepted(&trace.config) {
            return Err(StepperFault::WrongKind);
        }
        let Ok(config) = trace.config.copy(alloc) else {
            return Err(StepperFault::OutOfMemory);
        };
        match D::new(alloc, config) {
            Ok(device) => Ok(Stepper {
                device,
                trace,
                place: 0,
            }),
            Err(NewFault::Profile(_)) => Err(StepperFault::Profile),
            Err(NewFault::WrongKind) => Err(StepperFault::WrongKind),
            Err(NewFault::OutOfMemory) => Err(StepperFault::OutOfMemory),
        }
    }

    /// Steps the device by the next event, and answers the outcome; None after the last event. The one fault is
    /// `OutOfMemory`: then the same event is next again.
    pub fn next(&mut self) -> Result<Option<Outcome>, StepperFault>
        ensures { MovesOn (D.table self.old.device) (drop self.old.place self.old.trace.now.events) result
            (D.table self.new.device) (drop self.new.place self.new.trace.now.events) }
    {
        let Some(entry) = self.trace.events.as_slice().get(self.place) else {
            return Ok(None);
        };
        let outcome = self.device.step(&entry.0);
        if is_out_of_memory(&outcome) {
            return Err(StepperFault::OutOfMemory);
        }
        self.place += 1;
        Ok(Some(outcome))
    }
}

/// The outcomes of all events of a trace.
#[derive(Drop)]
pub struct Report {
    pub outcomes: Items<Outcome>,
}

/// The outcomes of a trace's events at a fresh device.
///
/// The faults, in order: `Profile`, `WrongKind`, and `OutOfMemory` wherever an allocation was refused.
pub fn replay<D: Device + Drop>(alloc: Global, trace: &Trace) -> Result<Report, StepperFault>
    ensures outcomes { IfOk result (λ report. report.outcomes ≡ outcomes_of_trace trace.now) }
    ensures fault { IfErr result (IsRefused (config_fault trace.now.config) (D.accepts trace.now.config)) }
{
    let mut stepper: Stepper<'_, D> = Stepper::new(alloc, trace)?;
    let mut outcomes = Vec::new(alloc);
    while let Some(outcome) = stepper.next()? {
        outcomes.push(outcome)?;
    }
    Ok(Report {
        outcomes: Items::from_vec(outcomes),
    })
}
