//! A device, and the answer of its last event.

ghost use Rattle.cip_events.specs.declared.event.Event.TheVariants.{Write};
ghost use Rattle.cip_tables.specs.Step.{step};
ghost use Rattle.eip_c.specs.Calls.{table_of, state, Answers, Keeps, Kept, Reads};
ghost use Rattle.eip_c.specs.Statuses.{status_of};

use crate::room::{copy_out, report};
use crate::status::fault_number;
use cip_events::{Answer, Event, Outcome, StepFault};
use cip_tables::Device;
use fast_device::FastDevice;

/// A device, and the answer of its last event that was not refused, if there was one.
#[derive(Drop)]
pub struct AnsweredDevice {
    pub device: FastDevice,
    pub answer: Option<Answer>,
}

impl AnsweredDevice {
    /// Performs an event, keeps its answer and writes it.
    pub fn perform(&mut self, event: &Event, out: &mut [u8], size: &mut usize) -> u32
        ensures { Answers event.now self.old result self.new (out.old, size.old) (out.new, size.new) }
    {
        match self.step(event) {
            Ok(()) => report(&self.answer, out, size),
            Err(fault) => fault_number(fault),
        }
    }

    /// Writes a point, keeps the answer and writes it.
    pub fn write(&mut self, point: u32, bytes: &[u8], out: &mut [u8], size: &mut usize) -> u32
        ensures { Answers (Write point bytes.now) self.old result self.new (out.old, size.old) (out.new, size.new) }
    {
        match self.write_point(point, bytes) {
            Ok(()) => report(&self.answer, out, size),
            Err(fault) => fault_number(fault),
        }
    }

    /// Writes the value of a point to the caller.
    pub fn value(&self, point: u32, out: &mut [u8], size: &mut usize) -> u32
        ensures { Reads (table_of self.now.device) point
            (status_of result) (out.old, size.old) (out.new, size.new) }
    {
        match self.device.read_point(point) {
            Ok(bytes) => copy_out(bytes, out, size),
            Err(fault) => fault_number(fault),
        }
    }

    fn step(&mut self, event: &Event) -> Result<(), StepFault>
        ensures { Keeps (step (table_of self.old.device) event.now) (state self.old) result (state self.new) }
    {
        let outcome = self.device.step(event);
        keep(&mut self.answer, outcome)
    }

    fn write_point(&mut self, point: u32, bytes: &[u8]) -> Result<(), StepFault>
        ensures { Keeps (step (table_of self.old.device) (Write point bytes.now)) (state self.old) result
            (state self.new) }
    {
        let outcome = self.device.write_point(point, bytes);
        keep(&mut self.answer, outcome)
    }
}

/// Keeps the answer of an outcome in the place of another.
fn keep(kept: &mut Option<Answer>, outcome: Outcome) -> Result<(), StepFault>
    ensures { Kept outcome kept.old result kept.new }
{
    match outcome {
        Ok(answer) => {
            *kept = Some(answer);
            Ok(())
        }
        Err(fault) => Err(fault),
    }
}
