//! Observers, which are handed each step of a device.

ghost use Rattle.std.specs.Prelude.{◌≡◌};

use cip_events::{Delivery, Event, Outcome};
use cip_tables::Device;

/// Sees the steps of a device, one after another: a recorder, a printer, a counter.
///
/// Contracts see what it makes of a step as a relation of its own, `notes`: from the observer before the step, by the
/// event and its outcome, to the observer after it.
pub trait Observer {
    ghost use Rattle.std.specs.Prelude.{Ok};
    ghost use Rattle.cip_events.specs.declared.event.Event.{Event};
    ghost use Rattle.cip_events.specs.declared.event.Verdict.TheVariants.{Delivered};
    ghost use Rattle.cip_events.specs.Answers.{plain_answer};
    ghost use Rattle.cip_events.specs.Outcomes.{Outcome};

    ghost notes: { Self → Event → Outcome → Self → Type 0 };

    /// The device was stepped by this event, with this outcome, and is as it was left. Its answer is not sent yet.
    fn stepped<D: Device>(&mut self, device: &D, event: &Event, outcome: &Outcome)
        ensures { notes self.old event.now outcome.now self.new };

    /// The device was delivered the datagram of this event, and is as it was left: a step whose answer has this verdict alone.
    fn delivered<D: Device>(&mut self, device: &D, event: &Event, delivery: Delivery)
        ensures { notes self.old event.now (Ok (plain_answer (Delivered delivery))) self.new };
}

/// An observer that does nothing.
#[derive(Clone, Copy)]
pub struct Unobserved;

impl Observer for Unobserved {
    ghost notes = { λ old event outcome new. new ≡ old };

    fn stepped<D: Device>(&mut self, _device: &D, _event: &Event, _outcome: &Outcome) {}

    fn delivered<D: Device>(&mut self, _device: &D, _event: &Event, _delivery: Delivery) {}
}
