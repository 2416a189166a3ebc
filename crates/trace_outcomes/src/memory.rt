//! Want of memory as the outcome of an event.

ghost use Rattle.std.specs.Prelude.{◌≡◌, ◌↔◌, Err, IsTrue};

use cip_events::{Outcome, StepFault};

/// Whether an allocation was refused.
pub fn is_out_of_memory(outcome: &Outcome) -> bool
    ensures { IsTrue result ↔ (outcome.now ≡ Err StepFault.OutOfMemory) }
{
    match outcome {
        Err(StepFault::OutOfMemory) => true,
        _ => false,
    }
}
