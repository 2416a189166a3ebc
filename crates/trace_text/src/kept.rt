//! An outcome that may be recorded, in memory of its own.

ghost use Rattle.std.specs.Prelude.{◌≡◌, None, IfOk, option_map};

use cip_events::Outcome;
use cip_types::OutOfMemory;
use std::alloc::Global;
use std::marker::Model;

/// The recorded outcome of an event, if there is one. None takes 16 bytes, and an outcome 112.
#[derive(Drop)]
pub struct Recorded {
    kept: Option<Box<Outcome>>,
}

impl Model for Recorded {
    ghost use Rattle.std.specs.Prelude.{Option, option_map};
    ghost use Rattle.cip_events.specs.Outcomes.{Outcome};

    ghost Value = { Option Outcome };

    ghost view = { λ recorded. option_map (λ kept. kept.value) recorded.kept };
}

impl Recorded {
    /// No recorded outcome. Takes no memory.
    pub fn nothing() -> Recorded
        ensures { result ≡ None }
    {
        Recorded { kept: None }
    }

    /// This recorded outcome, in memory of its own.
    pub fn of(alloc: Global, outcome: Option<Outcome>) -> Result<Recorded, OutOfMemory>
        ensures { IfOk result (λ recorded. recorded ≡ outcome) }
    {
        let Some(outcome) = outcome else {
            return Ok(Recorded::nothing());
        };
        let kept = Box::new(alloc, outcome)?;
        Ok(Recorded { kept: Some(kept) })
    }

    /// The recorded outcome.
    pub fn get(&self) -> Option<&Outcome>
        ensures { option_map (λ outcome. outcome.now) result ≡ self.now }
    {
        self.kept.as_deref()
    }
}
