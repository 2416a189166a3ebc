//! Steps a device by the events of a trace, and compares its outcomes with the recorded ones.
#![tactic(auto)]

mod compared;
mod player;
mod stepper;
mod writing;

pub use compared::{Differs, agrees, compare};
pub use player::play;
pub use stepper::{Report, Stepper, StepperFault, replay};
pub use writing::{NotTaken, write_text};
