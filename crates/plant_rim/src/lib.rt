//! A plant: its file, and what its threads share: the jobs that they take, the steps that are typed at their devices, the lines
//! that they print under the names of devices, and the incarnations of their lives.
//!
//! `file` reads the file of a plant. A text becomes the step of a device in `file` and in `typed`.
#![tactic(auto)]

mod board;
mod counts;
mod failure;
mod file;
mod incarnations;
mod jobs;
mod named;
mod phases;
mod step_queue;
mod typed;
mod typed_steps;

pub use board::{PlantState, ScriptOutcome};
pub use counts::PlantCounts;
pub use failure::DeviceFailure;
pub use file::{
    FaultOptions, MOST_DEVICES, MOST_SCRIPT_LINES, PlantDevice, PlantFault, PlantFile,
    PlantLineFault, PlantWord, push_fault, read_plant, read_plant_call, read_script_file,
    read_typed_call,
};
pub use incarnations::{IncarnationSpan, MOST_SPANS, spans_are_apart};
pub use jobs::{DeviceSetup, PlantJob, SharedPlant};
pub use named::{NameForm, NamedLines, push_named};
pub use phases::{PlantPhase, PlantView, next_phase};
pub use typed::{TypedLine, read_typed};
pub use typed_steps::{SharedSteps, WaitingSteps};
