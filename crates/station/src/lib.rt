//! A station: a device at a port with a clock. It takes steps of its input and of a script, records what its device takes, prints
//! what changes.
//!
//! `script` says when the lines of a device's script are due, over the time of its plant, what they wait for, and how they went.
#![tactic(auto)]

mod counted;
mod exact;
mod fault;
mod life;
mod observer;
mod point_lines;
mod resets;
mod script;
mod serving;
mod sessions;
mod sources;
mod step;

pub use counted::{CountedSteps, HostCounts};
pub use exact::tasks_are_exact;
pub use fault::EarlyEnd;
pub use observer::StationObserver;
pub use script::{
    Decision, DueLine, DueTime, LineCheck, LineWait, ScriptAct, ScriptChecks, ScriptLine,
    ScriptReport, ScriptRun, ScriptState, look_waits_are_exact, push_line, times_are_exact,
    waits_are_exact,
};
pub use serving::{Reporting, Station};
pub use sources::{DeviceSteps, InputSteps, StepSource, SuppliedSteps, TypedSteps};
pub use step::{LifeEnd, StationStep};
