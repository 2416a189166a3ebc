//! The script of a station: when its lines are due, over the time of the plant, what they wait for, and how they went.

mod checks;
mod due;
mod laws;
mod lines;
mod report;
mod run;
mod state;
mod texts;

pub use checks::{Decision, LineCheck, LineWait, ScriptChecks};
pub use laws::{look_waits_are_exact, times_are_exact, waits_are_exact};
pub use lines::{DueTime, ScriptAct, ScriptLine};
pub use report::ScriptReport;
pub use run::{DueLine, ScriptRun};
pub(crate) use state::Look;
pub use state::ScriptState;
pub use texts::push_line;
