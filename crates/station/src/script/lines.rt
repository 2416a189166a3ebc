//! The lines of a script.

ghost use Rattle.std.specs.Prelude.{◌≡◌};
ghost use Rattle.station.specs.Script.Checks.{goal_of};

use crate::step::StationStep;
use cip_types::Items;
use script_checks::{Condition, Goal};

/// When a line is due, in milliseconds since the plant began. A restart of the device changes nothing of it.
#[derive(Clone, Copy, PartialEq, Eq)]
pub enum DueTime {
    /// Once, at this time.
    At(u32),
    /// Each so many milliseconds, for the first time after so many; never, if that is 0.
    Every(u32),
}

/// What a line of a script does.
#[derive(PartialEq, Drop)]
pub enum ScriptAct {
    /// The device does a step.
    Do(StationStep),
    /// The script expects a condition, within so many milliseconds.
    Expect {
        within_ms: u32,
        condition: Condition,
    },
    /// The script fails, for the reason of this text.
    Fail {
        text: Items<u8>,
    },
    /// The script passes.
    Pass,
}

/// A line of a script: when it is due, the condition for which it waits then, if it has one, and what it does.
#[derive(PartialEq, Drop)]
pub struct ScriptLine {
    pub due: DueTime,
    pub guard: Option<Condition>,
    pub act: ScriptAct,
}

impl ScriptLine {
    /// What the line is for.
    pub fn goal(&self) -> Goal
        ensures { result ≡ goal_of self.now.act }
    {
        match &self.act {
            ScriptAct::Do(_) => Goal::Call,
            ScriptAct::Expect { .. } => Goal::Expect,
            ScriptAct::Fail { .. } => Goal::Fail,
            ScriptAct::Pass => Goal::Pass,
        }
    }
}
