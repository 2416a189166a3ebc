//! How far a script was taken, what its lines wait for, and the step of each.

ghost use Rattle.std.specs.Prelude.{◌≡◌, [], IfOk};
ghost use Rattle.station.specs.Script.Checks.{wait_at};
ghost use Rattle.station.specs.Script.Looks.{Gave, GaveSome, armed, begun_line, come_line, concluded, decided_step, due_step, expected, failed_line, fresh_state, missed_line, passed_line, state_wait};

use crate::script::checks::{DecidedLine, Decision, LineWait, ScriptChecks};
use crate::script::lines::{ScriptAct, ScriptLine};
use crate::script::run::ScriptRun;
use crate::script::texts::{failed_text, met_text, passed_text, unmet_text};
use crate::step::StationStep;
use cip_tables::Device;
use cip_types::{Items, OutOfMemory};
use script_checks::{Condition, ExpectationState, deadline, holds, judged};
use std::alloc::Global;

/// How far the lines of a script were taken, and how they went. It outlasts the lives of its device.
#[derive(Drop)]
pub struct ScriptState {
    run: ScriptRun,
    checks: ScriptChecks,
}

impl ScriptState {
    /// Nothing was taken. OutOfMemory is the only fault.
    pub fn of(alloc: Global, script: &[ScriptLine]) -> Result<ScriptState, OutOfMemory>
        ensures { IfOk result (λ state. state ≡ fresh_state script.now) }
    {
        Ok(ScriptState {
            run: ScriptRun::new(),
            checks: ScriptChecks::of(alloc, script)?,
        })
    }

    /// No line. Takes no memory.
    pub fn none(alloc: Global) -> ScriptState
        ensures { result ≡ fresh_state [] }
    {
        ScriptState {
            run: ScriptRun::new(),
            checks: ScriptChecks::none(alloc),
        }
    }

    /// A copy. OutOfMemory is the only fault.
    pub fn copy(&self, alloc: Global) -> Result<ScriptState, OutOfMemory>
        ensures { IfOk result (λ copy. copy ≡ self.now) }
    {
        Ok(ScriptState {
            run: self.run,
            checks: self.checks.copy(alloc)?,
        })
    }

    /// How the lines went.
    pub fn checks(&self) -> &ScriptChecks
        ensures { result.now ≡ self.now.checks }
    {
        &self.checks
    }
}

/// A script at a look at its device: at this time, in milliseconds since the plant began.
#[derive(Clone, Copy)]
pub(crate) struct Look<'a, D> {
    pub(crate) alloc: Global,
    pub(crate) script: &'a [ScriptLine],
    pub(crate) now_ms: u64,
    pub(crate) device: &'a D,
}

impl<'a, D: Device> Look<'a, D> {
    /// The step of the first line about which the look decides something; None if it decides nothing. OutOfMemory is the only
    /// fault.
    pub(crate) fn decided_step(
        &self,
        state: &mut ScriptState,
    ) -> Result<Option<StationStep>, OutOfMemory>
        ensures { IfOk result (λ step. GaveSome
            (decided_step (D.table self.now.device.now) self.now.now_ms self.now.script.now state.old)
            step state.old state.new) }
    {
        let Some(decided) = state
            .checks
            .first_decided(self.script, self.now_ms, self.device)
        else {
            return Ok(None);
        };
        let Some(said) = self.script.get(decided.line) else {
            return Ok(None);
        };
        Ok(Some(self.conclude(state, decided, said)?))
    }

    /// The step of a line about which something is decided.
    fn conclude(
        &self,
        state: &mut ScriptState,
        decided: DecidedLine,
        said: &ScriptLine,
    ) -> Result<StationStep, OutOfMemory>
        ensures { IfOk result (λ step. Gave
            (concluded (D.table self.now.device.now) self.now.now_ms state.old decided said.now.act) step state.new) }
    {
        match decided.decision {
            Decision::Fires => {
                state.checks.wait_for(decided.line, LineWait::Nothing);
                self.begin(state, decided.line, said)
            }
            Decision::Meets => self.meet(state, decided.line, said),
            _ => self.miss(state, decided.line, said),
        }
    }

    /// The step of the line that is due; None if none is. OutOfMemory is the only fault.
    pub(crate) fn due_step(
        &self,
        state: &mut ScriptState,
    ) -> Result<Option<StationStep>, OutOfMemory>
        ensures { IfOk result (λ step. GaveSome
            (due_step (D.table self.now.device.now) self.now.now_ms self.now.script.now state.old)
            step state.old state.new) }
    {
        let Some(due) = state.run.next_line(self.script, self.now_ms) else {
            return Ok(None);
        };
        let Some(said) = self.script.get(due.line) else {
            return Ok(None);
        };
        match said.guard {
            Some(_) => Ok(Some(arm(state, due.line))),
            None => Ok(Some(self.begin(state, due.line, said)?)),
        }
    }

    /// The step of a line that is taken: what it does begins.
    fn begin(
        &self,
        state: &mut ScriptState,
        line: usize,
        said: &ScriptLine,
    ) -> Result<StationStep, OutOfMemory>
        ensures { IfOk result (λ step. Gave
            (begun_line (D.table self.now.device.now) self.now.now_ms state.old line said.now.act) step state.new) }
    {
        match &said.act {
            ScriptAct::Do(step) => step.copy(self.alloc),
            _ if state.checks.is_decided() => Ok(StationStep::Wait { ms: 0 }),
            ScriptAct::Expect {
                within_ms,
                condition,
            } => self.expect(state, line, *within_ms, condition),
            ScriptAct::Fail { text } => {
                state.checks.decide();
                self.fail(state, line, Items::copy_of(self.alloc, text.as_slice())?)
            }
            ScriptAct::Pass => self.pass(state, line),
        }
    }

    /// The step of a line that begins to expect a condition. One that waits for it already waits on.
    fn expect(
        &self,
        state: &mut ScriptState,
        line: usize,
        within_ms: u32,
        condition: &Condition,
    ) -> Result<StationStep, OutOfMemory>
        ensures { IfOk result (λ step. Gave
            (expected (D.table self.now.device.now) self.now.now_ms state.old line within_ms condition.now)
            step state.new) }
    {
        if state.checks.wait(line) != LineWait::Nothing {
            return Ok(StationStep::Wait { ms: 0 });
        }
        let until_ms = deadline(self.now_ms, within_ms);
        match judged(holds(self.device, condition), self.now_ms, until_ms) {
            ExpectationState::Met => {
                state.checks.meet(line, 0);
                let text = met_text(self.alloc, line, condition, 0)?;
                Ok(StationStep::Say { text })
            }
            _ => {
                let since_ms = self.now_ms;
                state
                    .checks
                    .wait_for(line, LineWait::Expected { since_ms, until_ms });
                Ok(StationStep::Wait { ms: 0 })
            }
        }
    }

    /// The step of a line whose condition has come.
    fn meet(
        &self,
        state: &mut ScriptState,
        line: usize,
        said: &ScriptLine,
    ) -> Result<StationStep, OutOfMemory>
        ensures { IfOk result (λ step. Gave (come_line self.now.now_ms state.old line said.now.act) step state.new) }
    {
        let after_ms = match state.checks.wait(line) {
            LineWait::Expected { since_ms, .. } => self.now_ms.saturating_sub(since_ms),
            _ => 0,
        };
        state.checks.meet(line, after_ms);
        match &said.act {
            ScriptAct::Expect { condition, .. } => {
                let text = met_text(self.alloc, line, condition, after_ms)?;
                Ok(StationStep::Say { text })
            }
            _ => Ok(StationStep::Wait { ms: 0 }),
        }
    }

    /// The step of a line whose condition has not come in time.
    fn miss(
        &self,
        state: &mut ScriptState,
        line: usize,
        said: &ScriptLine,
    ) -> Result<StationStep, OutOfMemory>
        ensures { IfOk result (λ step. Gave
            (missed_line (D.table self.now.device.now) state.old line said.now.act) step state.new) }
    {
        match &said.act {
            ScriptAct::Expect {
                within_ms,
                condition,
            } => {
                let why = unmet_text(self.alloc, self.device, *within_ms, condition)?;
                self.fail(state, line, why)
            }
            _ => Ok(StationStep::Wait { ms: 0 }),
        }
    }

    /// The step of a line that failed for this reason.
    fn fail(
        &self,
        state: &mut ScriptState,
        line: usize,
        why: Items<u8>,
    ) -> Result<StationStep, OutOfMemory>
        ensures { IfOk result (λ step. Gave (failed_line state.old line why) step state.new) }
    {
        let text = failed_text(self.alloc, line, why.as_slice())?;
        state.checks.fail(line, why);
        Ok(StationStep::Say { text })
    }

    /// The step of a line with which the script passes.
    fn pass(&self, state: &mut ScriptState, line: usize) -> Result<StationStep, OutOfMemory>
        ensures { IfOk result (λ step. Gave (passed_line state.old line) step state.new) }
    {
        state.checks.decide();
        state.checks.meet(line, 0);
        let text = passed_text(self.alloc, line)?;
        Ok(StationStep::Say { text })
    }

    /// How long a turn waits at most where nothing is decided and no line is due: until a line is due, or until one can fail.
    pub(crate) fn wait_ms(&self, state: &ScriptState, most_ms: u64) -> u64
        ensures { result ≡ state_wait state.now self.now.now_ms most_ms self.now.script.now }
    {
        let due_ms = state.run.wait_ms(self.script, self.now_ms, most_ms);
        match state.checks.first_expiry() {
            Some(end_ms) => due_ms.min(end_ms.saturating_sub(self.now_ms)),
            None => due_ms,
        }
    }
}

/// A line that is due waits for its condition from now on, unless it waits already.
fn arm(state: &mut ScriptState, line: usize) -> StationStep
    ensures step { result ≡ StationStep.Wait 0 }
    ensures armed { state.new ≡ armed state.old line (wait_at state.old.checks line) }
{
    if state.checks.wait(line) == LineWait::Nothing {
        state.checks.wait_for(line, LineWait::When);
    }
    StationStep::Wait { ms: 0 }
}
