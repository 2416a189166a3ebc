//! What the lines of a script wait for, and how they went.

ghost use Rattle.std.specs.Prelude.{◌≡◌, [], IfOk, true};
ghost use Rattle.station.specs.Script.Checks.{course_of, decided_at, decided_of, decided_so, expiry_of, expects, first_decided, first_expiry, fresh_checks, holds_if, line_decision, line_failed, line_met, line_waits, no_check, wait_at, with_line};

use crate::script::due::earlier;
use crate::script::lines::{ScriptAct, ScriptLine};
use cip_tables::Device;
use cip_types::{Items, OutOfMemory};
use script_checks::{ExpectationState, LineCourse, holds, judged};
use std::alloc::Global;
use std::marker::Model;

/// What a line of a script waits for.
#[derive(Clone, Copy, PartialEq, Eq)]
pub enum LineWait {
    /// For its time alone.
    Nothing,
    /// For the condition behind its `when`.
    When,
    /// For the condition that it expects, since this time and up to that one.
    Expected { since_ms: u64, until_ms: u64 },
}

/// What a look at the device decides about a line that waits.
#[derive(Clone, Copy, PartialEq, Eq)]
pub enum Decision {
    /// Nothing.
    Stays,
    /// The condition behind its `when` holds.
    Fires,
    /// What it expects has come.
    Meets,
    /// What it expects has not come in time.
    Fails,
}

/// A line, by its number from 0, and what is decided about it.
#[derive(Clone, Copy, PartialEq, Eq)]
pub struct DecidedLine {
    pub line: usize,
    pub decision: Decision,
}

/// How a line went so far.
#[derive(PartialEq, Drop)]
pub struct LineCheck {
    pub wait: LineWait,
    /// How often it was met, or taken.
    pub met: u32,
    /// How long it took at most until it was met, in milliseconds.
    pub longest_ms: u64,
    /// Why it failed first.
    pub failure: Option<Items<u8>>,
}

impl LineCheck {
    /// A line that was never due.
    fn new() -> LineCheck
        ensures { result ≡ no_check }
    {
        LineCheck {
            wait: LineWait::Nothing,
            met: 0,
            longest_ms: 0,
            failure: None,
        }
    }

    /// A copy. OutOfMemory is the only fault.
    fn copy(&self, alloc: Global) -> Result<LineCheck, OutOfMemory>
        ensures { IfOk result (λ copy. copy ≡ self.now) }
    {
        let failure = match &self.failure {
            Some(text) => Some(Items::copy_of(alloc, text.as_slice())?),
            None => None,
        };
        Ok(LineCheck {
            wait: self.wait,
            met: self.met,
            longest_ms: self.longest_ms,
            failure,
        })
    }

    /// How it went.
    pub fn course(&self) -> LineCourse
        ensures { result ≡ course_of self.now }
    {
        LineCourse {
            met: self.met,
            failed: self.failure.is_some(),
        }
    }

    /// It waits for something else.
    fn wait_for(&mut self, wait: LineWait)
        ensures { self.new ≡ line_waits wait self.old }
    {
        self.wait = wait;
    }

    /// It was met, or taken, after so many milliseconds.
    fn meet(&mut self, after_ms: u64)
        ensures { self.new ≡ line_met after_ms self.old }
    {
        self.wait = LineWait::Nothing;
        self.met = self.met.saturating_add(1);
        self.longest_ms = self.longest_ms.max(after_ms);
    }

    /// It failed, for this reason. The first reason is kept.
    fn fail(&mut self, why: Items<u8>)
        ensures { self.new ≡ line_failed why self.old }
    {
        self.wait = LineWait::Nothing;
        if self.failure.is_none() {
            self.failure = Some(why);
        }
    }
}

/// What the lines of a script wait for and how they went, and whether a line decided the script. It outlasts the lives of its
/// device.
#[derive(Drop)]
pub struct ScriptChecks {
    lines: Vec<LineCheck>,
    decided: bool,
}

impl Model for ScriptChecks {
    ghost use Rattle.station.specs.Script.Checks.{Checks};

    ghost Value = { Checks };

    ghost view = { λ checks. record { lines = checks.lines.items; decided = checks.decided } };
}

impl ScriptChecks {
    /// No line was due. OutOfMemory is the only fault.
    pub fn of(alloc: Global, script: &[ScriptLine]) -> Result<ScriptChecks, OutOfMemory>
        ensures { IfOk result (λ checks. checks ≡ fresh_checks script.now) }
    {
        let mut lines = Vec::new(alloc);
        for _line in script {
            lines.push(LineCheck::new())?;
        }
        Ok(ScriptChecks {
            lines,
            decided: false,
        })
    }

    /// No line. Takes no memory.
    pub fn none(alloc: Global) -> ScriptChecks
        ensures { result ≡ fresh_checks [] }
    {
        ScriptChecks {
            lines: Vec::new(alloc),
            decided: false,
        }
    }

    /// A copy. OutOfMemory is the only fault.
    pub fn copy(&self, alloc: Global) -> Result<ScriptChecks, OutOfMemory>
        ensures { IfOk result (λ copy. copy ≡ self.now) }
    {
        let mut lines = Vec::new(alloc);
        for line in self.lines.as_slice() {
            lines.push(line.copy(alloc)?)?;
        }
        Ok(ScriptChecks {
            lines,
            decided: self.decided,
        })
    }

    /// How the lines went, in their order.
    pub fn lines(&self) -> &[LineCheck]
        ensures { result.now ≡ self.now.lines }
    {
        self.lines.as_slice()
    }

    /// Whether a line has decided the script.
    pub fn is_decided(&self) -> bool
        ensures { result ≡ self.now.decided }
    {
        self.decided
    }

    /// The first line about which a look at the device decides something; none, if the script is decided.
    pub fn first_decided<D: Device>(
        &self,
        script: &[ScriptLine],
        now_ms: u64,
        device: &D,
    ) -> Option<DecidedLine>
        ensures { result ≡ first_decided (D.table device.now) now_ms script.now self.now }
    {
        if self.decided {
            return None;
        }
        let mut first = None;
        for line in 0..script.len() {
            if first.is_none() {
                first = self.decided_at(script, line, now_ms, device);
            }
        }
        first
    }

    /// What a look at the device decides about the line of this number, if it decides something.
    fn decided_at<D: Device>(
        &self,
        script: &[ScriptLine],
        line: usize,
        now_ms: u64,
        device: &D,
    ) -> Option<DecidedLine>
        ensures { result ≡ decided_at (D.table device.now) now_ms script.now self.now.lines line }
    {
        match (script.get(line), self.lines.get(line)) {
            (Some(said), Some(check)) => {
                decided_of(line, line_decision(said, check.wait, now_ms, device))
            }
            _ => None,
        }
    }

    /// The first moment at which a line can fail that waits; none, if none can.
    pub fn first_expiry(&self) -> Option<u64>
        ensures { result ≡ first_expiry self.now }
    {
        if self.decided {
            return None;
        }
        let mut first = None;
        for line in &self.lines {
            first = earlier(first, expiry_of(line.wait));
        }
        first
    }

    /// What a line waits for.
    pub fn wait(&self, line: usize) -> LineWait
        ensures { result ≡ wait_at self.now line }
    {
        match self.lines.get(line) {
            Some(check) => check.wait,
            None => LineWait::Nothing,
        }
    }

    /// A line waits for something else.
    pub fn wait_for(&mut self, line: usize, wait: LineWait)
        ensures { self.new ≡ with_line line (line_waits wait) self.old }
    {
        if let Some(check) = self.lines.get_mut(line) {
            check.wait_for(wait);
        }
    }

    /// A line was met, or taken, after so many milliseconds.
    pub fn meet(&mut self, line: usize, after_ms: u64)
        ensures { self.new ≡ with_line line (line_met after_ms) self.old }
    {
        if let Some(check) = self.lines.get_mut(line) {
            check.meet(after_ms);
        }
    }

    /// A line failed, for this reason. The first reason is kept.
    pub fn fail(&mut self, line: usize, why: Items<u8>)
        ensures { self.new ≡ with_line line (line_failed why) self.old }
    {
        if let Some(check) = self.lines.get_mut(line) {
            check.fail(why);
        }
    }

    /// A line decides the script.
    pub fn decide(&mut self)
        ensures { self.new ≡ record self.old { decided = true } }
    {
        self.decided = true;
    }
}

/// The first moment at which a line can fail that waits for this.
fn expiry_of(wait: LineWait) -> Option<u64>
    ensures { result ≡ expiry_of wait }
{
    match wait {
        LineWait::Expected { until_ms, .. } => Some(until_ms.saturating_add(1)),
        _ => None,
    }
}

/// What a look at the device decides about a line that waits for this.
pub fn line_decision<D: Device>(
    line: &ScriptLine,
    wait: LineWait,
    now_ms: u64,
    device: &D,
) -> Decision
    ensures { result ≡ line_decision (D.table device.now) now_ms line.now wait }
{
    match wait {
        LineWait::Nothing => Decision::Stays,
        LineWait::When => {
            if guard_holds(line, device) {
                Decision::Fires
            } else {
                Decision::Stays
            }
        }
        LineWait::Expected { until_ms, .. } => {
            decided_so(judged(act_holds(line, device), now_ms, until_ms))
        }
    }
}

/// What a judgement decides about a line.
fn decided_so(said: ExpectationState) -> Decision
    ensures { result ≡ decided_so said }
{
    match said {
        ExpectationState::Waiting => Decision::Stays,
        ExpectationState::Met => Decision::Meets,
        ExpectationState::Failed => Decision::Fails,
    }
}

/// A line with what is decided about it; None if that is nothing.
fn decided_of(line: usize, decision: Decision) -> Option<DecidedLine>
    ensures { result ≡ decided_of line decision }
{
    match decision {
        Decision::Stays => None,
        _ => Some(DecidedLine { line, decision }),
    }
}

/// Whether the condition behind the `when` of a line holds.
fn guard_holds<D: Device>(line: &ScriptLine, device: &D) -> bool
    ensures { result ≡ holds_if (D.table device.now) line.now.guard }
{
    match &line.guard {
        Some(condition) => holds(device, condition),
        None => false,
    }
}

/// Whether the condition that a line expects holds.
fn act_holds<D: Device>(line: &ScriptLine, device: &D) -> bool
    ensures { result ≡ holds_if (D.table device.now) (expects line.now.act) }
{
    match &line.act {
        ScriptAct::Expect { condition, .. } => holds(device, condition),
        _ => false,
    }
}
