//! The lines of a script, taken one by one as their times come.

ghost use Rattle.std.specs.Prelude.{◌≡◌, ◌<◌, IfSome, length};
ghost use Rattle.station.specs.Script.Runs.{after, is_left, open_time, sooner, sooner_line, taken, wait_of};

use crate::script::due::{last_time, next_due};
use crate::script::lines::{DueTime, ScriptLine};

/// A line of a script, by its number from 0, and the time at which it is due, in milliseconds since the plant began.
#[derive(Clone, Copy, PartialEq, Eq)]
pub struct DueLine {
    pub ms: u64,
    pub line: usize,
}

/// How far the lines of a script were taken: all that were due before this time, and of those that are due at it the ones
/// with lower numbers. It outlasts the lives of its device.
#[derive(Clone, Copy, PartialEq, Eq)]
pub struct ScriptRun {
    ms: u64,
    line: usize,
}

impl ScriptRun {
    /// Nothing was taken.
    pub fn new() -> ScriptRun
        ensures { result ≡ record { ms = 0; line = 0 } }
    {
        ScriptRun { ms: 0, line: 0 }
    }

    /// Takes the next line that is due up to now: the earliest one, and of several at one time the first one in the script.
    /// A line that has become due several times is due once, at the last of these times. None if no line is due.
    pub fn next_line(&mut self, script: &[ScriptLine], now_ms: u64) -> Option<DueLine>
        ensures given { result ≡ taken self.old now_ms script.now }
        ensures left { self.new ≡ after self.old result }
        ensures inside { IfSome result (λ due. due.line < length script.now) }
    {
        let due = self.first_due(script, now_ms)?;
        self.ms = due.ms;
        self.line = due.line + 1;
        Some(due)
    }

    /// The milliseconds until a line can be taken, at most so many. 0 if a line can be taken now.
    pub fn wait_ms(&self, script: &[ScriptLine], now_ms: u64, most_ms: u64) -> u64
        ensures { result ≡ wait_of self.now now_ms most_ms script.now }
    {
        if self.first_due(script, now_ms).is_some() {
            return 0;
        }
        match next_due(script, now_ms) {
            Some(ms) => most_ms.min(ms.saturating_sub(now_ms)),
            None => most_ms,
        }
    }

    /// The next line that is due up to now.
    fn first_due(&self, script: &[ScriptLine], now_ms: u64) -> Option<DueLine>
        ensures first { result ≡ taken self.now now_ms script.now }
        ensures inside { IfSome result (λ due. due.line < length script.now) }
    {
        let mut first = None;
        for line in 0..script.len() {
            first = sooner(first, self.open_time(line, script[line].due, now_ms));
        }
        first
    }

    /// The last time up to now at which a line is due, if it was not taken then.
    fn open_time(&self, line: usize, due: DueTime, now_ms: u64) -> Option<DueLine>
        ensures time { result ≡ open_time self.now now_ms line due }
        ensures line { IfSome result (λ due. due.line ≡ line) }
    {
        let ms = last_time(due, now_ms)?;
        let due = DueLine { ms, line };
        if self.is_left(due) { Some(due) } else { None }
    }

    /// Whether a line was not taken at its time.
    fn is_left(&self, due: DueLine) -> bool
        ensures { result ≡ is_left self.now due }
    {
        self.ms < due.ms || (due.ms == self.ms && self.line <= due.line)
    }
}

/// The earlier one of two lines, and the first one if both are due at one time.
fn sooner(one: Option<DueLine>, other: Option<DueLine>) -> Option<DueLine>
    ensures { result ≡ sooner one other }
{
    match (one, other) {
        (Some(one), Some(other)) => Some(sooner_line(one, other)),
        (Some(one), None) => Some(one),
        (None, other) => other,
    }
}

/// The earlier one of two lines, and the first one if both are due at one time.
fn sooner_line(one: DueLine, other: DueLine) -> DueLine
    ensures { result ≡ sooner_line one other }
{
    if other.ms < one.ms { other } else { one }
}
