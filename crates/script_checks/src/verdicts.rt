//! What came of a line of a script.

ghost use Rattle.std.specs.Prelude.{◌≡◌};
ghost use Rattle.script_checks.specs.Verdicts.{fail_verdict, is_bad, line_verdict, reached};

/// What a line of a script is for.
#[derive(Clone, Copy, Debug, PartialEq, Eq)]
pub enum Goal {
    /// It has the device do something.
    Call,
    /// It expects a condition.
    Expect,
    /// The script fails where the line is taken.
    Fail,
    /// The script passes where the line is taken.
    Pass,
}

/// How a line went so far.
#[derive(Clone, Copy, Debug, PartialEq, Eq)]
pub struct LineCourse {
    /// How often it was met, or taken.
    pub met: u32,
    /// Whether it has failed.
    pub failed: bool,
}

/// What came of a line that judges.
#[derive(Clone, Copy, Debug, PartialEq, Eq)]
pub enum LineVerdict {
    /// It passed.
    Passed,
    /// It failed.
    Failed,
    /// The script ended before it was met, or before it was taken.
    NotReached,
    /// The script was decided before by another line.
    Skipped,
}

/// What came of a line, of a script that another line has decided or not. None of a line that does not judge.
pub fn line_verdict(goal: Goal, course: LineCourse, decided: bool) -> Option<LineVerdict>
    ensures { result ≡ line_verdict goal course decided }
{
    match goal {
        Goal::Call => None,
        Goal::Expect if course.failed => Some(LineVerdict::Failed),
        Goal::Expect => Some(reached(course.met, decided)),
        Goal::Fail => Some(fail_verdict(course.failed)),
        Goal::Pass => Some(reached(course.met, decided)),
    }
}

/// What came of a line that was met so often.
fn reached(met: u32, decided: bool) -> LineVerdict
    ensures { result ≡ reached met decided }
{
    if met > 0 {
        return LineVerdict::Passed;
    }
    if decided {
        LineVerdict::Skipped
    } else {
        LineVerdict::NotReached
    }
}

/// What came of a line at which the script fails.
fn fail_verdict(failed: bool) -> LineVerdict
    ensures { result ≡ fail_verdict failed }
{
    if failed {
        LineVerdict::Failed
    } else {
        LineVerdict::Passed
    }
}

impl LineVerdict {
    /// Whether the script has not passed with it.
    pub fn is_bad(self) -> bool
        ensures { result ≡ is_bad self }
    {
        match self {
            LineVerdict::Failed => true,
            LineVerdict::NotReached => true,
            _ => false,
        }
    }
}
