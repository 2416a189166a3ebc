//! Laws of the times of a script.

ghost use Rattle.std.specs.Prelude.{ℕ};
ghost use Rattle.station.specs.declared.script.lines.DueTime.{DueTime};
ghost use Rattle.station.specs.Script.Due.{IsLast, IsNext, last_time, next_time};
ghost use Rattle.station.specs.Script.Looks.{LookWaitsAreExact};
ghost use Rattle.station.specs.Script.Runs.{WaitsAreExact};

/// The last time up to now at which a line is due is the last one, and the next one behind it the next one: the line is not
/// due between them.
pub fn times_are_exact()
    ensures last { (now : ℕ) (due : DueTime) → IsLast now due (last_time now due) }
    ensures next { (now : ℕ) (due : DueTime) → IsNext now due (next_time now due) }
{}

/// While a run of a script waits, nothing is due that it did not take; and where its wait is shorter than the longest, a line
/// can be taken then.
pub fn waits_are_exact()
    ensures { WaitsAreExact }
{}

/// While a turn waits nothing is decided about a device that stays as it is, and no line is due; and where its wait is shorter than
/// the longest, one of both comes then. So an expectation that is not met fails in the first millisecond behind its deadline.
pub fn look_waits_are_exact()
    ensures { LookWaitsAreExact }
{}
