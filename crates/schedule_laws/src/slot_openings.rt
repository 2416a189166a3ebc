//! Which slot of a scanner has an opening number, over whole runs and schedules. The call does nothing: its contract is the
//! law.

ghost use Rattle.schedule_laws.specs.OpeningNumbers.{OpeningNumbersNameOneSlot};
ghost use Rattle.schedule_laws.specs.ScheduledOpenings.{SchedulesNameOneSlot};

use device_laws::{openings_are_numbered, openings_differ};
use segment_world::laws::projections_are_runs;

/// No two slots of a scanner ever have one opening number: if a slot has it at one moment, and a slot has it then or later,
/// they are one slot. So a scanner and an opening number name one slot for good, even after that slot has given up its
/// opening.
///
/// - `events`: after some events of a fresh scanner, and after any more.
/// - `schedules`: of a scanner among many devices, after some acts of a schedule, and after any more.
///
/// Volume 2, chapter 2, sender context.
pub fn an_opening_number_names_one_slot()
    ensures events { OpeningNumbersNameOneSlot }
    ensures schedules { SchedulesNameOneSlot }
{
    // At one moment each number is below the next one, and no two slots have one.
    openings_are_numbered();
    openings_differ();
    // A scanner's table in a schedule is the one to which its own events lead.
    projections_are_runs();
}
