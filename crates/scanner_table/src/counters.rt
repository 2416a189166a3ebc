//! Laws of the request numbers and connection ids that a scanner allocates, in each step.

ghost use Rattle.std.specs.Prelude.{◌≡◌, None};
ghost use Rattle.scanner_table.specs.declared.profile.ScannerProfile.{ScannerProfile};
ghost use Rattle.scanner_table.specs.Profiles.{profile_fault};
ghost use Rattle.scanner_table.specs.Step.{scanner_table};
ghost use Rattle.scanner_table.specs.Counters.{CountsOn, StepsLeaveIds, WholeTablesAreFull};
ghost use Rattle.scanner_table.specs.Drawn.{NumbersAreOwn};
ghost use Rattle.scanner_table.specs.Runs.{StepsLead, EventsLead, StepsKeep, EventsKeep};

/// The numbers of the next connection id and of the next request never fall, the ids of the blocks stay, and so does the
/// profile, in each step (`step`) and over each list of events (`events`), from any table. The number of slots stays too, if the
/// table has one for each of the profile's, as a whole table has (`whole`).
pub fn counters_never_fall()
    ensures step { StepsLead CountsOn }
    ensures events { EventsLead CountsOn }
    ensures whole { WholeTablesAreFull }
{}

/// Only a further block changes the blocks of connection ids, from any table.
pub fn blocks_stay()
    ensures { StepsLeaveIds }
{}

/// The number of a pending request, and that of the request that opened an established connection, are below the next
/// request number. The T->O id of a point to point slot that is opening, established, timed out or closing is of the
/// scanner's blocks, and its number is below the next one, and no two such slots have the same id.
///
/// A fresh table whose profile has no fault has the property, and each step and each list of events keeps it.
pub fn numbers_are_below_the_next()
    ensures steps { StepsKeep NumbersAreOwn }
    ensures events { EventsKeep NumbersAreOwn }
    ensures fresh { (profile : ScannerProfile) → profile_fault profile ≡ None → NumbersAreOwn (scanner_table profile) }
{}
