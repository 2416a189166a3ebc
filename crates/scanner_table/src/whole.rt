//! Laws of whole tables of scanners.

ghost use Rattle.std.specs.Prelude.{ℕ, ◌≡◌, ◌≤◌, None, IfOk};
ghost use Rattle.cip_types.specs.Ids.{end_number};
ghost use Rattle.cip_events.specs.declared.event.Event.{Event};
ghost use Rattle.scanner_table.specs.declared.profile.ScannerProfile.{ScannerProfile};
ghost use Rattle.scanner_table.specs.declared.table.ScannerTable.{ScannerTable};
ghost use Rattle.scanner_table.specs.Profiles.{profile_fault};
ghost use Rattle.scanner_table.specs.Step.{scanner_step, scanner_table};
ghost use Rattle.scanner_table.specs.Whole.{IsWholeScanner};

use crate::counters::numbers_are_below_the_next;
use crate::explicit::explicit_requests_are_pending;
use crate::slots::{
    answers_are_waited_for_in_time, openings_take_turns, slots_produce_as_themselves,
};

/// The table of a fresh scanner is whole, if its profile has no fault.
pub fn fresh_tables_are_whole()
    ensures { (profile : ScannerProfile) → profile_fault profile ≡ None → IsWholeScanner (scanner_table profile) }
{
    // The six parts of a whole table.
    crate::fresh_tables_are_well_formed();
    numbers_are_below_the_next();
    slots_produce_as_themselves();
    answers_are_waited_for_in_time();
    openings_take_turns();
    explicit_requests_are_pending();
}

/// A step from a whole table that gives an answer leads to a whole table. An event that is refused leaves the table as it
/// is.
pub fn steps_keep_tables_whole()
    ensures { (t : ScannerTable) (event : Event) →
        IsWholeScanner t → IfOk (scanner_step t event) (λ next. IsWholeScanner next.1) }
{
    // The six parts of a whole table.
    crate::steps_keep_tables_well_formed();
    numbers_are_below_the_next();
    slots_produce_as_themselves();
    answers_are_waited_for_in_time();
    openings_take_turns();
    explicit_requests_are_pending();
}

/// A whole table stays whole with a later number for the next connection id, up to that behind the last id of its blocks.
pub fn later_counters_keep_tables_whole()
    ensures { (t : ScannerTable) (counter : ℕ) → t.next_id ≤ counter → counter ≤ end_number t.ids →
        IsWholeScanner t → IsWholeScanner (record t { next_id = counter }) }
{}
