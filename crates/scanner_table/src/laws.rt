//! Laws of the step: a fresh table is well formed, and every step keeps a table well formed. `specs/WellFormed` says
//! what a well-formed table is. A law call does nothing; its contract states the law.

ghost use Rattle.std.specs.Prelude.{◌≡◌, ◌≤◌, ◌+◌, ◌^◌, ℕ, None, IfOk};
ghost use Rattle.cip_events.specs.declared.event.Event.{Event};
ghost use Rattle.scanner_table.specs.declared.profile.ScannerProfile.{ScannerProfile};
ghost use Rattle.scanner_table.specs.declared.table.ScannerTable.{ScannerTable};
ghost use Rattle.scanner_table.specs.Profiles.{profile_fault};
ghost use Rattle.scanner_table.specs.Step.{scanner_step, scanner_table};
ghost use Rattle.scanner_table.specs.Ticks.{clocked_table, advanced};
ghost use Rattle.scanner_table.specs.WellFormed.{IsWellFormed};

/// The table of a fresh scanner is well formed, if its profile has no fault.
pub fn fresh_tables_are_well_formed()
    ensures { (profile : ScannerProfile) → profile_fault profile ≡ None → IsWellFormed (scanner_table profile) }
{}

/// A step from a well-formed table leads to a well-formed table. The law speaks of each event that the step accepts;
/// an event that is refused leaves the table unchanged.
pub fn steps_keep_tables_well_formed()
    ensures { (t : ScannerTable) (event : Event) → IsWellFormed t
        → IfOk (scanner_step t event) (λ next. IsWellFormed next.1) }
{}

/// The part of a tick before its productions keeps a table well formed: the clock moves, connections time out,
/// slots give up late replies, and slots open. The premise is that the clock stays at most 2^48 milliseconds.
pub fn advancing_keeps_tables_well_formed()
    ensures { (t : ScannerTable) (ms : ℕ) → t.clock.0 + ms ≤ 2 ^ 48 →
        IsWellFormed t → IsWellFormed (advanced (clocked_table t ms)).table }
{}
