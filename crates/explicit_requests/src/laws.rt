//! Laws of explicit requests before their deadlines. A law call does nothing; its contract states the law.

ghost use Rattle.std.specs.Prelude.{◌≡◌, ◌<◌, Bool, false};
ghost use Rattle.std.specs.List.{list_any};
ghost use Rattle.cip_tables.specs.Wakes.{explicit_due};
ghost use Rattle.cip_events.specs.declared.event.Unanswered.{Unanswered};
ghost use Rattle.scanner_table.specs.declared.explicit.PendingExplicit.{PendingExplicit};
ghost use Rattle.scanner_table.specs.declared.table.ScannerTable.{ScannerTable};
ghost use Rattle.scanner_table.specs.Effects.{nothing};
ghost use Rattle.scanner_table.specs.Explicit.{explicit_ended, is_late};
ghost use Rattle.scanner_table.specs.Ticks.{advanced, moved_on};

/// Where no explicit request passes the test, none ends.
pub fn no_end_changes_nothing()
    ensures { (test : PendingExplicit → Bool) (why : Unanswered) (t : ScannerTable)
        → list_any test t.explicit ≡ false → explicit_ended test why t ≡ nothing t }
{}

/// If no connection changes at a time, and no deadline of an explicit request has come, nothing changes.
pub fn explicit_requests_rest()
    ensures { (t : ScannerTable) → advanced t ≡ nothing t → list_any (is_late t.clock) t.explicit ≡ false
        → moved_on t ≡ nothing t }
{}

/// Before the first deadline of the explicit requests, none has come.
pub fn later_deadlines_end_nothing()
    ensures { (t : ScannerTable) → t.clock.0 < explicit_due t.explicit → list_any (is_late t.clock) t.explicit ≡ false }
{}
