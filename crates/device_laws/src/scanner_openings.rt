//! Laws of the numbers that a scanner's openings use.

ghost use Rattle.device_laws.specs.ScannerOpenings.{OpeningsBegin, RequestsRise, IdsAreGivenOnce};
ghost use Rattle.scanner_table.specs.Runs.{StepsLead, EventsLead};

/// A slot that is opening after a step, or after events, waited for the same reply before, or the opening began between:
/// then the request number and, for a point to point slot, the T->O id were allocated between. The laws hold from any
/// table; that of the id asks that ids are numbered from 1.
pub fn openings_draw_the_next_numbers()
    ensures step { StepsLead OpeningsBegin }
    ensures events { EventsLead OpeningsBegin }
{}

/// Request numbers rise: a slot that is opening after events, from any table, waited for the same reply before them, or its
/// request number is above every number that was allocated by then.
pub fn request_numbers_rise()
    ensures { RequestsRise }
{}

/// No connection id is allocated twice: a slot that is opening after events, from any table whose blocks of ids are apart,
/// waited for the same reply before them, or it requests no id that was allocated by then, whether a slot still has that id or not.
pub fn ids_are_given_once()
    ensures { IdsAreGivenOnce }
{}
