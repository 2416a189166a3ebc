//! Laws of the datagrams that a scanner's connections accept. A connection is named by its slot's number and the number
//! of the request that opened it.

ghost use Rattle.device_laws.specs.Newest.{HasNewerNumber, IsAppliedNew, IsNotAgain, OpeningsAreNumbered, WholeTablesNumberOpenings, StepsAcceptAfter, RefusalsAcceptNothing, EventsAcceptAfter};
ghost use Rattle.scanner_table.specs.Runs.{IsLaw};

/// The number of a pending Forward_Open, and that of the request that opened an established connection, are below the next
/// request number.
///
/// - `law`: a fresh table has the property, and each step and each list of events keeps it.
/// - `whole`: a whole table has it.
pub fn openings_are_numbered()
    ensures law { IsLaw OpeningsAreNumbered }
    ensures whole { WholeTablesNumberOpenings }
{}

/// Each sequence number that a connection accepts is newer than the one that it accepted before. The laws hold of every
/// table of which `openings_are_numbered` holds.
///
/// - `step`: in one step that gives an answer.
/// - `refusal`: an event that is refused is accepted on no connection, at any table.
/// - `events`: over every list of events.
pub fn accepted_numbers_are_newer()
    ensures step { StepsAcceptAfter HasNewerNumber }
    ensures refusal { RefusalsAcceptNothing }
    ensures events { EventsAcceptAfter HasNewerNumber }
{}

/// Data are applied only if their count differs from that of the datagram that the connection accepted before. The laws
/// hold, in a step and over events, of every table of which `openings_are_numbered` holds.
pub fn applied_data_are_new()
    ensures step { StepsAcceptAfter IsAppliedNew }
    ensures events { EventsAcceptAfter IsAppliedNew }
{}

/// No connection applies the datagram that it accepted last once more. The laws hold, in a step and over events, of every
/// table of which `openings_are_numbered` holds.
pub fn the_last_datagram_is_not_applied_again()
    ensures step { StepsAcceptAfter IsNotAgain }
    ensures events { EventsAcceptAfter IsNotAgain }
{}
