//! Laws of a scanner's slots after a tick, and after a cut.

ghost use Rattle.device_laws.specs.CutCloses.{CutClosesAreKept};
ghost use Rattle.device_laws.specs.ScannerDeadlines.{TicksLeaveNoneLate};
ghost use Rattle.device_laws.specs.TimedOutSlots.{TimedOutSlotsWait};

/// After a tick no slot has a deadline that has come: late connections have timed out, slots have given up late replies,
/// and new requests have deadlines to come. The law holds from any table whose profile has no fault.
pub fn ticks_leave_none_late()
    ensures { TicksLeaveNoneLate }
{}

/// After a tick a slot that has timed out waits for its retry time, or for a session with its target. At its retry time, with a
/// session, it opens, or a tidy scanner sends the Forward_Close of its connection. The law holds from any table of a scanner that is
/// tidy, or whose openings are not limited: a slot of another one that has timed out may wait for its turn.
pub fn timed_out_slots_wait_for_sessions()
    ensures { TimedOutSlotsWait }
{}

/// A slot of a tidy scanner that closes when the stream to its target is cut, within the time for the reply, keeps the connection: it has
/// timed out, and sends the Forward_Close again (`timed_out_slots_wait_for_sessions`). The law holds from any table.
pub fn cut_closes_are_kept()
    ensures { CutClosesAreKept }
{}
