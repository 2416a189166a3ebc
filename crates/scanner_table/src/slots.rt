//! Laws of the producers of slots, of how long slots wait, and of how many open at one time.

ghost use Rattle.scanner_table.specs.Producers.{SlotsProduceAsThemselves};
ghost use Rattle.scanner_table.specs.Runs.{IsLaw};
ghost use Rattle.scanner_table.specs.Turns.{OpeningsTakeTurns};
ghost use Rattle.scanner_table.specs.Waiting.{SlotsWaitInTime};

/// The producer of an established slot has the slot's number, and sends to the slot's target. A fresh table has the
/// property, and each step and each list of events keeps it.
pub fn slots_produce_as_themselves()
    ensures { IsLaw SlotsProduceAsThemselves }
{}

/// A slot that is opening or closing waits at most `open_timeout` milliseconds from the present time on. A fresh table has
/// the property, and each step and each list of events keeps it.
pub fn answers_are_waited_for_in_time()
    ensures { IsLaw SlotsWaitInTime }
{}

/// At most as many openings of one target wait for their replies as the profile allows at one time. A fresh table has the
/// property, and each step and each list of events keeps it.
pub fn openings_take_turns()
    ensures { IsLaw OpeningsTakeTurns }
{}
