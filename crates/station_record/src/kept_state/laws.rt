//! The law of a state's text.

ghost use Rattle.station_record.specs.KeptState.States.{ReadsBack};

/// A state that is written is read as itself.
pub fn reads_back()
    ensures { ReadsBack }
{}
