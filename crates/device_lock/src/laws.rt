//! What holds of every history, as a contract of a function that does nothing.

ghost use Rattle.device_lock.specs.Histories.{EventsStandAtTheirPlaces};

/// Does nothing. Its contract is a law for callers: the place of each event of each segment is its index in the list
/// of all events.
pub fn events_stand_at_their_places()
    ensures { EventsStandAtTheirPlaces }
{}
