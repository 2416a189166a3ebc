//! Laws of the images and outputs of a scanner's slots.

ghost use Rattle.device_laws.specs.Scratch.{StepsLeaveBytes, RefusalsTouchNothing, BytesAreFromScratch, FreshBytesAreFromScratch};

/// The image of a slot holds the bytes that the last event which touched it left there: zeros if the slot became
/// established, or the data of a datagram that was applied for it. The output of a slot holds the bytes that were last
/// written there.
///
/// - `step`: after one step that gives an answer; bytes that the event does not touch stay.
/// - `refusal`: an event that is refused touches neither.
/// - `events`: after every list of events from any table; bytes that no event touches stay.
/// - `fresh`: after every list of events from a fresh table; bytes that no event touches are zeros.
pub fn bytes_are_from_scratch()
    ensures step { StepsLeaveBytes }
    ensures refusal { RefusalsTouchNothing }
    ensures events { BytesAreFromScratch }
    ensures fresh { FreshBytesAreFromScratch }
{}
