//! The law of state on its way. A law call does nothing; its contract states the law.

ghost use Rattle.station_rim.specs.Queue.StateLaw.{RoomReportsAll, StateIsNeverLost};

/// Whatever is offered to an output and taken by its reader: the reader takes in order what the output took, the last line of
/// each point that the output took has the bytes that were reported, and if the point holds others, a line with these is due.
/// Where there is room for each line that is due, none is due any more.
pub fn state_is_never_lost()
    ensures lost { StateIsNeverLost }
    ensures room { RoomReportsAll }
{}
