//! The law of a station's tasks.

ghost use Rattle.station.specs.Exact.{TasksAreExact};

use crate::serving::Station;
use cip_tables::Device;
use station_record::RecordSink;
use udp_runner::{Clock, Port};

/// Over a scripted port and a scripted clock what a station does is exact, unless the port counts a failure: of each turn the tick that
/// the clock gives and the arrival that the port gives are events, and each call is one, in this order, and no other is; all outputs of
/// the answers are sent, in order, and at the end of the sessions their ends, and nothing else is; and the recorder has noted each event
/// with its outcome, in order, and no other.
pub fn tasks_are_exact<P: Port, C: Clock, D: Device, W: RecordSink, O, E>(
    before: &Station<P, C, D, W, O, E>,
    after: &Station<P, C, D, W, O, E>,
)
    ensures { TasksAreExact W.contents P.is_scripted C.is_scripted C.coming P.tape P.failed D.table before.now
        after.now }
{}
