//! The parts of an outcome, each of which has a line.

use cip_events::{Frame, Notice, OutgoingDatagram, StepFault, Verdict};

/// A part of an outcome.
#[derive(Drop)]
pub enum Part {
    Verdict(Verdict),
    Fault(StepFault),
    Frame(Frame),
    Datagram(OutgoingDatagram),
    Notice(Notice),
}
