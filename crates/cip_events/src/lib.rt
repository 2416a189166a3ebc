//! The events, answers, outcomes, notices and faults of every kind of device. Ports, books and printers use these.
//! An outlet is where the outputs of an answer go, one after another, over any network, such as a port.
#![tactic(auto)]

mod answer;
mod arrival;
mod consumers;
mod copy;
mod event;
mod outlet;
mod profile_fault;
mod sending;
mod slot_phase;
mod small_bytes;

pub use arrival::Arrival;
pub use consumers::Consumers;
pub use event::{
    Answer, Delivery, Event, Frame, NewFault, Notice, Outcome, OutgoingDatagram, Reason, Recipient,
    StepFault, Unanswered, Verdict,
};
pub use outlet::Outlet;
pub use profile_fault::ProfileFault;
pub use sending::send_answer;
pub use slot_phase::SlotPhase;
pub use small_bytes::SmallBytes;
