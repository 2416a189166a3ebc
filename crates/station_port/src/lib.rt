//! A port at a real address: an adapter's, whose streams its peers open, or a scanner's, which opens a stream to each of
//! its targets and opens it again after a cut. It ends streams that stay silent, makes room for new ones, and gives up
//! those that do not do their work. It waits until a socket has something. An adapter's port hands inquiries over UDP to the
//! device, a bounded number of them, those that came by broadcast after a drawn delay, and sends the replies. A scanner's receives
//! what is sent to the groups of its slots, where its host has joined them. A frame that may read what the host counts of its interface
//! is handed over one receive later, and meanwhile the port says so.
#![tactic(auto)]

mod alarm;
mod bind;
mod counters;
mod fault;
mod finder;
mod groups;
mod inquiries;
mod named_ports;
mod place;
mod rounds;
mod sockets;
mod station;
mod streams;

pub use alarm::{Alarm, AlarmStep, alarm_step, ns_behind, sets_anew};
pub use bind::page_listener;
pub use counters::{CountersRequested, interface_of, link_counters, names_link};
pub use fault::{SocketCause, StationFault, StationSocket};
pub use inquiries::{
    Asker, HeldInquiry, InquiryBudget, InquiryGate, InquiryHold, InquirySocket, MOST_HELD,
    MOST_IN_A_SECOND, asker_of, drawn_delay, has_length, is_broadcast, longest_delay,
};
pub use named_ports::{
    ItemPorts, ItemUse, NamedPort, NamedRoute, ReplyOutcome, RequestedPort, named_destination,
    named_port, reply_outcome, with_item, without_item,
};
pub use place::StationPlace;
pub use rounds::{PollRound, PollSource, PollSources};
pub use station::StationPort;
pub use streams::{
    DATAGRAMS, DialOutcome, FINDER, KeptStreams, LISTENER, NopTimer, OPENINGS, Ready, STREAMS,
    SessionAnswer, Targets, WAKER, Welcome, address_of, session_answer, shared_socket,
    wait_for_streams,
};
