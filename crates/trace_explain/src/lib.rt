//! A trace in words: each event with its time, each frame and datagram by its name and fields, each recorded outcome.
//!
//! `router` puts requests to the message router and their replies into words.
#![tactic(auto)]

mod answers;
mod datagrams;
mod events;
mod frames;
mod identities;
mod lines;
mod router;

pub use answers::push_notice;
pub use lines::{EventLine, event_lines, explain_event, explain_trace};
