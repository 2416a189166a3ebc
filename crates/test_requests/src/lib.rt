//! What a test sends to an adapter in a controller's place: the request to open a connection, and class 1 datagrams.
#![tactic(auto)]

mod opening;
mod sending;

pub use opening::{ConnectionRequest, open_request};
pub use sending::{SentData, datagram_bytes};
