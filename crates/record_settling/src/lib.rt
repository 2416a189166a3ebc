//! The account of real records: traces of several devices, each with the outcomes that its station recorded, and the
//! schedule that has them all; or what is missing.
//!
//! `stream_names` gives both ends of a stream one number, which is never used again: a station numbers its streams by itself.
#![tactic(auto)]

mod account;
mod fault;
mod senders;
mod settled;
mod stream_names;
mod summed;

pub use fault::RecordsFault;
pub use settled::{SettledRecords, byte_of, settle_records};
pub use stream_names::{
    EventPlace, NamingFault, StreamName, is_of_station, name_streams, named_answer, named_event,
    named_stream, node_of, record_of,
};
