//! One number for both ends of a stream, in the records of several devices. A station numbers its streams by itself, and uses
//! a number again; here each stream has one number, which is never used again, and session handles change with it.

mod ends;
mod fault;
mod lives;
mod renaming;
mod station_messages;

pub use ends::{name_streams, node_of, record_of};
pub use fault::{EventPlace, NamingFault};
pub use renaming::{StreamName, named_answer, named_event, named_stream};
pub use station_messages::is_of_station;
