//! Lists of the open streams of a device, each with its number.
//!
//! Volume 2, chapter 2, encapsulation messages over TCP.

mod list;

pub use list::{Numbered, add_stream, copied_streams, drop_stream, find_stream, has_stream};
