//! The streams of an adapter's peers, and the sessions that are registered on them.
//!
//! Volume 2, chapter 2, encapsulation sessions over TCP.

mod adapter_streams;

pub use adapter_streams::{has_session, is_taken, register_stream, session_of};
