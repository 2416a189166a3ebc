//! The states of one class 1 connection, as types. A transition consumes the value of one state and returns that of
//! the next, so no state is left twice. Volume 1, chapter 3, connection object state.
//!
//! They are for a user who keeps one connection. A scanner keeps the states of its slots in a list, as `SlotState` of
//! scanner_table, and judges a reply by these types alone: `Idle::open` and then `Opening::accept`.
#![tactic(auto)]

mod names;
mod states;

pub use names::{Link, Requested};
pub use states::{Closing, Established, Idle, Opening, TimedOut};
