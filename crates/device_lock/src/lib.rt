//! Devices under locks, whose events are stored, so that what each of them did can be replayed and checked.
#![tactic(auto)]

mod book;
mod history;
mod laws;
mod locked;
mod receipt;
mod segment;

pub use book::{Book, MOST_EVENTS};
pub use history::History;
pub use laws::events_stand_at_their_places;
pub use locked::LockedDevice;
pub use receipt::{BookFault, Receipt};
pub use segment::Segment;
