//! What a station notes of the steps of its device: the peers that have connections, what its port has to know of targets, slots
//! whose data never came, those that are being closed, why a slot is not open, and how many datagrams came, went and were lost.

mod closing;
mod datagram_counts;
mod groups;
mod notes;
mod peers;
mod slots;
mod traffic;
mod waits;

pub use closing::{ClosingSlots, close_end, closing_ms, waits_on};
pub use datagram_counts::{
    DatagramCounts, GapMeter, GapSums, GapWindow, counted, is_accepted, missed, sent_counts,
};
pub use notes::{StateNote, StreamRefusal};
pub use peers::{changes_connections, owners_of, push_connected};
pub use slots::{LinkReport, SlotWatches, Starved, StarvedCause};
pub use traffic::{CountedConnection, SentAs, StationTraffic, TrafficTotals, counted_of};
pub use waits::{SlotWait, wait_at};
