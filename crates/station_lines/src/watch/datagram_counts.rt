//! What is counted of the datagrams of one connection: their results, the sequence numbers that were skipped, and the gaps between
//! those that were accepted.

mod counts;
mod gaps;

pub use counts::{DatagramCounts, counted, is_accepted, missed, sent_counts};
pub use gaps::{GapMeter, GapSums, GapWindow};
