//! The sum of an outcome: one line that stands for all its lines in a record.
//!
//! `check_sequence` has the CRC-32 of bytes: the frame check sequence of IEEE 802.3.

mod check_sequence;
mod lines;
mod sum;
mod verdict;

pub use check_sequence::crc32;
pub use lines::{push_sum, read_sum};
pub use sum::{OutcomeSum, PlacedSum, has_sum, sum_over};
pub use verdict::PlainVerdict;
