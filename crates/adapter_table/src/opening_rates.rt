//! How often a node opens connections: its openings are counted in seconds of its own.
//!
//! Volume 1, chapter 3, Connection Manager object.

mod rates;

pub use rates::{NodeOpenings, counted_openings, has_opened_enough};
