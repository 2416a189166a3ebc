//! Laws of traces as text: a written value is read as the same value.
#![tactic(auto)]

mod laws;

pub use laws::{reads_back, writes_piece_by_piece};
