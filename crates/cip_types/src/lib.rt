//! The numbers, identities and limits that the crates of the line share, the little-endian fields of their formats, lists
//! as values, and sorting by an order of the caller.
//!
//! `open_streams` are lists of open streams, each with its number.
#![tactic(auto)]

pub mod circle;
pub mod fields;
pub mod ids;
pub mod items;
pub mod limits;
pub mod memory;
pub mod names;
mod open_streams;
mod order;

pub use circle::{newer32, same16};
pub use ids::{
    IdBlock, add_block, are_ids, end_number, first_block, id_at, ids_behind, ids_left, may_take,
    one_block, part_of_ids,
};
pub use items::Items;
pub use memory::OutOfMemory;
pub use names::{ConnId, Fault, Identity, Mismatch, Ms, Node, Triad};
pub use open_streams::{
    Numbered, add_stream, copied_streams, drop_stream, find_stream, has_stream,
};
pub use order::{Order, sorted};
