//! The producer of one connection of an adapter: when it is due, which nodes it sends to, and the connection after it
//! produced or its input was written.

mod producing;

pub use producing::{
    changed_row, has_node, is_due, is_produced_by, produced_row, producer_in, producer_number,
    produces_on_change, written_row,
};
