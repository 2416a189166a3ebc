//! An adapter's table of connections, as a trait of two tables with one meaning.
//!
//! `list` is the trait, the plain list, and the calls on such lists. The indexed table keeps connections in a slab, with
//! indexes, counts, bounds on their times, and whom producers serve; `queries` are questions that a walk over the connections of the
//! slab answers: there are at most 64.
#![tactic(auto)]

mod cause;
mod consumer_table;
mod counts;
mod datagrams;
mod expiries;
mod from_list;
mod keys;
mod list;
mod queries;
mod table;

pub use consumer_table::ConsumerTable;
pub use datagrams::{changed_datagrams, due_datagrams, remaining_datagrams};
pub use list::{
    ConnectionList, ConnectionTable, ReceivedDatagram, TickPlan, connection_due, dropped_with,
    is_owning, is_running, sent_on_change, sent_when_due, tick_plan, written_rows,
};
pub use table::IndexedConnections;
