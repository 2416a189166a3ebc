//! Tables of the connections of an adapter, which contracts see as their list in opening order, and the calls on
//! such a list: which connection is replaced, which ones are dropped, which one a datagram is for, which ones time
//! out, and what their producers send. `ConnectionTable` is the trait of a table, and `ConnectionList` a table that
//! is a plain list. adapter_table changes a single connection.
//!
//! Volume 1, chapter 3, application connection types, class 1 transport, connection timeouts, production
//! triggers.

mod changes;
mod deliveries;
mod expiries;
mod first_due;
mod io;
mod order;
mod plain;
mod producers;
mod productions;
mod rows;
mod support;
mod table;

pub use changes::{sent_on_change, written_rows};
pub use expiries::tick_plan;
pub use first_due::connection_due;
pub use io::{is_owning, is_running};
pub use plain::ConnectionList;
pub use productions::sent_when_due;
pub use support::dropped_with;
pub use table::{ConnectionTable, ReceivedDatagram, TickPlan};
