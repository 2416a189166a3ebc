//! An adapter that finds the connection of a datagram by one look-up, and that compares two times to find that a tick
//! is idle. Each of its steps is the table's.
#![tactic(auto)]

use adapter::Adapter;
use indexed_connections::IndexedConnections;

/// An adapter over connections in a slab, with indexes, running counts and bounds, which contracts see as its table.
pub type FastAdapter = Adapter<IndexedConnections>;
