//! Connections from a list of them, and the connection that a new one replaces.

ghost use Rattle.std.specs.Prelude.{◌≡◌, IfOk, find};
ghost use Rattle.adapter_table.specs.Opening.{is_replaced, replaced_triad};
ghost use Rattle.conn_slab.specs.Connections.{AreConnections};

use crate::queries::first_timed_out;
use adapter_table::Row;
use cip_types::limits::MOST_CONNECTIONS;
use cip_types::{OutOfMemory, Triad};
use conn_slab::Connections;
use std::alloc::Global;

/// These connections. Out of memory is the only fault.
pub fn from_rows(alloc: Global, rows: &[Row]) -> Result<Connections, OutOfMemory>
    requires { AreConnections rows.now }
    ensures { IfOk result (λ connections. connections ≡ rows.now) }
{
    let mut connections = Connections::new(alloc)?;
    for row in rows {
        connections.open(None, *row)?;
    }
    Ok(connections)
}

/// The connection that a new one of a triad replaces. Takes no memory.
fn replaced_row(connections: &Connections, triad: Triad) -> Option<Row>
    ensures { result ≡ find (is_replaced connections.now triad) connections.now }
{
    if let Some(row) = connections.of(triad) {
        return Some(row);
    }
    if connections.len() < MOST_CONNECTIONS {
        return None;
    }
    let first = first_timed_out(connections.rows())?;
    connections.numbered(first.opening)
}

/// The triad of the connection that a new one of a triad replaces. Takes no memory.
pub fn replaced(connections: &Connections, triad: Triad) -> Option<Triad>
    ensures { result ≡ replaced_triad connections.now triad }
{
    match replaced_row(connections, triad) {
        Some(row) => Some(row.triad),
        None => None,
    }
}
