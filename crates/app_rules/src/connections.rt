//! The view of an adapter's connections that the checks read.

ghost use Rattle.std.specs.Prelude.{◌≡◌, List, length, nat_le};
ghost use Rattle.std.specs.List.{list_any};
ghost use Rattle.adapter_table.specs.Connections.{Row};
ghost use Rattle.cip_productions.specs.declared.kind.Kind.{Kind};
ghost use Rattle.adapter_table.specs.Rows.{most_rows, holds_triad, is_established, is_timed_out, drives, is_supported, kind_count, node_count};
ghost use Rattle.adapter_table.specs.Checks.{group_of};

use adapter_table::{
    Row, drives, holds_triad, is_established, is_member, is_of_kind, is_of_node, is_supported,
    is_timed_out,
};
use cip_productions::Kind;
use cip_types::limits::MOST_CONNECTIONS;
use cip_types::{Node, Triad};

/// The connections of an adapter, as the checks read them; contracts see their list in opening order. No call takes
/// memory.
pub trait ConnectionsView {
    ghost rows: { Self → List Row };

    /// Whether the triad is that of an established connection.
    fn is_open(&self, triad: Triad) -> bool
        ensures { result ≡ list_any (holds_triad triad) (rows self.now) };

    /// Whether some connection is established.
    fn has_established(&self) -> bool
        ensures { result ≡ list_any is_established (rows self.now) };

    /// Whether an established connection owns the output.
    fn is_driven(&self, point: u32) -> bool
        ensures { result ≡ list_any (drives point) (rows self.now) };

    /// The first connection of the input's multicast group.
    fn group_of(&self, point: u32) -> Option<Row>
        ensures { result ≡ group_of (rows self.now) point };

    /// Whether a listen-only connection is supported on the input.
    fn is_supported(&self, point: u32) -> bool
        ensures { result ≡ is_supported (rows self.now) Kind.ListenOnly point };

    /// How many established connections of an application type there are.
    fn kind_count(&self, kind: Kind) -> usize
        ensures { result ≡ kind_count (rows self.now) kind };

    /// How many established connections of a node there are.
    fn node_count(&self, node: Node) -> usize
        ensures { result ≡ node_count (rows self.now) node };

    /// Whether there are 64 connections, timed-out ones among them.
    fn is_full(&self) -> bool
        ensures { result ≡ nat_le most_rows (length (rows self.now)) };

    /// Whether some connection has timed out.
    fn has_timed_out(&self) -> bool
        ensures { result ≡ list_any is_timed_out (rows self.now) };
}

/// Connections in a slice, in opening order.
#[derive(Clone, Copy)]
pub struct ListView<'a>(pub &'a [Row]);

impl ConnectionsView for ListView<'_> {
    ghost rows = { λ l. l.0.now };

    fn is_open(&self, triad: Triad) -> bool {
        self.0.iter().any(|row| holds_triad(row, triad))
    }

    fn has_established(&self) -> bool {
        self.0.iter().any(|row| is_established(row))
    }

    fn is_driven(&self, point: u32) -> bool {
        self.0.iter().any(|row| drives(row, point))
    }

    fn group_of(&self, point: u32) -> Option<Row> {
        self.0.iter().copied().find(|row| is_member(row, point))
    }

    fn is_supported(&self, point: u32) -> bool {
        is_supported(self.0, Kind::ListenOnly, point)
    }

    fn kind_count(&self, kind: Kind) -> usize {
        self.0.iter().filter(|row| is_of_kind(row, kind)).count()
    }

    fn node_count(&self, node: Node) -> usize {
        self.0.iter().filter(|row| is_of_node(row, node)).count()
    }

    fn is_full(&self) -> bool {
        self.0.len() >= MOST_CONNECTIONS
    }

    fn has_timed_out(&self) -> bool {
        self.0.iter().any(|row| is_timed_out(row))
    }
}
