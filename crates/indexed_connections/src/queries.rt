//! Walks over connections, one after another. No call takes memory.

ghost use Rattle.std.specs.Prelude.{◌≡◌, ◌≤◌, find, length, slice_get};
ghost use Rattle.std.specs.List.{list_any};
ghost use Rattle.adapter_table.specs.Rows.{is_established, is_timed_out, drives, is_member, kind_count, node_count};
ghost use Rattle.adapter_table.specs.States.{count_consuming};
ghost use Rattle.adapter_table.specs.Objects.{is_owning, is_running};
ghost use Rattle.cip_tables.specs.Wakes.{connections_due};
ghost use Rattle.conn_slab.specs.Connections.{is_listening, is_changing};

use crate::list::{connection_due, is_owning, is_running};
use adapter_table::{
    Row, State, consumes, drives, is_established, is_member, is_of_kind, is_of_node, is_timed_out,
};
use cip_productions::Kind;
use cip_types::Node;
use conn_slab::{Rows, is_on_change};

/// Whether some connection is established.
pub fn is_any_established(rows: Rows<'_>) -> bool
    ensures { result ≡ list_any is_established rows.entry }
{
    for row in rows {
        if is_established(&row) {
            return true;
        }
    }
    false
}

/// Whether some connection is an established exclusive owner.
pub fn is_any_owning(rows: Rows<'_>) -> bool
    ensures { result ≡ list_any is_owning rows.entry }
{
    for row in rows {
        if is_owning(&row) {
            return true;
        }
    }
    false
}

/// Whether the newest data of some established connection are in run mode.
pub fn is_any_running(rows: Rows<'_>) -> bool
    ensures { result ≡ list_any is_running rows.entry }
{
    for row in rows {
        if is_running(&row) {
            return true;
        }
    }
    false
}

/// Whether some connection has timed out.
pub fn is_any_timed_out(rows: Rows<'_>) -> bool
    ensures { result ≡ list_any is_timed_out rows.entry }
{
    for row in rows {
        if !is_established(&row) {
            return true;
        }
    }
    false
}

/// The first connection of the input's group.
pub fn first_member(rows: Rows<'_>, point: u32) -> Option<Row>
    ensures { result ≡ find (is_member point) rows.entry }
{
    for row in rows {
        if is_member(&row, point) {
            return Some(row);
        }
    }
    None
}

/// The established exclusive owner of the output.
pub fn first_owner(rows: Rows<'_>, point: u32) -> Option<Row>
    ensures { result ≡ find (drives point) rows.entry }
{
    for row in rows {
        if drives(&row, point) {
            return Some(row);
        }
    }
    None
}

/// The connection at a place.
pub fn nth(rows: Rows<'_>, place: usize) -> Option<Row>
    ensures { result ≡ slice_get rows.entry place }
{
    let mut before = place;
    for row in rows {
        if before == 0 {
            return Some(row);
        }
        before -= 1;
    }
    None
}

/// How many established connections of a kind consume the input.
pub fn count_consuming(rows: Rows<'_>, kind: Kind, point: u32) -> usize
    requires { length rows ≤ 64 }
    ensures { result ≡ count_consuming rows.entry kind point }
{
    let mut count = 0;
    for row in rows {
        if consumes(&row, kind, point) {
            count += 1;
        }
    }
    count
}

/// How many established connections of an application type there are.
pub fn kind_count(rows: Rows<'_>, kind: Kind) -> usize
    requires { length rows ≤ 64 }
    ensures { result ≡ kind_count rows.entry kind }
{
    let mut count = 0;
    for row in rows {
        if is_of_kind(&row, kind) {
            count += 1;
        }
    }
    count
}

/// How many established connections of a node there are.
pub fn node_count(rows: Rows<'_>, node: Node) -> usize
    requires { length rows ≤ 64 }
    ensures { result ≡ node_count rows.entry node }
{
    let mut count = 0;
    for row in rows {
        if is_of_node(&row, node) {
            count += 1;
        }
    }
    count
}

/// The first connection that has timed out.
pub fn first_timed_out(rows: Rows<'_>) -> Option<Row>
    ensures { result ≡ find is_timed_out rows.entry }
{
    for row in rows {
        if is_timed_out(&row) {
            return Some(row);
        }
    }
    None
}

/// When the first deadline of an established connection is reached or the first producer is due; `u64::MAX` if there
/// is neither.
#[tactic(auto, using(crate::proofs::DueTimes::min_never, crate::proofs::DueTimes::min_due))]
pub fn first_due(rows: Rows<'_>) -> u64
    ensures { result ≡ connections_due rows.entry }
{
    let mut first = u64::MAX;
    for row in rows {
        first = first.min(connection_due(&row));
    }
    first
}

/// Whether a connection is an established listen-only one.
pub fn is_listening(row: &Row) -> bool
    ensures { result ≡ is_listening row.now }
{
    is_established(row) && row.kind == Kind::ListenOnly
}

/// Whether a connection is established, and its producer produces at changes of state.
pub fn is_changing(row: &Row) -> bool
    ensures { result ≡ is_changing row.now }
{
    match row.state {
        State::Established(production) => is_on_change(production.trigger),
        State::TimedOut => false,
    }
}
