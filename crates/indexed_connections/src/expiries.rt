//! Connections that time out.

ghost use Rattle.std.specs.Prelude.{◌≡◌, IfOk};
ghost use Rattle.std.specs.List.{list_any};
ghost use Rattle.adapter_table.specs.Productions.{is_produced_by};
ghost use Rattle.adapter_table.specs.Ticks.{by_deadline, expired};
ghost use Rattle.indexed_connections.specs.Peers.{has_timed_out_by, has_run_out, number_among, stays_with};

use adapter_table::{Row, by_deadline, has_expired, is_produced_by};
use cip_types::{Ms, Order, OutOfMemory, sorted};
use conn_slab::{Peer, Peers, Rows};
use std::alloc::Global;

/// Connections by their deadlines, and then by their openings.
struct DeadlineOrder;

impl Order<Row> for DeadlineOrder {
    ghost before = { λ _. by_deadline };

    fn is_before(&self, item: &Row, other: &Row) -> bool {
        by_deadline(item, other)
    }
}

/// The connections whose deadline has been reached, by their deadlines and then in the order of openings.
///
/// Volume 1, chapter 3, inactivity watchdog.
pub fn expired(alloc: Global, rows: Rows<'_>, clock: Ms) -> Result<Vec<Row>, OutOfMemory>
    ensures { IfOk result (λ timed_out. timed_out.items ≡ expired clock rows.entry) }
{
    let mut found = Vec::new(alloc);
    for row in rows {
        if has_expired(&row, clock) {
            found.push(row)?;
        }
    }
    sorted(alloc, &found, &DeadlineOrder)
}

fn has_number(rows: &[Row], number: u32) -> bool
    ensures { result ≡ list_any (is_produced_by number) rows.now }
{
    rows.iter().any(|row| is_produced_by(row, number))
}

/// Whether a connection has timed out.
fn has_timed_out_by(peer: &Peer) -> bool
    ensures { result ≡ has_timed_out_by peer.now }
{
    match peer.producer {
        Some(_) => false,
        None => true,
    }
}

/// Whether a connection is established, and its deadline has been reached.
fn has_run_out(peer: &Peer, clock: Ms) -> bool
    ensures { result ≡ has_run_out clock peer.now }
{
    peer.producer.is_some() && peer.deadline.0 <= clock.0
}

/// Whether one of the connections has the producer of this number, if there is one.
fn is_among(rows: &[Row], number: Option<u32>) -> bool
    ensures { result ≡ number_among rows.now number }
{
    match number {
        Some(number) => has_number(rows, number),
        None => false,
    }
}

/// Whether some connection has timed out.
pub fn has_any_timed_out(peers: Peers<'_>) -> bool
    ensures { result ≡ list_any has_timed_out_by peers.entry }
{
    for peer in peers {
        if has_timed_out_by(&peer) {
            return true;
        }
    }
    false
}

/// Whether the deadline of an established connection has been reached.
pub fn has_any_run_out(peers: Peers<'_>, clock: Ms) -> bool
    ensures { result ≡ list_any (has_run_out clock) peers.entry }
{
    for peer in peers {
        if has_run_out(&peer, clock) {
            return true;
        }
    }
    false
}

/// Whether a connection whose deadline has not been reached has the producer of one that times out.
pub fn is_any_left(peers: Peers<'_>, timed_out: &[Row], clock: Ms) -> bool
    ensures { result ≡ list_any (stays_with clock timed_out.now) peers.entry }
{
    for peer in peers {
        if !has_run_out(&peer, clock) && is_among(timed_out, peer.producer) {
            return true;
        }
    }
    false
}
