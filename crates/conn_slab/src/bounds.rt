//! The times at which watchdogs run out.

ghost use Rattle.std.specs.Prelude.{◌≡◌};
ghost use Rattle.conn_slab.specs.Bounds.{end_of_peer, next_end};

use crate::peers::{Peer, Peers};

/// When the watchdog of a peer's connection runs out; `u64::MAX` for a timed-out one.
fn end_of_peer(peer: &Peer) -> u64
    ensures { result ≡ end_of_peer peer.now }
{
    match peer.producer {
        Some(_) => peer.deadline.0,
        None => u64::MAX,
    }
}

/// When the first of the watchdogs runs out; `u64::MAX` if there is none.
#[tactic(auto, using(crate::proofs::Ends::min_never, crate::proofs::Ends::min_end))]
pub(crate) fn next_watchdog(peers: Peers<'_>) -> u64
    ensures { result ≡ next_end peers.entry }
{
    let mut first = u64::MAX;
    for peer in peers {
        first = first.min(end_of_peer(&peer));
    }
    first
}
