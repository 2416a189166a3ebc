//! The choice of a stream among those of a group.

ghost use Rattle.std.specs.Prelude.{◌≡◌, position, None};
ghost use Rattle.socket_port.specs.Rules.Keeping.{count_of, earlier, earliest, last_in, is_among, is_at, is_in, is_of, longest_silent, one_of};

use crate::rules::keeper::KeptStream;
use cip_types::Node;

/// Streams of which one makes room for a new stream.
#[derive(Clone, Copy)]
pub enum Candidates {
    /// Those of the new stream's address without a session.
    OwnWithoutSession,
    /// Those of the new stream's address.
    Own,
    /// Those without a session.
    WithoutSession,
    /// Those whose peer has no connection, and owns no output.
    WithoutConnection,
    /// Those whose peer owns no output.
    WithoutOutput,
}

/// Whether it is a stream of this address.
fn is_of(stream: &KeptStream, peer: Node) -> bool
    ensures { result ≡ is_of peer stream.now }
{
    stream.peer.0 == peer.0
}

/// Whether the address of the stream is one of these.
fn is_among(stream: &KeptStream, nodes: &[Node]) -> bool
    ensures { result ≡ is_among nodes.now stream.now }
{
    nodes.iter().any(|node| node.0 == stream.peer.0)
}

/// Whether it is one of the group, for a new stream of this peer, while these nodes have connections, and these own outputs.
fn is_in(
    stream: &KeptStream,
    group: Candidates,
    peer: Node,
    connected: &[Node],
    owners: &[Node],
) -> bool
    ensures { result ≡ is_in group peer connected.now owners.now stream.now }
{
    match group {
        Candidates::OwnWithoutSession => is_of(stream, peer) && !stream.registered,
        Candidates::Own => is_of(stream, peer),
        Candidates::WithoutSession => !stream.registered,
        Candidates::WithoutConnection => {
            !is_among(stream, connected) && !is_among(stream, owners)
        }
        Candidates::WithoutOutput => !is_among(stream, owners),
    }
}

/// When the last message of the stream came, if it is one of the group.
fn last_in(
    stream: &Option<KeptStream>,
    group: Candidates,
    peer: Node,
    connected: &[Node],
    owners: &[Node],
) -> Option<u64>
    ensures { result ≡ last_in group peer connected.now owners.now stream.now }
{
    let Some(stream) = stream else {
        return None;
    };
    if is_in(stream, group, peer, connected, owners) {
        Some(stream.last_ms)
    } else {
        None
    }
}

/// The earlier of two times.
fn earlier(time: Option<u64>, other: Option<u64>) -> Option<u64>
    ensures { result ≡ earlier time other }
{
    let Some(ms) = time else {
        return other;
    };
    match other {
        Some(other) => Some(ms.min(other)),
        None => Some(ms),
    }
}

/// The earliest time at which the last message of one of the group came.
fn earliest(
    streams: &[Option<KeptStream>],
    group: Candidates,
    peer: Node,
    connected: &[Node],
    owners: &[Node],
) -> Option<u64>
    ensures { result ≡ earliest (last_in group peer connected.now owners.now) None streams.now }
{
    let mut best = None;
    for stream in streams {
        best = earlier(best, last_in(stream, group, peer, connected, owners));
    }
    best
}

/// Whether a time is this one.
fn is_at(time: Option<u64>, ms: u64) -> bool
    ensures { result ≡ is_at ms time }
{
    match time {
        Some(last_ms) => last_ms == ms,
        None => false,
    }
}

/// The first stream of the group whose last message came at the earliest time of the group.
pub(crate) fn longest_silent(
    streams: &[Option<KeptStream>],
    group: Candidates,
    peer: Node,
    connected: &[Node],
    owners: &[Node],
) -> Option<usize>
    ensures { result ≡ longest_silent group peer connected.now owners.now streams.now }
{
    match earliest(streams, group, peer, connected, owners) {
        Some(ms) => first_at(streams, group, peer, connected, owners, ms),
        None => None,
    }
}

/// The first stream of the group whose last message came at this time.
fn first_at(
    streams: &[Option<KeptStream>],
    group: Candidates,
    peer: Node,
    connected: &[Node],
    owners: &[Node],
    ms: u64,
) -> Option<usize>
    ensures { result ≡ position (λ stream. is_at ms (last_in group peer connected.now owners.now stream)) streams.now }
{
    streams.iter().position(|stream| is_at(last_in(stream, group, peer, connected, owners), ms))
}

/// How many streams are of this address.
pub(crate) fn count_of(streams: &[Option<KeptStream>], peer: Node) -> usize
    ensures { result ≡ count_of peer 0 streams.now }
{
    let mut count = 0;
    for stream in streams {
        count += one_of(stream, peer);
    }
    count
}

/// One if the stream is of this address, or else none.
fn one_of(stream: &Option<KeptStream>, peer: Node) -> usize
    ensures { result ≡ one_of peer stream.now }
{
    match stream {
        Some(stream) if is_of(stream, peer) => 1,
        _ => 0,
    }
}
