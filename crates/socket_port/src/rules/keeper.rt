//! The streams of an adapter, and when their last messages came.

ghost use Rattle.std.specs.Prelude.{◌≡◌, ◌*◌, replicate, slice_index_or, slice_set, position, Some, None, IfOk};
ghost use Rattle.std.specs.List.{list_any};
ghost use Rattle.socket_port.specs.Rules.Keeping.{begun, received_at, is_free, is_silent, least_wait, place_of, place_among, place_of_others, registered, silent_of, wait_for, wait_of};

use crate::rules::choice::{Candidates, count_of, longest_silent};
use cip_types::limits::MOST_STREAMS;
use cip_types::{Node, OutOfMemory};
use std::alloc::Global;
use std::marker::Model;

/// The streams of one address are at most so many.
const MOST_OF_ONE: usize = 8;

/// One stream of an adapter. Times are in milliseconds.
#[derive(Clone, Copy, PartialEq, Eq)]
pub struct KeptStream {
    /// The address of its peer.
    pub peer: Node,
    /// When it was opened, or its last whole message came.
    pub last_ms: u64,
    /// Whether a session is registered on it.
    pub registered: bool,
}

/// The place of a new stream.
#[derive(Clone, Copy, Debug, PartialEq, Eq)]
pub enum Place {
    /// A number is free.
    Free,
    /// The stream of this number makes room.
    Instead(u16),
    /// All numbers are taken, and no stream makes room.
    Refused,
}

/// The streams of an adapter by their numbers, 0 to 15, and the time-out after which a silent one ends. Contracts see
/// the time-out and the list of the streams.
#[derive(Drop)]
pub struct StreamKeeper {
    limit_ms: u64,
    streams: Vec<Option<KeptStream>>,
}

impl Model for StreamKeeper {
    ghost use Rattle.std.specs.Prelude.{◌≡◌, length};
    ghost use Rattle.socket_port.specs.Rules.Keeping.{Keeper};

    ghost Value = { Keeper };

    ghost view = { λ k. record { limit_ms = k.limit_ms; streams = k.streams.items } };

    ghost invariant = { λ k. length k.streams.items ≡ 16 };
}

impl StreamKeeper {
    /// No streams, with a time-out of so many seconds; 0: none. The only fault is a refused allocation.
    pub fn new(alloc: Global, inactivity_s: u16) -> Result<StreamKeeper, OutOfMemory>
        ensures { IfOk result
            (λ keeper. keeper ≡ record { limit_ms = inactivity_s * 1000; streams = replicate 16 None }) }
    {
        Ok(StreamKeeper {
            limit_ms: u64::from(inactivity_s) * 1_000,
            streams: vec![in alloc; None; MOST_STREAMS]?,
        })
    }

    /// A peer opened the stream of this number. Takes no memory.
    pub fn begin(&mut self, number: u16, peer: Node, now_ms: u64)
        ensures { self.new ≡ record self.old {
          streams = slice_set self.old.streams number
              (Some (begun peer now_ms));
        } }
    {
        self.put(
            number,
            Some(KeptStream {
                peer,
                last_ms: now_ms,
                registered: false,
            }),
        );
    }

    /// A whole message came over the stream of this number. Takes no memory.
    pub fn note_message(&mut self, number: u16, now_ms: u64)
        ensures { self.new ≡ record self.old {
          streams = slice_set self.old.streams number
              (received_at now_ms (slice_index_or self.old.streams number None));
        } }
    {
        let stream = received_at(self.stream(number), now_ms);
        self.put(number, stream);
    }

    /// A session is registered on the stream of this number. Takes no memory.
    pub fn register(&mut self, number: u16)
        ensures { self.new ≡ record self.old {
          streams = slice_set self.old.streams number
              (registered (slice_index_or self.old.streams number None));
        } }
    {
        let stream = registered(self.stream(number));
        self.put(number, stream);
    }

    /// The stream of this number ended, and the number is free. Takes no memory.
    pub fn end(&mut self, number: u16)
        ensures { self.new ≡ record self.old { streams = slice_set self.old.streams number None } }
    {
        self.put(number, None);
    }

    /// The stream of this number, if it is open. Takes no memory.
    pub fn stream(&self, number: u16) -> Option<KeptStream>
        ensures { result ≡ slice_index_or self.now.streams number None }
    {
        match self.streams.get(usize::from(number)) {
            Some(stream) => *stream,
            None => None,
        }
    }

    /// Puts a stream, or none, under a number.
    fn put(&mut self, number: u16, stream: Option<KeptStream>)
        ensures { self.new ≡ record self.old { streams = slice_set self.old.streams number stream } }
    {
        let index = usize::from(number);
        if index < self.streams.len() {
            self.streams[index] = stream;
        }
    }

    /// The first stream that has been silent for the time-out. Takes no memory.
    pub fn silent(&self, now_ms: u64) -> Option<u16>
        ensures { result ≡ silent_of self.now now_ms }
    {
        if self.limit_ms == 0 {
            return None;
        }
        match first_silent(self.streams.as_slice(), self.limit_ms, now_ms) {
            Some(index) => Some(index as u16),
            None => None,
        }
    }

    /// The milliseconds until a stream has been silent for the time-out: none if one has now. At most so many. Takes no
    /// memory.
    pub fn wait(&self, now_ms: u64, most_ms: u64) -> u64
        ensures { result ≡ wait_of self.now now_ms most_ms }
    {
        if self.limit_ms == 0 {
            return most_ms;
        }
        least_wait(self.streams.as_slice(), self.limit_ms, now_ms, most_ms)
    }

    /// The place for a new stream of this peer, while these nodes have connections, and these own outputs. Takes no memory.
    pub fn place_for(&self, peer: Node, connected: &[Node], owners: &[Node]) -> Place
        ensures { result ≡ place_of peer connected.now owners.now self.now.streams }
    {
        let count = count_of(self.streams.as_slice(), peer);
        if count >= MOST_OF_ONE {
            return self.place_among(
                Candidates::OwnWithoutSession,
                Candidates::Own,
                peer,
                connected,
                owners,
            );
        }
        if has_free(self.streams.as_slice()) {
            return Place::Free;
        }
        if count == 0 {
            return self.place_of_others(Candidates::WithoutOutput, peer, connected, owners);
        }
        self.place_of_others(Candidates::WithoutConnection, peer, connected, owners)
    }

    /// The place of a stream without a session, or else of one without a connection, or else of one of this group.
    fn place_of_others(
        &self,
        last: Candidates,
        peer: Node,
        connected: &[Node],
        owners: &[Node],
    ) -> Place
        ensures { result ≡ place_of_others last peer connected.now owners.now self.now.streams }
    {
        let streams = self.streams.as_slice();
        match longest_silent(streams, Candidates::WithoutSession, peer, connected, owners) {
            Some(index) => Place::Instead(index as u16),
            None => self.place_among(Candidates::WithoutConnection, last, peer, connected, owners),
        }
    }

    /// The place of one of the first group, or else of one of the second.
    fn place_among(
        &self,
        first: Candidates,
        second: Candidates,
        peer: Node,
        connected: &[Node],
        owners: &[Node],
    ) -> Place
        ensures { result ≡ place_among first second peer connected.now owners.now self.now.streams }
    {
        let streams = self.streams.as_slice();
        if let Some(index) = longest_silent(streams, first, peer, connected, owners) {
            return Place::Instead(index as u16);
        }
        match longest_silent(streams, second, peer, connected, owners) {
            Some(index) => Place::Instead(index as u16),
            None => Place::Refused,
        }
    }
}

/// The stream after a whole message at this time.
fn received_at(stream: Option<KeptStream>, now_ms: u64) -> Option<KeptStream>
    ensures { result ≡ received_at now_ms stream }
{
    match stream {
        Some(stream) => Some(KeptStream {
            last_ms: now_ms,
            ..stream
        }),
        None => None,
    }
}

/// The stream after its session was registered.
fn registered(stream: Option<KeptStream>) -> Option<KeptStream>
    ensures { result ≡ registered stream }
{
    match stream {
        Some(stream) => Some(KeptStream {
            registered: true,
            ..stream
        }),
        None => None,
    }
}

/// Whether the stream has been silent for the time-out.
fn is_silent(stream: &Option<KeptStream>, limit_ms: u64, now_ms: u64) -> bool
    ensures { result ≡ is_silent limit_ms now_ms stream.now }
{
    match stream {
        Some(stream) => limit_ms <= now_ms.saturating_sub(stream.last_ms),
        None => false,
    }
}

/// The first of these streams that has been silent for the time-out.
fn first_silent(streams: &[Option<KeptStream>], limit_ms: u64, now_ms: u64) -> Option<usize>
    ensures { result ≡ position (is_silent limit_ms now_ms) streams.now }
{
    streams
        .iter()
        .position(|stream| is_silent(stream, limit_ms, now_ms))
}

/// Whether a number is free.
fn has_free(streams: &[Option<KeptStream>]) -> bool
    ensures { result ≡ list_any is_free streams.now }
{
    streams.iter().any(|stream| stream.is_none())
}

/// The time until the stream has been silent for the time-out, or a shorter one.
fn wait_for(stream: &Option<KeptStream>, limit_ms: u64, now_ms: u64, wait_ms: u64) -> u64
    ensures { result ≡ wait_for limit_ms now_ms wait_ms stream.now }
{
    match stream {
        Some(stream) => {
            let silent_ms = now_ms.saturating_sub(stream.last_ms);
            wait_ms.min(limit_ms.saturating_sub(silent_ms))
        }
        None => wait_ms,
    }
}

/// The time until the first of these streams has been silent for the time-out, or a shorter one.
fn least_wait(streams: &[Option<KeptStream>], limit_ms: u64, now_ms: u64, most_ms: u64) -> u64
    ensures { result ≡ least_wait limit_ms now_ms most_ms streams.now }
{
    let mut wait_ms = most_ms;
    for stream in streams {
        wait_ms = wait_for(stream, limit_ms, now_ms, wait_ms);
    }
    wait_ms
}
