//! The streams of a station, with the rules by which they end and make room.

ghost use Rattle.std.specs.Prelude.{◌≡◌};
ghost use Rattle.station_port.specs.Streams.Waits.{streams_wait};
ghost use Rattle.socket_port.specs.Rules.Keeping.{wait_of};

use crate::streams::causes::EndCauses;
use crate::streams::reports::Reports;
use crate::streams::sessions::{SessionAnswer, session_answer};
use crate::streams::stream_options::{abort, watch_peer};
use crate::streams::targets::Targets;
use cip_events::Arrival;
use cip_types::limits::MOST_STREAMS;
use cip_types::{Node, OutOfMemory};
use mio::net::TcpStream;
use socket_port::{Place, PortStreams, ReadOutcome, Shortener, StreamKeeper, read_outcome};
use std::alloc::Global;
use std::io::Read;
use udp_runner::{EndCause, PortReport, RefusalCause};

/// So many peers can have connections: 64 of class 1, and 64 of class 3.
const MOST_PEERS: usize = 128;

/// The streams of a station, why those end that it ends, and what it reports of them.
#[derive(Drop)]
pub struct KeptStreams {
    alloc: Global,
    streams: PortStreams<TcpStream>,
    keeper: StreamKeeper,
    causes: EndCauses,
    reports: Reports,
    /// The bytes of the streams to targets as the device sees them, by the numbers of the streams; none of an adapter.
    shorteners: Vec<Shortener>,
    /// The peers that have connections, of whatever class, and those that own outputs.
    connected: Vec<Node>,
    owners: Vec<Node>,
}

/// What becomes of a new connection.
pub enum Welcome {
    /// It is a stream now, or is closed.
    Done,
    /// It has to wait until another stream has ended.
    Waits(TcpStream),
}

impl KeptStreams {
    /// No streams of an adapter. A silent one ends after so many seconds; 0: never. A message that is too long for a device ends its
    /// stream.
    pub fn adapter(alloc: Global, inactivity_s: u16) -> Result<KeptStreams, OutOfMemory> {
        KeptStreams::new(alloc, inactivity_s, 0)
    }

    /// No streams of a scanner. No silent one ends. Of a message that is too long for a device the device sees the header alone.
    pub fn scanner(alloc: Global) -> Result<KeptStreams, OutOfMemory> {
        KeptStreams::new(alloc, 0, MOST_STREAMS)
    }

    /// No streams. Of those of so many numbers no message is too long.
    fn new(alloc: Global, inactivity_s: u16, shortened: usize) -> Result<KeptStreams, OutOfMemory> {
        let mut shorteners = Vec::with_capacity(alloc, shortened)?;
        for _ in 0..shortened {
            shorteners.push(Shortener::begin(alloc))?;
        }
        Ok(KeptStreams {
            alloc,
            streams: PortStreams::new(alloc)?,
            keeper: StreamKeeper::new(alloc, inactivity_s)?,
            causes: EndCauses::new(alloc)?,
            reports: Reports::new(alloc)?,
            shorteners,
            connected: Vec::with_capacity(alloc, MOST_PEERS)?,
            owners: Vec::with_capacity(alloc, MOST_PEERS)?,
        })
    }

    /// Adds a stream over a prepared socket. None if no number is free: the socket is closed.
    pub fn add(&mut self, peer: Node, socket: TcpStream, now_ms: u64) -> Option<u16> {
        watch_peer(&socket);
        let Ok(number) = self.streams.accept(peer, socket) else {
            return None;
        };
        self.keeper.begin(number, peer, now_ms);
        if let Some(shortener) = self.shorteners.get_mut(usize::from(number)) {
            *shortener = Shortener::begin(self.alloc);
        }
        self.reports.push(PortReport::Opened {
            stream: number,
            peer,
        });
        Some(number)
    }

    /// Adds a stream that a peer opened over a prepared socket, if there is a place for it. It waits if a stream makes
    /// room for it, or one is being ended already, and is closed if there is no place.
    pub fn welcome(&mut self, peer: Node, socket: TcpStream, now_ms: u64) -> Welcome {
        let place = self
            .keeper
            .place_for(peer, self.connected.as_slice(), self.owners.as_slice());
        if place == Place::Free {
            let _ = self.add(peer, socket, now_ms);
            return Welcome::Done;
        }
        if self.causes.any() {
            return Welcome::Waits(socket);
        }
        let Place::Instead(number) = place else {
            self.report(PortReport::NotOpened {
                peer,
                cause: RefusalCause::Full,
            });
            return Welcome::Done;
        };
        self.abort(number, EndCause::Displaced);
        Welcome::Waits(socket)
    }

    /// Breaks the stream of this number at once: nothing that waits in it is delivered. Its end is its last arrival.
    pub fn abort(&mut self, number: u16, cause: EndCause) {
        if let Some(socket) = self.streams.socket(number) {
            abort(socket);
        }
        self.end(number, cause);
    }

    /// Ends the stream of this number for this cause. Its end is its last arrival.
    pub fn end(&mut self, number: u16, cause: EndCause) {
        if self.streams.socket(number).is_some() {
            self.causes.mark(number, cause);
            self.streams.end(number);
        }
    }

    /// Breaks the first stream that has been silent for the time-out. Whether there was one.
    pub fn end_silent(&mut self, now_ms: u64) -> bool {
        let Some(number) = self.keeper.silent(now_ms) else {
            return false;
        };
        self.abort(number, EndCause::Silent);
        true
    }

    /// The milliseconds until a stream has been silent for the time-out, at most so many.
    pub fn wait(&self, now_ms: u64, most_ms: u64) -> u64
        ensures { result ≡ wait_of self.now.keeper now_ms most_ms }
    {
        self.keeper.wait(now_ms, most_ms)
    }

    /// Reads the bytes that a stream has received, if it is to be read. What a peer sent on a stream that it has reset is not
    /// read: a request that its sender has given up makes no connection.
    pub fn read(&self, number: u16, buffer: &mut [u8]) -> ReadOutcome {
        let Some(mut socket) = self.streams.to_read(number) else {
            return ReadOutcome::Nothing;
        };
        match socket.take_error() {
            Ok(None) => read_outcome(socket.read(buffer)),
            _ => ReadOutcome::End,
        }
    }

    /// The peer of the stream of this number, if it is open.
    pub fn peer(&self, number: u16) -> Option<Node> {
        match self.keeper.stream(number) {
            Some(stream) => Some(stream.peer),
            None => None,
        }
    }

    /// Receives bytes of a stream. If there is no memory for them, the stream ends; so does that of an adapter with a message that is
    /// too long.
    pub fn receive(&mut self, number: u16, piece: &[u8]) -> Result<(), OutOfMemory> {
        let received = self.receive_seen(number, piece);
        if received.is_err() {
            self.end(number, EndCause::NoMemory);
        } else if self.streams.has_ended(number) {
            self.causes.mark(number, EndCause::TooLong);
        }
        received
    }

    /// Receives the bytes of a stream that the device sees. The fault: an allocation was refused.
    fn receive_seen(&mut self, number: u16, piece: &[u8]) -> Result<(), OutOfMemory> {
        match self.shorteners.get_mut(usize::from(number)) {
            Some(shortener) => {
                let seen = shortener.shorten(self.alloc, piece)?;
                self.streams.receive(number, seen.as_slice())
            }
            None => self.streams.receive(number, piece),
        }
    }

    /// The next arrival of a stream. A message counts as a sign of life, and after the end the number is free.
    pub fn next(&mut self, number: u16, now_ms: u64) -> Option<Arrival> {
        let arrival = self.streams.next(number)?;
        match &arrival {
            Arrival::Frame { .. } => self.keeper.note_message(number, now_ms),
            Arrival::Cut { .. } => self.forget(number),
            _ => {}
        }
        Some(arrival)
    }

    /// The stream of this number has ended.
    fn forget(&mut self, number: u16) {
        let cause = self.causes.take_cause(number);
        if let Some(stream) = self.keeper.stream(number) {
            self.reports.push(PortReport::Ended {
                stream: number,
                peer: stream.peer,
                cause,
            });
        }
        self.keeper.end(number);
    }

    /// Sends a message over a stream. The reply that registers a session is noted: a stream that has one is not read.
    pub fn send(&mut self, number: u16, message: &[u8]) {
        if self.is_unregistered(number) && session_answer(message) == SessionAnswer::Registered {
            self.keeper.register(number);
        }
        self.streams.send(number, message);
    }

    /// Whether the stream of this number is open, and has no session.
    fn is_unregistered(&self, number: u16) -> bool {
        matches!(self.keeper.stream(number), Some(stream) if !stream.registered)
    }

    /// Closes the stream of this number in order: what waits in it is delivered.
    pub fn close(&mut self, number: u16) {
        self.streams.close(number);
        self.forget(number);
    }

    /// From now on these peers have connections, and these own outputs, as far as there is room for them.
    pub fn keep(&mut self, peers: &[Node], owners: &[Node]) {
        put_all(&mut self.connected, peers);
        put_all(&mut self.owners, owners);
    }

    /// Adds a report.
    pub fn report(&mut self, report: PortReport) {
        self.reports.push(report);
    }

    /// Takes the oldest report.
    pub fn next_report(&mut self) -> Option<PortReport> {
        self.reports.next()
    }
}

/// Puts these peers in place of those that were there, as far as there is room for them.
fn put_all(list: &mut Vec<Node>, peers: &[Node]) {
    list.clear();
    for peer in peers {
        if list.len() < MOST_PEERS {
            let _ = list.push(*peer);
        }
    }
}

/// The milliseconds until a stream is to be opened or ended, at most so many: none if one is now.
pub fn wait_for_streams(streams: &KeptStreams, targets: &Targets, now_ms: u64, most_ms: u64) -> u64
    ensures { result ≡ streams_wait streams.now.keeper targets.now.links now_ms most_ms }
{
    streams.wait(now_ms, targets.wait(now_ms, most_ms))
}
