//! The targets of a scanner, and the streams that are being opened to them.

ghost use Rattle.std.specs.Prelude.{◌≡◌};
ghost use Rattle.station_port.specs.Streams.Refusals.{dial_outcome, is_refusal};
ghost use Rattle.station_port.specs.Closes.{sent_link};
ghost use Rattle.socket_port.specs.Rules.Links.{at_stream, at_target, failed_link, given_up_link, received_link, lost_link, refused_link, registered_link, registers_on, wait_of};

use crate::streams::dial::dial;
use crate::streams::kept_streams::KeptStreams;
use crate::streams::nop::NOP;
use crate::streams::ready::{OPENINGS, STREAMS};
use crate::streams::sessions::asks_session;
use cip_types::limits::MOST_STREAMS;
use cip_types::{Node, OutOfMemory};
use mio::net::TcpStream;
use mio::{Interest, Registry};
use socket_port::{Destination, LinkState, TargetLinks};
use std::alloc::Global;
use std::io::{self, ErrorKind};
use std::net::Net;
use udp_runner::{PortReport, RefusalCause};

/// The targets of a scanner, the links to them, the streams that are being opened, and why the last ones did not open,
/// as it was reported.
#[derive(Drop)]
pub struct Targets {
    /// The address from which the streams are opened.
    from: Node,
    targets: Vec<Destination>,
    links: TargetLinks,
    opening: Vec<Option<TcpStream>>,
    reported: Vec<Option<RefusalCause>>,
}

impl Targets {
    /// These targets, whose streams come from this address: each stream is to be opened at once, and is given up if no
    /// session is registered on it within so many milliseconds.
    pub fn new(
        alloc: Global,
        from: Node,
        targets: &[Destination],
        session_ms: u64,
    ) -> Result<Targets, OutOfMemory> {
        let mut opening = Vec::with_capacity(alloc, targets.len())?;
        for _ in targets {
            opening.push(None)?;
        }
        Ok(Targets {
            from,
            targets: Vec::from_slice(alloc, targets)?,
            links: TargetLinks::new(alloc, targets.len(), session_ms)?,
            opening,
            reported: vec![in alloc; None; targets.len()]?,
        })
    }

    /// Begins to open each stream that is due, and gives up each one that did not open in time.
    pub fn advance<R: Net>(
        &mut self,
        rt: &R,
        registry: &Registry,
        streams: &mut KeptStreams,
        now_ms: u64,
    ) {
        for _ in 0..self.targets.len() {
            let Some(target) = self.links.due(now_ms) else {
                break;
            };
            self.begin(rt, registry, streams, target, now_ms);
        }
        for _ in 0..self.targets.len() {
            let Some(target) = self.links.late(now_ms) else {
                break;
            };
            self.give_up(streams, target, now_ms);
        }
    }

    /// Begins to open the stream to a target. One that cannot even begin is tried again later.
    fn begin<R: Net>(
        &mut self,
        rt: &R,
        registry: &Registry,
        streams: &mut KeptStreams,
        target: usize,
        now_ms: u64,
    ) {
        match self.connect(rt, registry, target) {
            Some(socket) => {
                self.put_dialled(target, Some(socket));
                self.links.begin(target, now_ms);
            }
            None => self.give_up(streams, target, now_ms),
        }
    }

    /// A stream that is being opened to a target, and is reported once it is open or refused.
    fn connect<R: Net>(&self, rt: &R, registry: &Registry, target: usize) -> Option<TcpStream> {
        let to = self.targets.get(target)?;
        let mut socket = dial(rt, self.from, *to)?;
        registry
            .register(&mut socket, OPENINGS, Interest::WRITABLE)
            .ok()?;
        Some(socket)
    }

    /// The target did not answer: its stream is tried again later.
    fn give_up(&mut self, streams: &mut KeptStreams, target: usize, now_ms: u64)
        ensures { self.new.links ≡ at_target self.old.links target (given_up_link now_ms) }
    {
        self.put_dialled(target, None);
        self.links.give_up(target, now_ms);
        let retry_ms = self.retry_ms(target, now_ms);
        self.report(streams, target, RefusalCause::Unanswered { retry_ms });
    }

    /// The target refused its stream, which is tried again later.
    fn fail(&mut self, streams: &mut KeptStreams, target: usize, now_ms: u64)
        ensures { self.new.links ≡ at_target self.old.links target (failed_link now_ms) }
    {
        self.put_dialled(target, None);
        self.links.fail(target, now_ms);
        let retry_ms = self.retry_ms(target, now_ms);
        self.report(streams, target, RefusalCause::Refused { retry_ms });
    }

    /// The milliseconds until the stream to a target is tried again.
    fn retry_ms(&self, target: usize, now_ms: u64) -> u64 {
        match self.links.link(target).state {
            LinkState::Down { retry_ms } => retry_ms.saturating_sub(now_ms),
            _ => 0,
        }
    }

    /// Reports that the stream to a target did not open, and why, unless the last report of it was the same.
    fn report(&mut self, streams: &mut KeptStreams, target: usize, cause: RefusalCause)
        ensures { self.new.links ≡ self.old.links }
    {
        let Some(peer) = self.node_of(target) else {
            return;
        };
        if self.put_reported(target, Some(cause)) {
            streams.report(PortReport::NotOpened { peer, cause });
        }
    }

    /// Puts what was reported of a target. Whether it was something else before.
    fn put_reported(&mut self, target: usize, cause: Option<RefusalCause>) -> bool
        ensures { self.new.links ≡ self.old.links }
    {
        if target >= self.reported.len() || self.reported[target] == cause {
            return false;
        }
        self.reported[target] = cause;
        true
    }

    /// Takes the stream that is being opened to a target, if there is one.
    fn take_dialled(&mut self, target: usize) -> Option<TcpStream>
        ensures { self.new.links ≡ self.old.links }
    {
        if target >= self.opening.len() {
            return None;
        }
        self.opening[target].take()
    }

    /// Puts the stream that is being opened to a target.
    fn put_dialled(&mut self, target: usize, socket: Option<TcpStream>)
        ensures { self.new.links ≡ self.old.links }
    {
        if target < self.opening.len() {
            self.opening[target] = socket;
        }
    }

    /// Adds the streams that have opened, and drops those that were refused. Whether one was added.
    pub fn settle(&mut self, registry: &Registry, streams: &mut KeptStreams, now_ms: u64) -> bool {
        let mut added = false;
        for target in 0..self.targets.len() {
            added |= self.settle_one(registry, streams, target, now_ms);
        }
        added
    }

    /// Adds the stream to a target if it has opened, and drops it if it was refused. Whether it was added.
    fn settle_one(
        &mut self,
        registry: &Registry,
        streams: &mut KeptStreams,
        target: usize,
        now_ms: u64,
    ) -> bool {
        let Some(peer) = self.node_of(target) else {
            return false;
        };
        let Some(socket) = self.take_dialled(target) else {
            return false;
        };
        match dial_outcome(socket.take_error(), socket.peer_addr().is_ok()) {
            DialOutcome::Pending => {
                self.put_dialled(target, Some(socket));
                false
            }
            DialOutcome::Refused => {
                self.fail(streams, target, now_ms);
                false
            }
            DialOutcome::Unanswered => {
                self.give_up(streams, target, now_ms);
                false
            }
            DialOutcome::Open => self.add(registry, streams, target, peer, socket, now_ms),
        }
    }

    /// The address of a target.
    fn node_of(&self, target: usize) -> Option<Node> {
        match self.targets.get(target) {
            Some(to) => Some(to.node),
            None => None,
        }
    }

    /// Adds a stream that has opened. Whether a number was free, and the socket could be prepared.
    fn add(
        &mut self,
        registry: &Registry,
        streams: &mut KeptStreams,
        target: usize,
        peer: Node,
        mut socket: TcpStream,
        now_ms: u64,
    ) -> bool {
        let watched = registry.reregister(&mut socket, STREAMS, Interest::READABLE);
        if watched.is_err() || socket.set_nodelay(true).is_err() {
            self.give_up(streams, target, now_ms);
            return false;
        }
        let Some(number) = streams.add(peer, socket, now_ms) else {
            self.give_up(streams, target, now_ms);
            return false;
        };
        self.links.open(target, number, now_ms);
        self.put_reported(target, None);
        true
    }

    /// The stream of this number was cut or closed: its target's is opened again later.
    pub fn lose(&mut self, stream: u16, now_ms: u64)
        ensures { self.new.links ≡ at_stream self.old.links stream (lost_link now_ms) }
    {
        self.links.lose_stream(stream, now_ms);
    }

    /// Whether a session is being registered on the stream of this number.
    pub fn is_registering(&self, stream: u16) -> bool
        ensures { result ≡ registers_on self.now.links.links stream }
    {
        self.links.is_registering(stream)
    }

    /// A session is registered on the stream of this number.
    pub fn register(&mut self, stream: u16)
        ensures { self.new.links ≡ at_stream self.old.links stream registered_link }
    {
        self.links.register_stream(stream);
    }

    /// The session of the stream of this number is refused: its target's is opened again later.
    pub fn refuse(&mut self, stream: u16, now_ms: u64)
        ensures { self.new.links ≡ at_stream self.old.links stream (refused_link now_ms) }
    {
        self.links.refuse_stream(stream, now_ms);
    }

    /// The first stream that has no session in time: its target's is opened again later.
    pub fn unregistered(&mut self, now_ms: u64) -> Option<u16> {
        let target = self.links.unregistered(now_ms)?;
        self.links.drop_stream(target, now_ms)
    }

    /// A message was sent over the stream of this number: a request, or one that asks for a session again.
    pub fn send(&mut self, stream: u16, bytes: &[u8], now_ms: u64)
        ensures { self.new.links ≡ at_stream self.old.links stream
            (sent_link bytes.now self.old.links.session_ms now_ms) }
    {
        if asks_session(bytes) {
            self.links.register_over(stream, now_ms);
        } else {
            self.links.request_over(stream);
        }
    }

    /// A message came over the stream of this number.
    pub fn receive(&mut self, stream: u16)
        ensures { self.new.links ≡ at_stream self.old.links stream received_link }
    {
        self.links.receive_over(stream);
    }

    /// A request to the target at this address was not answered in time: the open stream to it, if no message came over that since a
    /// request was sent. It is opened again later.
    pub fn renew(&mut self, node: Node, now_ms: u64) -> Option<u16> {
        let target = self.target_at(node)?;
        self.links.renew_stream(target, now_ms)
    }

    /// A connection with the target at this address is established.
    pub fn succeed(&mut self, node: Node) {
        if let Some(target) = self.target_at(node) {
            self.links.succeed(target);
        }
    }

    /// The target at this address.
    fn target_at(&self, node: Node) -> Option<usize> {
        self.targets.iter().position(|to| to.node == node)
    }

    /// Sends NOP over the stream to each target, so that no target takes it for silent.
    pub fn send_nop(&self, streams: &mut KeptStreams) {
        for stream in 0..MOST_STREAMS as u16 {
            if self.links.target_of(stream).is_some() {
                streams.send(stream, &NOP);
            }
        }
    }

    /// The milliseconds until a stream is to be opened or given up, at most so many.
    pub fn wait(&self, now_ms: u64, most_ms: u64) -> u64
        ensures { result ≡ wait_of now_ms most_ms most_ms self.now.links.links }
    {
        self.links.wait(now_ms, most_ms)
    }
}

/// What became of a stream that is being opened.
#[derive(Clone, Copy, PartialEq, Eq)]
pub enum DialOutcome {
    /// It is still being opened.
    Pending,
    /// Its target refused it.
    Refused,
    /// Its target did not answer.
    Unanswered,
    /// It is open.
    Open,
}

/// What became of a stream that is being opened, by the system's error of it and whether it has a peer.
fn dial_outcome(error: io::Result<Option<io::Error>>, has_peer: bool) -> DialOutcome
    ensures { result ≡ dial_outcome error has_peer }
{
    match error {
        Ok(None) => {
            if has_peer {
                DialOutcome::Open
            } else {
                DialOutcome::Pending
            }
        }
        Ok(Some(error)) => {
            if is_refusal(error.kind()) {
                DialOutcome::Refused
            } else {
                DialOutcome::Unanswered
            }
        }
        Err(_) => DialOutcome::Unanswered,
    }
}

/// Whether a stream that has this error was refused by its target.
fn is_refusal(kind: ErrorKind) -> bool
    ensures { result ≡ is_refusal kind }
{
    matches!(
        kind,
        ErrorKind::ConnectionRefused | ErrorKind::ConnectionReset | ErrorKind::ConnectionAborted
    )
}
