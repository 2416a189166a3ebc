//! The sockets of a station, over which it receives and sends.

ghost use Rattle.std.specs.Prelude.{◌≡◌};
ghost use Rattle.station_port.specs.Closes.{links_after};
ghost use Rattle.station_port.specs.Finding.{finder_wait};
ghost use Rattle.station_port.specs.Streams.Waits.{streams_wait};

use crate::bind::made;
use crate::fault::{StationFault, StationSocket};
use crate::finder::{Finder, NextInquiry};
use crate::groups::GroupSockets;
use crate::named_ports::ItemPorts;
use crate::rounds::{PollRound, PollSource, PollSources};
use crate::streams::{
    DATAGRAMS, KeptStreams, LISTENER, NopTimer, Ready, STREAMS, SessionAnswer, Targets, Welcome,
    address_of, session_answer, wait_for_streams,
};
use cip_events::Arrival;
use cip_types::limits::MOST_STREAMS;
use cip_types::{Items, Node, OutOfMemory};
use mio::net::{TcpListener, TcpStream, UdpSocket};
use mio::{Events, Interest, Registry};
use socket_port::{PollOrder, ReadOutcome, SpareBytes, accepted, node_of, received};
use std::alloc::Global;
use std::net::{Net, SocketAddr};
use udp_runner::{DataGroup, EndCause, Output, PortFault, sent_port};

/// The numbers of streams are below this one.
const STREAM_NUMBERS: u16 = MOST_STREAMS as u16;

/// A poll reads each of so many kinds of sockets once at most.
const SOURCES: u32 = 4;

/// A UDP datagram has fewer bytes. A read of a stream takes at most as many.
const BUFFER_BYTES: usize = 65_536;

/// A connection that was accepted, and is no stream yet.
#[derive(Drop)]
struct Newcomer {
    peer: Node,
    socket: TcpStream,
}

/// The sockets of a station.
#[derive(Drop)]
pub(crate) struct StationSockets {
    alloc: Global,
    listener: Option<TcpListener>,
    udp: UdpSocket,
    pub(crate) groups: GroupSockets,
    /// Whether the next datagram is that of a group, if there is one: they and the others take turns.
    groups_first: bool,
    finder: Option<Finder>,
    /// A connection that waits until a stream has ended.
    newcomer: Option<Newcomer>,
    pub(crate) streams: KeptStreams,
    targets: Targets,
    items: ItemPorts,
    buffer: Vec<u8>,
    spare: SpareBytes,
    order: PollOrder,
    round: PollRound,
    nop: NopTimer,
    pub(crate) ready: Ready,
}

impl StationSockets {
    /// The sockets of a station that has no stream yet.
    pub(crate) fn new(
        alloc: Global,
        listener: Option<TcpListener>,
        udp: UdpSocket,
        groups: GroupSockets,
        finder: Option<Finder>,
        streams: KeptStreams,
        targets: Targets,
        items: ItemPorts,
    ) -> Result<StationSockets, OutOfMemory> {
        Ok(StationSockets {
            alloc,
            listener,
            udp,
            groups,
            groups_first: false,
            finder,
            newcomer: None,
            streams,
            targets,
            items,
            buffer: vec![in alloc; 0; BUFFER_BYTES]?,
            spare: SpareBytes::none(),
            order: PollOrder::begin(),
            round: PollRound::begin(),
            nop: NopTimer::begin(),
            ready: Ready::all(),
        })
    }

    /// Has a wait report the sockets.
    pub(crate) fn register(&mut self, registry: &Registry) -> Result<(), StationFault> {
        if let Some(listener) = &mut self.listener {
            made(
                StationSocket::Wait,
                registry.register(listener, LISTENER, Interest::READABLE),
            )?;
        }
        if let Some(finder) = &mut self.finder {
            finder.register(registry)?;
        }
        made(
            StationSocket::Wait,
            registry.register(&mut self.udp, DATAGRAMS, Interest::READABLE),
        )
    }

    /// Whether the system is to be asked which sockets have something.
    pub(crate) fn asks_system(&mut self) -> bool {
        self.ready.asks_system(self.round.is_over())
    }

    /// The system has reported these sockets: a round of polls begins.
    pub(crate) fn begin_round(&mut self, events: &Events) {
        self.ready.mark_all(events);
        self.round = PollRound::begin();
    }

    /// Opens the streams that are due, ends those that are overdue (silent ones, and those without a session in time), and
    /// sends NOP if it is due. A stream that does not take it has ended. Tries a group again that could not be bound.
    pub(crate) fn advance<R: Net>(&mut self, rt: &R, registry: &Registry, now_ms: u64) {
        self.targets
            .advance(rt, registry, &mut self.streams, now_ms);
        if self.streams.end_silent(now_ms) {
            self.ready.streams = true;
        }
        if let Some(stream) = self.targets.unregistered(now_ms) {
            self.abort(stream, EndCause::NoSession);
        }
        if self.nop.is_due(now_ms) {
            self.targets.send_nop(&mut self.streams);
            self.ready.streams = true;
        }
        self.ready.datagrams |= self.groups.try_again(rt, registry, now_ms);
    }

    /// From now on the datagrams of these groups are received, and of no others.
    pub(crate) fn receive_groups<R: Net>(
        &mut self,
        rt: &R,
        registry: &Registry,
        groups: &[DataGroup],
        now_ms: u64,
    ) {
        self.groups.receive_groups(rt, registry, groups, now_ms);
        self.ready.datagrams = true;
    }

    /// The milliseconds until a stream is to be opened or ended, or an inquiry that waits is due, at most so many.
    pub(crate) fn wait(&self, now_ms: u64, most_ms: u64) -> u64
        ensures { result ≡ streams_wait self.now.streams.keeper self.now.targets.links now_ms
            (finder_wait self.now.finder now_ms most_ms) }
    {
        let most_ms = self.finder_wait(now_ms, most_ms);
        wait_for_streams(&self.streams, &self.targets, now_ms, most_ms)
    }

    /// The milliseconds until an inquiry that waits is due, at most so many.
    fn finder_wait(&self, now_ms: u64, most_ms: u64) -> u64
        ensures { result ≡ finder_wait self.now.finder now_ms most_ms }
    {
        match &self.finder {
            Some(finder) => finder.wait(now_ms, most_ms),
            None => most_ms,
        }
    }

    /// From now on this seed draws how long the answers to broadcasts wait.
    pub(crate) fn draw_delays_by(&mut self, seed: u64) {
        if let Some(finder) = &mut self.finder {
            finder.draw_by(seed);
        }
    }

    /// Breaks a stream at once. Its end is its last arrival.
    fn abort(&mut self, stream: u16, cause: EndCause) {
        self.streams.abort(stream, cause);
        self.ready.streams = true;
    }

    /// A request to a target was not answered in time: ends its stream with all that waits in it, unless a message came over that
    /// since a request was sent, and opens a new one later.
    pub(crate) fn renew(&mut self, target: Node, now_ms: u64) {
        if let Some(stream) = self.targets.renew(target, now_ms) {
            self.abort(stream, EndCause::Renewed);
        }
    }

    /// A connection with a target is established.
    pub(crate) fn succeed(&mut self, target: Node) {
        self.targets.succeed(target);
    }

    /// The arrival that is there now, if there is one: what a round of polls reads next, until something came or nothing is left.
    pub(crate) fn poll(
        &mut self,
        registry: &Registry,
        now_ms: u64,
    ) -> Result<Option<Arrival>, PortFault> {
        let mut left = self.sources();
        let round = self.round;
        self.round.note_poll(left.datagrams);
        for _ in 0..SOURCES {
            let source = round.next_source(left);
            let came = self.read_from(source, registry, now_ms)?;
            if came.is_some() {
                return Ok(came);
            }
            left = left.without(source);
        }
        Ok(None)
    }

    /// What may have something.
    fn sources(&self) -> PollSources {
        PollSources::of(&self.ready, self.finder.is_some())
    }

    /// What one source has. A connection that is accepted is no arrival yet.
    fn read_from(
        &mut self,
        source: PollSource,
        registry: &Registry,
        now_ms: u64,
    ) -> Result<Option<Arrival>, PortFault> {
        match source {
            PollSource::Datagrams => self.poll_datagrams(),
            PollSource::Inquiries => self.poll_inquiries(now_ms),
            PollSource::Streams => self.poll_streams(now_ms),
            PollSource::Connections => {
                self.admit(registry, now_ms)?;
                Ok(None)
            }
            PollSource::Nothing => Ok(None),
        }
    }

    /// Accepts a connection, and adds the streams that have opened.
    fn admit(&mut self, registry: &Registry, now_ms: u64) -> Result<(), PortFault> {
        if self.ready.listener {
            self.accept(registry, now_ms)?;
        }
        if self.ready.openings {
            self.ready.openings = false;
            self.ready.streams |= self.targets.settle(registry, &mut self.streams, now_ms);
        }
        Ok(())
    }

    /// Accepts the connection that waits: first the one that was accepted before. A connection for which there is no place
    /// is closed without reading it.
    fn accept(&mut self, registry: &Registry, now_ms: u64) -> Result<(), PortFault> {
        if let Some(newcomer) = self.newcomer.take() {
            self.welcome(newcomer.peer, newcomer.socket, now_ms);
            return Ok(());
        }
        let Some((mut socket, from)) = self.next_connection()? else {
            return Ok(());
        };
        let Some(peer) = node_of(from) else {
            return Ok(());
        };
        let watched = registry.register(&mut socket, STREAMS, Interest::READABLE);
        if watched.is_ok() && socket.set_nodelay(true).is_ok() {
            self.welcome(peer, socket, now_ms);
        }
        Ok(())
    }

    /// The connection that the listener has, and whether it may have another one.
    fn next_connection(&mut self) -> Result<Option<(TcpStream, SocketAddr)>, PortFault> {
        let Some(listener) = &self.listener else {
            self.ready.listener = false;
            return Ok(None);
        };
        let outcome = listener.accept();
        self.ready.note_accept(match &outcome {
            Ok(_) => None,
            Err(error) => Some(error.kind()),
        });
        accepted(outcome)
    }

    /// Adds a stream that a peer opened, or has it wait for the end of another one.
    fn welcome(&mut self, peer: Node, socket: TcpStream, now_ms: u64) {
        self.ready.streams = true;
        match self.streams.welcome(peer, socket, now_ms) {
            Welcome::Done => {}
            Welcome::Waits(socket) => self.newcomer = Some(Newcomer { peer, socket }),
        }
    }

    /// The datagram that is there now.
    fn poll_datagrams(&mut self) -> Result<Option<Arrival>, PortFault> {
        if !self.ready.datagrams {
            return Ok(None);
        }
        let Some((count, from)) = self.next_datagram()? else {
            self.ready.datagrams = false;
            return Ok(None);
        };
        self.round.note_datagram();
        let Some(peer) = node_of(from) else {
            return Ok(None);
        };
        let Some(datagram) = self.buffer.get(..count) else {
            return Ok(None);
        };
        match self.spare.copy(self.alloc, datagram) {
            Ok(bytes) => Ok(Some(Arrival::Datagram { peer, bytes })),
            Err(OutOfMemory) => Err(PortFault::Memory),
        }
    }

    /// The datagram that waits at the socket, whether it was reported or not.
    pub(crate) fn waiting_datagram(&mut self) -> Result<Option<Arrival>, PortFault> {
        self.ready.datagrams = true;
        self.poll_datagrams()
    }

    /// The inquiry that is there now, if the device may be given one.
    fn poll_inquiries(&mut self, now_ms: u64) -> Result<Option<Arrival>, PortFault> {
        match self.next_inquiry(now_ms)? {
            NextInquiry::Inquiry(peer, bytes) => Ok(Some(Arrival::Inquiry { peer, bytes })),
            NextInquiry::Later => Ok(None),
            NextInquiry::Nothing => {
                self.ready.finder = false;
                Ok(None)
            }
        }
    }

    /// The next inquiry, if a socket is reported or one that waits is due.
    fn next_inquiry(&mut self, now_ms: u64) -> Result<NextInquiry, PortFault> {
        let is_due = self.finder_wait(now_ms, 1) == 0;
        match &mut self.finder {
            Some(finder) if is_due || self.ready.finder => finder.next(&mut self.buffer, now_ms),
            _ => Ok(NextInquiry::Nothing),
        }
    }

    /// The next datagram in the buffer: the number of its bytes, and its sender. The station's own socket and those of its groups
    /// take turns.
    fn next_datagram(&mut self) -> Result<Option<(usize, SocketAddr)>, PortFault> {
        self.groups_first = !self.groups_first;
        if self.groups_first {
            if let Some(came) = self.groups.receive(&mut self.buffer)? {
                return Ok(Some(came));
            }
            return received(self.udp.recv_from(&mut self.buffer));
        }
        if let Some(came) = received(self.udp.recv_from(&mut self.buffer))? {
            return Ok(Some(came));
        }
        self.groups.receive(&mut self.buffer)
    }

    /// Takes back the bytes of a datagram.
    pub(crate) fn recycle(&mut self, bytes: Items<u8>) {
        self.spare.keep(bytes);
    }

    /// The arrival of a stream that is there now. The streams take turns.
    fn poll_streams(&mut self, now_ms: u64) -> Result<Option<Arrival>, PortFault> {
        if !self.ready.streams {
            return Ok(None);
        }
        let mut found = false;
        for place in 0..STREAM_NUMBERS {
            let number = self.order.stream_at(place);
            found |= self.read(number)?;
            if let Some(arrival) = self.streams.next(number, now_ms) {
                self.order.begin_behind(number);
                return Ok(Some(self.pass_on(arrival, now_ms)?));
            }
        }
        self.ready.streams = found;
        Ok(None)
    }

    /// Reads the bytes of one stream that are there now. Whether there were any.
    fn read(&mut self, number: u16) -> Result<bool, PortFault> {
        match self.streams.read(number, &mut self.buffer) {
            ReadOutcome::Nothing => Ok(false),
            ReadOutcome::End => {
                self.streams.end(number, EndCause::Cut);
                Ok(true)
            }
            ReadOutcome::Bytes(count) => self.keep_bytes(number, count),
        }
    }

    /// Takes the bytes of a stream out of the buffer. If there is no memory for them, the stream ends.
    fn keep_bytes(&mut self, number: u16, count: usize) -> Result<bool, PortFault> {
        let Some(piece) = self.buffer.get(..count) else {
            return Ok(false);
        };
        match self.streams.receive(number, piece) {
            Ok(()) => Ok(true),
            Err(OutOfMemory) => Err(PortFault::Memory),
        }
    }

    /// An arrival of a stream on its way to the device. After a cut the stream to its target is opened again later.
    fn pass_on(&mut self, arrival: Arrival, now_ms: u64) -> Result<Arrival, PortFault> {
        match arrival {
            Arrival::Frame { stream, bytes } => self.pass_message(stream, bytes, now_ms),
            Arrival::Cut { stream } => {
                self.targets.lose(stream, now_ms);
                Ok(Arrival::Cut { stream })
            }
            other => Ok(other),
        }
    }

    /// A message on its way to the device. The reply of a target that registers a session, or refuses it, is
    /// noted, and so is the destination that it names for datagrams. The item of a port that is honoured is taken off, for which there
    /// is memory or the stream ends.
    fn pass_message(
        &mut self,
        stream: u16,
        bytes: Items<u8>,
        now_ms: u64,
    ) -> Result<Arrival, PortFault> {
        self.targets.receive(stream);
        // (a message is read only where its stream has no session yet, and then the device reads it too)
        if self.targets.is_registering(stream) {
            self.note_session(stream, bytes.as_slice(), now_ms);
        }
        let peer = self.streams.peer(stream);
        let bytes = match self
            .items
            .arrive(self.alloc, stream, peer, bytes.as_slice())
        {
            Ok(Some(shorter)) => Items::from_vec(shorter),
            Ok(None) => bytes,
            Err(OutOfMemory) => {
                self.streams.end(stream, EndCause::NoMemory);
                self.ready.streams = true;
                return Err(PortFault::Memory);
            }
        };
        Ok(Arrival::Frame { stream, bytes })
    }

    /// Notes what a message says of the session that is being registered on its stream: a stream whose session is refused
    /// ends.
    fn note_session(&mut self, stream: u16, message: &[u8], now_ms: u64) {
        match session_answer(message) {
            SessionAnswer::Registered => self.targets.register(stream),
            SessionAnswer::Refused => {
                self.targets.refuse(stream, now_ms);
                self.streams.end(stream, EndCause::SessionRefused);
                self.ready.streams = true;
            }
            SessionAnswer::None => {}
        }
    }

    /// Sends an output. A message that its stream does not take whole ends the stream, whose end is the next arrival. A
    /// datagram that the system does not take is lost, as it may be on the network.
    pub(crate) fn send(&mut self, output: &Output<'_>, now_ms: u64)
        ensures { self.new.targets.links ≡ links_after output.now now_ms self.old.targets.links }
    {
        match output {
            Output::Frame { stream, bytes } => {
                self.send_message(*stream, bytes);
                self.targets.send(*stream, bytes, now_ms);
                self.ready.streams = true;
            }
            Output::Datagram { node, bytes } => self.send_datagram(*node, bytes),
            Output::Close { stream } => {
                self.streams.close(*stream);
                self.targets.lose(*stream, now_ms);
            }
            Output::Reply { peer, bytes } => self.reply(*peer, bytes),
        }
    }

    /// Sends a reply to where the last inquiry of a peer came from.
    fn reply(&mut self, peer: Node, bytes: &[u8])
        ensures { self.new.targets ≡ self.old.targets }
    {
        if let Some(finder) = &mut self.finder {
            finder.reply(peer, bytes);
        }
    }

    /// Sends a message over a stream: a request with the item that names the station's port, if it has one. A stream for whose
    /// message there is no memory ends.
    fn send_message(&mut self, stream: u16, bytes: &[u8])
        ensures { self.new.targets.links ≡ self.old.targets.links }
    {
        let peer = self.streams.peer(stream);
        match self.items.leave(self.alloc, stream, peer, bytes) {
            Ok(Some(longer)) => self.streams.send(stream, longer.as_slice()),
            Ok(None) => self.streams.send(stream, bytes),
            Err(OutOfMemory) => self.streams.end(stream, EndCause::NoMemory),
        }
    }

    /// Sends a datagram to a node, at the destination that its peer has named for it or at the usual port; or to a group, at the port
    /// that replies name.
    fn send_datagram(&self, node: Node, bytes: &[u8]) {
        let to = self.items.destination_for(node, bytes);
        let port = sent_port(to.address, to.port);
        let _ = self.udp.send_to(bytes, address_of(to.address, port));
    }
}
