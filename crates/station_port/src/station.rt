//! A station's port.

ghost use Rattle.std.specs.Prelude.{◌≡◌, IfOk};

use crate::alarm::Alarm;
use crate::bind::{datagrams, listen, made};
use crate::counters::{CountersRequested, names_link};
use crate::fault::{StationFault, StationSocket};
use crate::finder::Finder;
use crate::groups::GroupSockets;
use crate::named_ports::ItemPorts;
use crate::place::StationPlace;
use crate::sockets::StationSockets;
use crate::streams::{KeptStreams, Targets, WAKER, address_of};
use cip_events::Arrival;
use cip_types::{Items, Node};
use mio::{Events, Poll, Waker};
use socket_port::Destination;
use std::alloc::Global;
use std::net::Net;
use std::rt::Clock as System;
use std::sync::Wait;
use std::thread;
use std::time::{Duration, Instant};
use udp_runner::{
    BusyTime, DataGroup, GroupPort, KeptPort, Output, Port, PortFault, PortReport, wait_length,
    whole_ms,
};

/// A wait reports at most so many sockets at once; others are reported by the next one.
const MOST_EVENTS: usize = 64;

/// The nanoseconds of a millisecond.
const NANOSECONDS: u64 = 1_000_000;

/// A port at a real address.
#[derive(Drop)]
pub struct StationPort<R: System + Drop> {
    rt: R,
    /// The last reading of the system's clock, and the nanoseconds that have passed at this port.
    last: Instant,
    passed_ns: u64,
    poll: Poll,
    events: Events,
    sockets: StationSockets,
    /// Ends a wait at its time, between two milliseconds.
    alarm: Option<Alarm>,
    busy: BusyTime,
    multicast: bool,
    /// Whom it tells that a frame waits which may read what the host has counted, and that frame.
    counters: Option<CountersRequested>,
    held: Option<Arrival>,
    failures: u64,
}

impl<R: System + Net + Drop> StationPort<R> {
    /// An adapter's port: its peers open its streams, and inquire which device it is.
    pub fn adapter(alloc: Global, rt: R, place: &StationPlace) -> Result<Self, StationFault>
        ensures { IfOk result (λ port. port.failures ≡ 0) }
    {
        let listener = listen(&rt, address_of(place.address, place.tcp))?;
        let udp = datagrams(&rt, address_of(place.address, place.udp))?;
        let finder = Finder::new(alloc, &rt, place)?;
        let streams = KeptStreams::adapter(alloc, place.inactivity_s)?;
        let targets = Targets::new(alloc, place.address, &[], 0)?;
        let items = ItemPorts::new(alloc, place.target_use(), place.peer_udp)?;
        let sockets = StationSockets::new(
            alloc,
            Some(listener),
            udp,
            GroupSockets::none(alloc, place)?,
            Some(finder),
            streams,
            targets,
            items,
        )?;
        StationPort::begin(alloc, rt, sockets, place.multicast)
    }

    /// A scanner's port: it opens a stream to each of these targets, and opens it again after a cut, a refusal, or if no
    /// session is registered on it within so many milliseconds, without end.
    pub fn scanner(
        alloc: Global,
        rt: R,
        place: &StationPlace,
        targets: &[Destination],
        open_ms: u64,
    ) -> Result<Self, StationFault>
        ensures { IfOk result (λ port. port.failures ≡ 0) }
    {
        let udp = datagrams(&rt, address_of(place.address, place.udp))?;
        let streams = KeptStreams::scanner(alloc)?;
        let targets = Targets::new(alloc, place.address, targets, open_ms)?;
        let items = ItemPorts::new(alloc, place.originator_use(), place.peer_udp)?;
        let groups = GroupSockets::none(alloc, place)?;
        let sockets = StationSockets::new(alloc, None, udp, groups, None, streams, targets, items)?;
        StationPort::begin(alloc, rt, sockets, place.multicast)
    }

    /// A port over these sockets.
    fn begin(
        alloc: Global,
        rt: R,
        sockets: StationSockets,
        multicast: bool,
    ) -> Result<Self, StationFault>
        ensures { IfOk result (λ port. port.failures ≡ 0) }
    {
        let last = made(StationSocket::Wait, Instant::now(&rt))?;
        let poll = made(StationSocket::Wait, Poll::new(&rt))?;
        let events = Events::with_capacity(alloc, MOST_EVENTS)?;
        let mut sockets = sockets;
        sockets.register(poll.registry())?;
        Ok(StationPort {
            rt,
            last,
            passed_ns: 0,
            poll,
            events,
            sockets,
            alarm: None,
            busy: BusyTime::begin(0),
            multicast,
            counters: None,
            held: None,
            failures: 0,
        })
    }

    /// From now on this seed draws how long the answers to broadcasts wait. Before it the port's address does.
    pub fn draw_delays_by(&mut self, seed: u64)
        ensures { self.new.failures ≡ self.old.failures }
    {
        self.sockets.draw_delays_by(seed);
    }

    /// Ends a wait of this port from another thread.
    pub fn waker(&self) -> Result<Waker, StationFault> {
        made(StationSocket::Wait, Waker::new(self.poll.registry(), WAKER))
    }

    /// From now on this alarm ends a wait of this port at its time, if a thread keeps it ringing. Without one a wait ends at
    /// the next whole millisecond.
    pub fn set_alarm(&mut self, alarm: Alarm) -> Result<(), StationFault>
    where
        R: Wait,
        ensures { self.new.failures ≡ self.old.failures }
    {
        let waker = self.waker()?;
        alarm.ring_by(&self.rt, waker);
        self.alarm = Some(alarm);
        Ok(())
    }

    /// From now on this port reports each frame that may read what its host has counted, one receive before it gives the frame.
    pub fn report_counter_reads(&mut self, requested: CountersRequested)
        ensures { self.new.failures ≡ self.old.failures }
    {
        self.counters = Some(requested);
    }

    /// The arrival, unless it is a frame that may read what the host has counted: that one is held, and told of.
    fn hold_reader(&mut self, came: Option<Arrival>) -> Option<Arrival>
        ensures { self.new.failures ≡ self.old.failures }
    {
        let reads = match &came {
            Some(Arrival::Frame { bytes, .. }) => names_link(bytes.as_slice()),
            _ => false,
        };
        match &self.counters {
            Some(requested) if reads => requested.set(),
            _ => return came,
        }
        self.held = came;
        None
    }

    /// The arrival that is there now.
    fn next_arrival(&mut self) -> Result<Option<Arrival>, PortFault>
        ensures { self.new.failures ≡ self.old.failures }
    {
        let now_ms = self.now_ms();
        self.sockets.advance(&self.rt, self.poll.registry(), now_ms);
        if self.sockets.asks_system() {
            self.mark_reported(Duration::ZERO);
        }
        self.sockets.poll(self.poll.registry(), now_ms)
    }
}

impl<R: System + Drop> StationPort<R> {
    /// The milliseconds that have passed at the port. A system's clock that goes back adds none, and the next reading counts
    /// from it.
    fn now_ms(&mut self) -> u64
        ensures { self.new.failures ≡ self.old.failures }
    {
        self.now_ns() / NANOSECONDS
    }

    /// The nanoseconds that have passed at the port.
    fn now_ns(&mut self) -> u64
        ensures { self.new.failures ≡ self.old.failures }
    {
        if let Ok(now) = Instant::now(&self.rt) {
            let ns = u64::try_from(now.duration_since(self.last).as_nanos()).unwrap_or(0);
            self.passed_ns = self.passed_ns.saturating_add(ns);
            self.last = now;
        }
        self.passed_ns
    }

    /// Rests, if the port was busy for too long without waiting.
    fn rest(&mut self)
        ensures { self.new.failures ≡ self.old.failures }
    {
        let from_ns = self.now_ns();
        let rest_ns = self.busy.rest_ns(from_ns);
        if rest_ns > 0 {
            thread::sleep(&self.rt, Duration::from_nanos(rest_ns));
            self.note_wait(from_ns);
        }
    }

    /// A wait or a rest that began at this time has ended.
    fn note_wait(&mut self, from_ns: u64)
        ensures { self.new.failures ≡ self.old.failures }
    {
        let to_ns = self.now_ns();
        self.busy.note_wait(from_ns, to_ns);
    }

    /// Waits until a socket is reported, at most so long, and marks what is reported. Whether the system has answered.
    fn mark_reported(&mut self, most: Duration) -> bool
        ensures { self.new.failures ≡ self.old.failures }
    {
        if self.poll.poll(&mut self.events, Some(most)).is_err() {
            return false;
        }
        self.sockets.begin_round(&self.events);
        true
    }

    /// Waits until a socket is reported, at most so long: the system counts the milliseconds, rounded up, and the alarm rings
    /// at the end.
    fn wait_for(&mut self, length: Duration)
        ensures { self.new.failures ≡ self.old.failures }
    {
        self.set_alarm_for(length);
        self.sockets.ready.reported = self.mark_reported(length);
    }

    /// Sets the alarm, if there is one, to the end of a wait of this length that begins at the last reading of the clock.
    fn set_alarm_for(&self, length: Duration) {
        if let (Some(alarm), Some(end)) = (&self.alarm, self.last.checked_add(length)) {
            alarm.set(self.last, end);
        }
    }

    /// The length of a wait of at most so long, which begins now: a shorter one if an inquiry is due or a stream is to be
    /// opened or ended before.
    fn length_of(&mut self, most: Duration) -> Duration
        ensures { self.new.failures ≡ self.old.failures }
    {
        let now_ms = self.now_ms();
        let most_ms = whole_ms(most).saturating_add(1);
        wait_length(most, self.sockets.wait(now_ms, most_ms))
    }
}

impl<R: System + Net + Drop> Port for StationPort<R> {
    ghost use Rattle.std.specs.Prelude.{false, []};

    ghost is_scripted = { false };

    ghost tape = { λ port. record { coming = []; sent = [] } };

    ghost failed = { λ port. port.failures };

    fn failures(&self) -> u64 {
        self.failures
    }

    fn next_datagram(&mut self) -> Result<Option<Arrival>, PortFault> {
        let came = self.sockets.waiting_datagram();
        if came.is_err() {
            self.failures += 1;
        }
        came
    }

    fn wait(&mut self, most: Duration) {
        self.rest();
        if self.held.is_some() || self.sockets.ready.any() {
            return;
        }
        let length = self.length_of(most);
        let from_ns = self.passed_ns;
        self.wait_for(length);
        self.note_wait(from_ns);
    }

    fn receive(&mut self) -> Result<Option<Arrival>, PortFault> {
        if let Some(held) = self.held.take() {
            return Ok(Some(held));
        }
        let came = self.next_arrival();
        match came {
            Ok(came) => Ok(self.hold_reader(came)),
            Err(fault) => {
                self.failures += 1;
                Err(fault)
            }
        }
    }

    fn recycle(&mut self, bytes: Items<u8>) {
        self.sockets.recycle(bytes);
    }

    fn sends_to_groups(&self) -> bool {
        self.multicast
    }

    fn send(&mut self, output: &Output<'_>) -> Result<(), PortFault> {
        let now_ms = self.now_ms();
        self.sockets.send(output, now_ms);
        Ok(())
    }
}

impl<R: System + Net + Drop> KeptPort for StationPort<R> {
    fn next_report(&mut self) -> Option<PortReport> {
        self.sockets.streams.next_report()
    }

    fn keep(&mut self, peers: &[Node], owners: &[Node]) {
        self.sockets.streams.keep(peers, owners);
    }

    fn renew(&mut self, target: Node) {
        let now_ms = self.now_ms();
        self.sockets.renew(target, now_ms);
    }

    fn succeed(&mut self, target: Node) {
        self.sockets.succeed(target);
    }
}

impl<R: System + Net + Drop> GroupPort for StationPort<R> {
    fn receive_groups(&mut self, groups: &[DataGroup]) {
        let now_ms = self.now_ms();
        self.sockets
            .receive_groups(&self.rt, self.poll.registry(), groups, now_ms);
    }

    fn next_unbound(&mut self) -> Option<DataGroup> {
        self.sockets.groups.next_unbound()
    }
}
