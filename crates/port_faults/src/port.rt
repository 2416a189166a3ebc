//! A port with faults.

ghost use Rattle.std.specs.Prelude.{◌≡◌, ◌<◌, ◌+◌, ◌-◌, ◌^◌, true, false, None, IfNone, IfSome, OnErr, OnOk, min};
ghost use Rattle.std.specs.Duration.{as_nanos};
ghost use Rattle.port_faults.specs.Impairments.{are_none};
ghost use Rattle.port_faults.specs.Passing.{ArrivesLate, Passes, PassesDatagram};
ghost use Rattle.udp_runner.specs.Calls.{Idled, Looked, Received, Sent};

use crate::hold::DatagramHold;
use crate::rates::FaultRates;
use cip_events::Arrival;
use cip_types::{Items, Node};
use std::alloc::Global;
use std::time::Duration;
use udp_runner::{Clock, DataGroup, GroupPort, KeptPort, Output, Port, PortFault, PortReport};

/// A port around a port, at which datagrams are lost, repeated, delayed and reordered. What is sent, and what arrives over
/// streams, passes as it is and in order. Its time is that of a clock of its own.
#[derive(Drop)]
pub struct FaultyPort<P, C> {
    port: P,
    clock: C,
    now_ms: u64,
    hold: Option<DatagramHold>,
}

impl<P: Port, C: Clock> FaultyPort<P, C> {
    /// A port around this one. Takes no memory. Without faults it is this port.
    pub fn new(alloc: Global, port: P, clock: C, rates: FaultRates) -> FaultyPort<P, C>
        ensures port { result.port ≡ port }
        ensures itself { are_none rates ≡ true → result.hold ≡ None }
    {
        let hold = if rates.are_none() {
            None
        } else {
            Some(DatagramHold::new(alloc, rates))
        };
        FaultyPort {
            port,
            clock,
            now_ms: 0,
            hold,
        }
    }
}

/// The arrival of a datagram, or what becomes of it instead.
fn passed(hold: &mut DatagramHold, now_ms: u64, peer: Node, bytes: Items<u8>) -> Option<Arrival>
    ensures { PassesDatagram hold.old now_ms peer bytes result hold.new }
{
    match hold.take(now_ms, peer, bytes) {
        Ok(Some(bytes)) => Some(Arrival::Datagram { peer, bytes }),
        Ok(None) => None,
        // (without memory nothing can wait, and the datagram goes on)
        Err(bytes) => Some(Arrival::Datagram { peer, bytes }),
    }
}

/// A datagram that is due.
fn due(hold: &mut DatagramHold, now_ms: u64) -> Option<Arrival>
    ensures some { IfSome result (λ arrival. ArrivesLate now_ms hold.old arrival hold.new) }
    ensures none { IfNone result (hold.new ≡ hold.old) }
{
    let held = hold.next_due(now_ms)?;
    Some(Arrival::Datagram {
        peer: held.peer,
        bytes: held.bytes,
    })
}

/// What becomes of an arrival.
fn pass(hold: &mut DatagramHold, now_ms: u64, arrival: Arrival) -> Option<Arrival>
    ensures { Passes hold.old now_ms arrival result hold.new }
{
    match arrival {
        Arrival::Datagram { peer, bytes } => passed(hold, now_ms, peer, bytes),
        other => Some(other),
    }
}

/// The shorter of two durations.
fn shorter(one: Duration, other: Duration) -> Duration
    ensures { as_nanos result ≡ min (as_nanos one) (as_nanos other) }
{
    if other.as_nanos() < one.as_nanos() {
        other
    } else {
        one
    }
}

/// How long a wait is, of at most so long, if datagrams wait.
fn wait_length(hold: &DatagramHold, now_ms: u64, most: Duration) -> Duration {
    let most_ms = most.as_millis().min(u128::from(u64::MAX)) as u64;
    let ms = hold.wait_ms(now_ms, most_ms.saturating_add(1));
    shorter(most, Duration::from_millis(ms))
}

impl<P: Port, C: Clock> Port for FaultyPort<P, C> {
    ghost use Rattle.std.specs.Prelude.{false, []};

    ghost is_scripted = { false };

    ghost tape = { λ port. record { coming = []; sent = [] } };

    ghost failed = { λ port. P.failed port.port };

    fn failures(&self) -> u64 {
        self.port.failures()
    }

    /// Without faults: what this port receives is what the port in it receives.
    fn receive(&mut self) -> Result<Option<Arrival>, PortFault>
        requires { P.failed self.old.port < 2 ^ 64 - 1 }
        ensures worked { OnOk result (P.failed self.new.port ≡ P.failed self.old.port) }
        ensures counted { OnErr result (P.failed self.new.port ≡ P.failed self.old.port + 1) }
        ensures itself { self.old.hold ≡ None → Received P.is_scripted (P.tape self.old.port) (P.tape self.new.port)
            (P.failed self.old.port) (P.failed self.new.port) result }
        ensures stays { self.old.hold ≡ None → self.new.hold ≡ None }
    {
        let Some(hold) = &mut self.hold else {
            return self.port.receive();
        };
        self.now_ms = self.now_ms.saturating_add(self.clock.passed());
        if let Some(arrival) = due(hold, self.now_ms) {
            return Ok(Some(arrival));
        }
        match self.port.receive() {
            Ok(Some(arrival)) => Ok(pass(hold, self.now_ms, arrival)),
            other => other,
        }
    }

    /// Without faults: which datagram waits is what the port in it says.
    fn next_datagram(&mut self) -> Result<Option<Arrival>, PortFault>
        requires { P.failed self.old.port < 2 ^ 64 - 1 }
        ensures worked { OnOk result (P.failed self.new.port ≡ P.failed self.old.port) }
        ensures counted { OnErr result (P.failed self.new.port ≡ P.failed self.old.port + 1) }
        ensures itself { self.old.hold ≡ None → Looked P.is_scripted (P.tape self.old.port) (P.tape self.new.port)
            (P.failed self.old.port) (P.failed self.new.port) result }
        ensures stays { self.old.hold ≡ None → self.new.hold ≡ None }
    {
        let Some(hold) = &mut self.hold else {
            return self.port.next_datagram();
        };
        self.now_ms = self.now_ms.saturating_add(self.clock.passed());
        match self.port.next_datagram() {
            Ok(Some(arrival)) => Ok(pass(hold, self.now_ms, arrival)),
            other => other,
        }
    }

    fn wait(&mut self, most: Duration)
        ensures itself { Idled P.is_scripted (P.tape self.old.port) (P.tape self.new.port) (P.failed self.old.port)
            (P.failed self.new.port) }
        ensures stays { self.new.hold ≡ self.old.hold }
    {
        let most = match &self.hold {
            Some(hold) => wait_length(hold, self.now_ms, most),
            None => most,
        };
        self.port.wait(most);
    }

    fn recycle(&mut self, bytes: Items<u8>)
        ensures itself { Idled P.is_scripted (P.tape self.old.port) (P.tape self.new.port) (P.failed self.old.port)
            (P.failed self.new.port) }
        ensures stays { self.new.hold ≡ self.old.hold }
    {
        self.port.recycle(bytes);
    }

    fn sends_to_groups(&self) -> bool
        ensures { P.is_scripted ≡ true → result ≡ false }
    {
        self.port.sends_to_groups()
    }

    /// What is sent is what the port in it sends, with faults too.
    fn send(&mut self, output: &Output<'_>) -> Result<(), PortFault>
        requires { P.failed self.old.port < 2 ^ 64 - 1 }
        ensures worked { OnOk result (P.failed self.new.port ≡ P.failed self.old.port) }
        ensures counted { OnErr result (P.failed self.new.port ≡ P.failed self.old.port + 1) }
        ensures itself { Sent P.is_scripted output.now (P.tape self.old.port) (P.tape self.new.port)
            (P.failed self.old.port) (P.failed self.new.port) result }
        ensures stays { self.new.hold ≡ self.old.hold }
    {
        self.port.send(output)
    }
}

impl<P: KeptPort, C: Clock> KeptPort for FaultyPort<P, C> {
    fn next_report(&mut self) -> Option<PortReport>
        ensures itself { Idled P.is_scripted (P.tape self.old.port) (P.tape self.new.port) (P.failed self.old.port)
            (P.failed self.new.port) }
        ensures stays { self.new.hold ≡ self.old.hold }
    {
        self.port.next_report()
    }

    fn keep(&mut self, peers: &[Node], owners: &[Node])
        ensures itself { Idled P.is_scripted (P.tape self.old.port) (P.tape self.new.port) (P.failed self.old.port)
            (P.failed self.new.port) }
        ensures stays { self.new.hold ≡ self.old.hold }
    {
        self.port.keep(peers, owners);
    }

    fn renew(&mut self, target: Node)
        ensures itself { Idled P.is_scripted (P.tape self.old.port) (P.tape self.new.port) (P.failed self.old.port)
            (P.failed self.new.port) }
        ensures stays { self.new.hold ≡ self.old.hold }
    {
        self.port.renew(target);
    }

    fn succeed(&mut self, target: Node)
        ensures itself { Idled P.is_scripted (P.tape self.old.port) (P.tape self.new.port) (P.failed self.old.port)
            (P.failed self.new.port) }
        ensures stays { self.new.hold ≡ self.old.hold }
    {
        self.port.succeed(target);
    }
}

impl<P: GroupPort, C: Clock> GroupPort for FaultyPort<P, C> {
    fn receive_groups(&mut self, groups: &[DataGroup])
        ensures itself { Idled P.is_scripted (P.tape self.old.port) (P.tape self.new.port) (P.failed self.old.port)
            (P.failed self.new.port) }
        ensures stays { self.new.hold ≡ self.old.hold }
    {
        self.port.receive_groups(groups);
    }

    fn next_unbound(&mut self) -> Option<DataGroup>
        ensures itself { Idled P.is_scripted (P.tape self.old.port) (P.tape self.new.port) (P.failed self.old.port)
            (P.failed self.new.port) }
        ensures stays { self.new.hold ≡ self.old.hold }
    {
        self.port.next_unbound()
    }
}
