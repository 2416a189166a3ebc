//! A port around a port, which takes orders.

ghost use Rattle.std.specs.Prelude.{◌≡◌, ◌<◌, ◌+◌, ◌-◌, ◌^◌, true, false, [], IfOk, OnOk, OnErr};
ghost use Rattle.port_faults.specs.Orders.Marks.{AreNone, marks_ordered};
ghost use Rattle.udp_runner.specs.Calls.{Idled, Looked, Received, Sent};

use crate::orders::marks::StreamMarks;
use crate::orders::order::{OrderedPort, PortOrder};
use cip_events::Arrival;
use cip_types::{Items, Node, OutOfMemory};
use std::alloc::Global;
use std::rt::Clock as System;
use std::thread;
use std::time::Duration;
use udp_runner::{DataGroup, GroupPort, KeptPort, Output, Port, PortFault, PortReport};

/// A datagram that an order sends.
#[derive(Drop)]
struct RawDatagram {
    node: Node,
    bytes: Items<u8>,
}

/// A port around a port, which takes orders. Without orders it is that port.
#[derive(Drop)]
pub struct OrderPort<P, R> {
    rt: R,
    port: P,
    marks: StreamMarks,
    /// The datagrams that orders send, the oldest first.
    raw: Vec<RawDatagram>,
}

impl<P: Port, R: System> OrderPort<P, R> {
    /// A port around this one, which has no stream yet. The only fault is a refused allocation.
    pub fn new(alloc: Global, rt: R, port: P) -> Result<OrderPort<P, R>, OutOfMemory>
    where
        P: Drop,
        R: Drop,
        ensures port { IfOk result (λ made. made.port ≡ port) }
        ensures itself { IfOk result (λ made. AreNone made.raw.items made.marks) }
    {
        Ok(OrderPort {
            rt,
            port,
            marks: StreamMarks::none(alloc)?,
            raw: Vec::new(alloc),
        })
    }
}

/// Sends the oldest datagram of the orders, if there is one.
fn send_raw<P: Port>(port: &mut P, raw: &mut Vec<RawDatagram>) -> Result<(), PortFault>
    requires { P.failed port.old < 2 ^ 64 - 1 }
    ensures worked { OnOk result (P.failed port.new ≡ P.failed port.old) }
    ensures counted { OnErr result (P.failed port.new ≡ P.failed port.old + 1) }
    ensures none { raw.old.items ≡ [] → OnErr result ⊥ }
    ensures rests { raw.old.items ≡ [] → (port.new ≡ port.old) × (raw.new ≡ raw.old) }
{
    if raw.is_empty() {
        return Ok(());
    }
    let RawDatagram { node, bytes } = raw.remove(0);
    port.send(&Output::Datagram {
        node,
        bytes: bytes.as_slice(),
    })
}

/// Closes a stream.
fn close<P: Port>(port: &mut P, stream: u16) -> Result<(), PortFault>
    requires { P.failed port.old < 2 ^ 64 - 1 }
    ensures worked { OnOk result (P.failed port.new ≡ P.failed port.old) }
    ensures counted { OnErr result (P.failed port.new ≡ P.failed port.old + 1) }
{
    port.send(&Output::Close { stream })
}

impl<P: Port, R: System> Port for OrderPort<P, R> {
    ghost use Rattle.std.specs.Prelude.{false, []};

    ghost is_scripted = { false };

    ghost tape = { λ port. record { coming = []; sent = [] } };

    ghost failed = { λ port. P.failed port.port };

    fn failures(&self) -> u64 {
        self.port.failures()
    }

    /// Without orders: what this port receives is what the port in it receives.
    fn receive(&mut self) -> Result<Option<Arrival>, PortFault>
        requires { P.failed self.old.port < 2 ^ 64 - 1 }
        ensures worked { OnOk result (P.failed self.new.port ≡ P.failed self.old.port) }
        ensures counted { OnErr result (P.failed self.new.port ≡ P.failed self.old.port + 1) }
        ensures itself { AreNone self.old.raw.items self.old.marks → Received P.is_scripted (P.tape self.old.port)
            (P.tape self.new.port) (P.failed self.old.port) (P.failed self.new.port) result }
        ensures stays { AreNone self.old.raw.items self.old.marks → AreNone self.new.raw.items self.new.marks }
    {
        send_raw(&mut self.port, &mut self.raw)?;
        if let Some(stream) = self.marks.first_to_cut() {
            close(&mut self.port, stream)?;
            let cut = Arrival::Cut { stream };
            self.marks.note(&cut);
            return Ok(Some(cut));
        }
        let came = self.port.receive()?;
        if let Some(arrival) = &came {
            self.marks.note(arrival);
        }
        Ok(came)
    }

    /// Which datagram waits is what the port in it says, with orders too.
    fn next_datagram(&mut self) -> Result<Option<Arrival>, PortFault>
        requires { P.failed self.old.port < 2 ^ 64 - 1 }
        ensures worked { OnOk result (P.failed self.new.port ≡ P.failed self.old.port) }
        ensures counted { OnErr result (P.failed self.new.port ≡ P.failed self.old.port + 1) }
        ensures itself { Looked P.is_scripted (P.tape self.old.port) (P.tape self.new.port)
            (P.failed self.old.port) (P.failed self.new.port) result }
        ensures stays { (self.new.raw ≡ self.old.raw) × (self.new.marks ≡ self.old.marks) }
    {
        self.port.next_datagram()
    }

    fn wait(&mut self, most: Duration)
        ensures itself { Idled P.is_scripted (P.tape self.old.port) (P.tape self.new.port) (P.failed self.old.port)
            (P.failed self.new.port) }
        ensures stays { (self.new.raw ≡ self.old.raw) × (self.new.marks ≡ self.old.marks) }
    {
        if self.raw.is_empty() && !self.marks.any_to_cut() {
            self.port.wait(most);
        }
    }

    fn recycle(&mut self, bytes: Items<u8>)
        ensures itself { Idled P.is_scripted (P.tape self.old.port) (P.tape self.new.port) (P.failed self.old.port)
            (P.failed self.new.port) }
        ensures stays { (self.new.raw ≡ self.old.raw) × (self.new.marks ≡ self.old.marks) }
    {
        self.port.recycle(bytes);
    }

    fn sends_to_groups(&self) -> bool
        ensures { P.is_scripted ≡ true → result ≡ false }
    {
        self.port.sends_to_groups()
    }

    /// What is sent is what the port in it sends, with orders too.
    fn send(&mut self, output: &Output<'_>) -> Result<(), PortFault>
        requires { P.failed self.old.port < 2 ^ 64 - 1 }
        ensures worked { OnOk result (P.failed self.new.port ≡ P.failed self.old.port) }
        ensures counted { OnErr result (P.failed self.new.port ≡ P.failed self.old.port + 1) }
        ensures itself { Sent P.is_scripted output.now (P.tape self.old.port) (P.tape self.new.port)
            (P.failed self.old.port) (P.failed self.new.port) result }
        ensures stays { AreNone self.old.raw.items self.old.marks → AreNone self.new.raw.items self.new.marks }
    {
        self.marks.note_sent(output);
        self.port.send(output)
    }
}

impl<P: KeptPort, R: System> KeptPort for OrderPort<P, R> {
    fn next_report(&mut self) -> Option<PortReport>
        ensures itself { Idled P.is_scripted (P.tape self.old.port) (P.tape self.new.port) (P.failed self.old.port)
            (P.failed self.new.port) }
        ensures stays { (self.new.raw ≡ self.old.raw) × (self.new.marks ≡ self.old.marks) }
    {
        self.port.next_report()
    }

    fn keep(&mut self, peers: &[Node], owners: &[Node])
        ensures itself { Idled P.is_scripted (P.tape self.old.port) (P.tape self.new.port) (P.failed self.old.port)
            (P.failed self.new.port) }
        ensures stays { (self.new.raw ≡ self.old.raw) × (self.new.marks ≡ self.old.marks) }
    {
        self.port.keep(peers, owners);
    }

    fn renew(&mut self, target: Node)
        ensures itself { Idled P.is_scripted (P.tape self.old.port) (P.tape self.new.port) (P.failed self.old.port)
            (P.failed self.new.port) }
        ensures stays { (self.new.raw ≡ self.old.raw) × (self.new.marks ≡ self.old.marks) }
    {
        self.port.renew(target);
    }

    fn succeed(&mut self, target: Node)
        ensures itself { Idled P.is_scripted (P.tape self.old.port) (P.tape self.new.port) (P.failed self.old.port)
            (P.failed self.new.port) }
        ensures stays { (self.new.raw ≡ self.old.raw) × (self.new.marks ≡ self.old.marks) }
    {
        self.port.succeed(target);
    }
}

impl<P: GroupPort, R: System> GroupPort for OrderPort<P, R> {
    fn receive_groups(&mut self, groups: &[DataGroup])
        ensures itself { Idled P.is_scripted (P.tape self.old.port) (P.tape self.new.port) (P.failed self.old.port)
            (P.failed self.new.port) }
        ensures stays { (self.new.raw ≡ self.old.raw) × (self.new.marks ≡ self.old.marks) }
    {
        self.port.receive_groups(groups);
    }

    fn next_unbound(&mut self) -> Option<DataGroup>
        ensures itself { Idled P.is_scripted (P.tape self.old.port) (P.tape self.new.port) (P.failed self.old.port)
            (P.failed self.new.port) }
        ensures stays { (self.new.raw ≡ self.old.raw) × (self.new.marks ≡ self.old.marks) }
    {
        self.port.next_unbound()
    }
}

impl<P: Port, R: System> OrderedPort for OrderPort<P, R> {
    fn obey(&mut self, order: PortOrder) -> Result<(), OutOfMemory>
        ensures worked { P.failed self.new.port ≡ P.failed self.old.port }
        ensures cut { OnOk result (self.new.marks ≡ marks_ordered order self.old.marks) }
        ensures kept { OnErr result (self.new.marks ≡ self.old.marks) }
    {
        match order {
            PortOrder::Cut => self.marks.cut_all(),
            PortOrder::Pause { ms } => thread::sleep(&self.rt, Duration::from_millis(ms)),
            PortOrder::Send { node, bytes } => self.raw.push(RawDatagram { node, bytes })?,
        }
        Ok(())
    }
}
