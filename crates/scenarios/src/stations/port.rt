//! The port of a station.

ghost use Rattle.std.specs.Prelude.{◌≡◌, false, []};

use crate::stations::station_run::TurnArrival;
use cip_events::Arrival;
use cip_types::{Node, OutOfMemory};
use port_faults::{OrderedPort, PortOrder};
use std::alloc::Global;
use std::collections::VecDeque;
use std::time::Duration;
use udp_runner::{DataGroup, EndCause, GroupPort, KeptPort, Output, Port, PortFault, PortReport};

/// A port that receives what arrives at the turns of a run, and prints what it takes, sends and is told.
#[derive(Drop)]
pub struct PrintingPort<R> {
    rt: R,
    alloc: Global,
    arrivals: VecDeque<TurnArrival>,
    failures: u64,
    /// So many receives more fail.
    failing: u64,
    is_refusing: bool,
    /// The peer of the stream that was opened last.
    peer: Node,
    report: Option<PortReport>,
}

impl<R: Print> PrintingPort<R> {
    /// A port to which this arrives.
    pub fn new(rt: R, alloc: Global, arrivals: VecDeque<TurnArrival>) -> PrintingPort<R> {
        PrintingPort {
            rt,
            alloc,
            arrivals,
            failures: 0,
            failing: 0,
            is_refusing: false,
            peer: Node(0),
            report: None,
        }
    }

    /// Notes what the port reports of an arrival.
    fn note(&mut self, arrival: &Arrival)
        ensures { self.new.failures ≡ self.old.failures }
    {
        match arrival {
            Arrival::Opened { stream, peer } => {
                self.peer = *peer;
                self.report = Some(PortReport::Opened {
                    stream: *stream,
                    peer: *peer,
                });
            }
            Arrival::Cut { stream } => {
                self.report = Some(PortReport::Ended {
                    stream: *stream,
                    peer: self.peer,
                    cause: EndCause::Cut,
                });
            }
            _ => {}
        }
    }

    /// Prints what the port is told of a node.
    fn print_node(&self, word: &str, node: Node) {
        let [a, b, c, d] = node.0.to_be_bytes();
        let _ = println!(&self.rt; "told {word} {a}.{b}.{c}.{d}");
    }
}

/// Prints an output of a port.
fn print_output<R: Print>(rt: &R, alloc: Global, output: &Output<'_>) {
    match output {
        Output::Frame { stream, bytes } => {
            if let Ok(digits) = hex::encode(alloc, bytes) {
                let _ = println!(rt; "sends frame {stream} {digits}");
            }
        }
        Output::Datagram { node, bytes } => {
            let [a, b, c, d] = node.0.to_be_bytes();
            if let Ok(digits) = hex::encode(alloc, bytes) {
                let _ = println!(rt; "sends datagram {a}.{b}.{c}.{d} {digits}");
            }
        }
        Output::Close { stream } => {
            let _ = println!(rt; "sends close {stream}");
        }
        Output::Reply { peer, bytes } => {
            let [a, b, c, d] = peer.0.to_be_bytes();
            if let Ok(digits) = hex::encode(alloc, bytes) {
                let _ = println!(rt; "sends reply {a}.{b}.{c}.{d} {digits}");
            }
        }
    }
}

/// Prints an arrival.
fn print_arrival<R: Print>(rt: &R, alloc: Global, arrival: &Arrival) {
    match arrival {
        Arrival::Opened { stream, peer } => {
            let [a, b, c, d] = peer.0.to_be_bytes();
            let _ = println!(rt; "takes stream {stream} {a}.{b}.{c}.{d}");
        }
        Arrival::Frame { stream, bytes } => {
            if let Ok(digits) = hex::encode(alloc, bytes.as_slice()) {
                let _ = println!(rt; "takes frame {stream} {digits}");
            }
        }
        Arrival::Cut { stream } => {
            let _ = println!(rt; "takes cut {stream}");
        }
        Arrival::Datagram { peer, bytes } => {
            let [a, b, c, d] = peer.0.to_be_bytes();
            if let Ok(digits) = hex::encode(alloc, bytes.as_slice()) {
                let _ = println!(rt; "takes datagram {a}.{b}.{c}.{d} {digits}");
            }
        }
        Arrival::Inquiry { peer, bytes } => {
            let [a, b, c, d] = peer.0.to_be_bytes();
            if let Ok(digits) = hex::encode(alloc, bytes.as_slice()) {
                let _ = println!(rt; "takes inquiry {a}.{b}.{c}.{d} {digits}");
            }
        }
    }
}

impl<R: Print> Port for PrintingPort<R> {
    ghost is_scripted = { false };

    ghost tape = { λ port. record { coming = []; sent = [] } };

    ghost failed = { λ port. port.failures };

    fn failures(&self) -> u64 {
        self.failures
    }

    fn wait(&mut self, most: Duration) {
        // (of the receives that fail one after another the first alone is printed)
        if self.failing == 0 {
            let _ = println!(&self.rt; "turn of at most {} ms", most.as_millis());
        }
    }

    fn receive(&mut self) -> Result<Option<Arrival>, PortFault> {
        if self.failing > 0 {
            self.failing -= 1;
            self.failures += 1;
            return Err(PortFault::Receive);
        }
        match self.arrivals.pop_front() {
            Some(TurnArrival::Arrival(arrival)) => {
                print_arrival(&self.rt, self.alloc, &arrival);
                self.note(&arrival);
                Ok(Some(arrival))
            }
            Some(TurnArrival::Failures(count)) => {
                let _ = println!(&self.rt; "fails {count} times");
                self.failing = count.saturating_sub(1);
                self.failures += 1;
                Err(PortFault::Receive)
            }
            Some(TurnArrival::Refusal) => {
                self.is_refusing = true;
                Ok(None)
            }
            _ => Ok(None),
        }
    }

    fn send(&mut self, output: &Output<'_>) -> Result<(), PortFault> {
        if self.is_refusing {
            let _ = println!(&self.rt; "refuses an output");
            self.is_refusing = false;
            self.failures += 1;
            return Err(PortFault::Send);
        }
        print_output(&self.rt, self.alloc, output);
        Ok(())
    }
}

impl<R: Print> KeptPort for PrintingPort<R> {
    fn next_report(&mut self) -> Option<PortReport> {
        self.report.take()
    }

    fn keep(&mut self, peers: &[Node], owners: &[Node]) {
        let _ = println!(&self.rt; "told of {} peers with connections", peers.len());
        for peer in peers {
            self.print_node("keep", *peer);
        }
    }

    fn renew(&mut self, target: Node) {
        self.print_node("renew", target);
    }

    fn succeed(&mut self, target: Node) {
        self.print_node("succeed", target);
    }
}

impl<R: Print> OrderedPort for PrintingPort<R> {
    fn obey(&mut self, order: PortOrder) -> Result<(), OutOfMemory> {
        let word = match order {
            PortOrder::Cut => "cut",
            PortOrder::Pause { ms: _ } => "pause",
            PortOrder::Send { node: _, bytes: _ } => "send",
        };
        let _ = println!(&self.rt; "ordered {word}");
        Ok(())
    }
}

impl<R: Print> GroupPort for PrintingPort<R> {
    fn receive_groups(&mut self, groups: &[DataGroup]) {
        let _ = println!(&self.rt; "told of {} groups", groups.len());
        for group in groups {
            self.print_node("receive", group.address);
        }
    }

    fn next_unbound(&mut self) -> Option<DataGroup> {
        None
    }
}
