//! An adapter and a scanner that are driven by turns, over sockets of this host or any other ports.

ghost use Rattle.std.specs.Prelude.{◌≡◌, [], ◌∷◌, true, IfOk, OnOk};
ghost use Rattle.cip_tables.specs.Run.{table_after};
ghost use Rattle.eip_line.specs.SocketLoop.Ends.{adapter_begins, scanner_begins};
ghost use Rattle.eip_line.specs.SocketLoop.Turning.{IsReadTimes};

use crate::socket_loop::fault::LoopFault;
use crate::socket_loop::loop_device::LoopDevice;
use crate::socket_loop::profiles;
use cip_tables::{Config, Device, Event};
use socket_port::{SocketPort, SystemClock};
use std::alloc::Global;
use std::net::{Net, TcpListener, TcpStream};
use std::rt::Clock as System;
use udp_runner::{Clock, Port};

/// An adapter and a scanner, each at a port of its own.
#[derive(Drop)]
pub struct LoopLine<P, C, A, S> {
    pub adapter: LoopDevice<P, C, A>,
    pub scanner: LoopDevice<P, C, S>,
}

/// An adapter and a scanner over sockets of this host.
pub type SocketLine<R, A, S> = LoopLine<SocketPort<R>, SystemClock<R>, A, S>;

impl<P: Port, C: Clock, A: Device, S: Device> LoopLine<P, C, A, S> {
    /// The application of the scanner writes the output of slot 0.
    pub fn write(&mut self, bytes: &[u8]) -> Result<(), LoopFault>
        ensures written { OnOk result
            (S.table self.new.scanner.device
            ≡ table_after (S.table self.old.scanner.device) (Event.Write 0 bytes.now ∷ [])) }
        ensures adapter { A.table self.new.adapter.device ≡ A.table self.old.adapter.device }
    {
        let _written = self.scanner.device.write_point(0, bytes)?;
        Ok(())
    }

    /// Drives the adapter for one turn, and then the scanner.
    pub fn turn(&mut self) -> Result<(), LoopFault>
        ensures adapter { OnOk result
            (C.is_scripted ≡ true → IsReadTimes 1 (C.coming self.old.adapter.clock) (C.coming self.new.adapter.clock)) }
        ensures scanner { OnOk result
            (C.is_scripted ≡ true → IsReadTimes 1 (C.coming self.old.scanner.clock) (C.coming self.new.scanner.clock)) }
    {
        self.adapter.turn()?;
        self.scanner.turn()
    }

    /// Drives both devices for this many turns, and answers the number of turns that each made.
    pub fn turns(&mut self, turns: u32) -> Result<u32, LoopFault>
        ensures made { IfOk result (λ made. made ≡ turns) }
        ensures adapter { OnOk result
            (C.is_scripted ≡ true
            → IsReadTimes turns (C.coming self.old.adapter.clock) (C.coming self.new.adapter.clock)) }
        ensures scanner { OnOk result
            (C.is_scripted ≡ true
            → IsReadTimes turns (C.coming self.old.scanner.clock) (C.coming self.new.scanner.clock)) }
    {
        let mut made = 0;
        for _ in 0..turns {
            self.turn()?;
            made += 1;
        }
        Ok(made)
    }
}

/// A fresh adapter.
fn fresh_adapter<D: Device>(alloc: Global) -> Result<D, LoopFault>
    ensures { IfOk result (λ device. D.table device ≡ adapter_begins) }
{
    Ok(D::new(alloc, Config::Adapter(profiles::adapter(alloc)?))?)
}

/// A fresh scanner whose slot 0 is started, in run mode.
fn started_scanner<S: Device + Drop>(alloc: Global) -> Result<S, LoopFault>
    ensures { IfOk result (λ device. S.table device ≡ scanner_begins) }
{
    let mut device = S::new(alloc, Config::Scanner(profiles::scanner(alloc)?))?;
    let _started = device.step(&Event::Start { slot: 0 })?;
    let _running = device.step(&Event::Mode { run: true })?;
    Ok(device)
}

impl<R, A, S> SocketLine<R, A, S>
where
    R: System + Net<Listener = TcpListener, Stream = TcpStream> + Copy + Drop,
    A: Device + Drop,
    S: Device + Drop,
{
    /// Fresh devices at ports on 127.0.0.1: the adapter's TCP and UDP ports, and the next UDP port for the scanner. The
    /// scanner's slot 0 is started, and the scanner is in run mode.
    pub fn open(alloc: Global, rt: R, tcp: u16, udp: u16) -> Result<Self, LoopFault>
        ensures adapter { IfOk result (λ line. A.table line.adapter.device ≡ adapter_begins) }
        ensures scanner { IfOk result (λ line. S.table line.scanner.device ≡ scanner_begins) }
    {
        let Some(next) = udp.checked_add(1) else {
            return Err(LoopFault::Port);
        };
        let mut adapter = SocketPort::adapter(alloc, rt, tcp, udp, next)?;
        let mut scanner = SocketPort::scanner(alloc, rt, tcp, next, udp)?;
        adapter.join()?;
        scanner.join()?;
        begin(alloc, rt, adapter, scanner)
    }
}

/// Fresh devices at these ports.
fn begin<R, A, S>(
    alloc: Global,
    rt: R,
    adapter: SocketPort<R>,
    scanner: SocketPort<R>,
) -> Result<SocketLine<R, A, S>, LoopFault>
where
    R: System + Copy + Drop,
    A: Device + Drop,
    S: Device + Drop,
    ensures adapter { IfOk result (λ line. A.table line.adapter.device ≡ adapter_begins) }
    ensures scanner { IfOk result (λ line. S.table line.scanner.device ≡ scanner_begins) }
{
    let owned: A = fresh_adapter(alloc)?;
    let owner: S = started_scanner(alloc)?;
    Ok(LoopLine {
        adapter: LoopDevice {
            port: adapter,
            device: owned,
            clock: SystemClock::new(rt),
        },
        scanner: LoopDevice {
            port: scanner,
            device: owner,
            clock: SystemClock::new(rt),
        },
    })
}

/// Runs an adapter and a scanner at these ports for this many turns of each, and answers the number of turns that each
/// made.
pub fn run_loop<R, A, S>(
    alloc: Global,
    rt: R,
    tcp: u16,
    udp: u16,
    turns: u32,
) -> Result<u32, LoopFault>
where
    R: System + Net<Listener = TcpListener, Stream = TcpStream> + Copy + Drop,
    A: Device + Drop,
    S: Device + Drop,
    ensures { IfOk result (λ made. made ≡ turns) }
{
    let mut line: SocketLine<R, A, S> = SocketLine::open(alloc, rt, tcp, udp)?;
    line.turns(turns)
}
