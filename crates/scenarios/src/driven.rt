//! Drives an adapter over memory by a trace: a tick and the event after it make a turn. Prints the outputs, and then
//! shows for each call of the port that its failure ends the run there.

use crate::script::{Script, read_script};
use cip_events::NewFault;
use cip_tables::{Device, TableCopy};
use cip_types::{Node, OutOfMemory};
use plain_engine::PlainAdapter;
use std::alloc::{AllocError, Global};
use std::fs::{self, Files};
use std::io;
use thiserror::Error;
use trace_text::TraceFault;
use udp_runner::{MemoryPort, Port, RunFault, SentOutput, SteppedClock, drive};

/// Why a trace is not driven.
#[derive(Debug, Drop, Error)]
pub enum DriveFailure {
    #[error("no memory")]
    OutOfMemory,
    #[error("an event that comes over no port")]
    Event,
    #[error("{0}")]
    Trace(#[from] TraceFault),
    #[error("{0}")]
    New(#[from] NewFault),
    #[error("{0}")]
    Run(#[from] RunFault),
    #[error("{0}")]
    Io(#[from] io::Error),
}

impl From<OutOfMemory> for DriveFailure {
    fn from(_error: OutOfMemory) -> DriveFailure {
        DriveFailure::OutOfMemory
    }
}

impl From<AllocError> for DriveFailure {
    fn from(_error: AllocError) -> DriveFailure {
        DriveFailure::OutOfMemory
    }
}

/// The result of a run: its answer, the outputs of the port, and the table of the device.
#[derive(Drop)]
struct Driven {
    outcome: Result<u64, RunFault>,
    port: MemoryPort,
    table: TableCopy,
}

/// Drives a fresh adapter by the trace, over a port that fails at the call of that number.
fn play(alloc: Global, text: &[u8], fails_at: u64) -> Result<Driven, DriveFailure> {
    let Script {
        config,
        times_ms,
        arrivals,
        turns,
    } = read_script(alloc, text)?;
    let mut port = MemoryPort::new(alloc, arrivals, fails_at);
    let mut clock = SteppedClock { times_ms };
    let mut device = PlainAdapter::new(alloc, config)?;
    let outcome = drive(&mut port, &mut device, &mut clock, turns);
    Ok(Driven {
        outcome,
        port,
        table: device.copy()?,
    })
}

/// Whether the run ended at that call of the port, and sent what the whole run sends up to there.
fn ends_at(part: &Driven, call: u64, whole: &Driven) -> bool {
    matches!(part.outcome, Err(RunFault::Port(_)))
        && part.port.calls() == call
        && part.port.failures() == 1
        && whole.port.sent().starts_with(part.port.sent())
}

/// Whether a failure of each call ends the run there. The last call of a run has to be a send: the device is then in
/// the state after the event whose answer could not be sent, as without a failure.
fn ends_everywhere(alloc: Global, text: &[u8], whole: &Driven) -> Result<bool, DriveFailure> {
    let mut last = false;
    for call in 1..=whole.port.calls() {
        let part = play(alloc, text, call)?;
        if !ends_at(&part, call, whole) {
            return Ok(false);
        }
        last = part.table.same(&whole.table);
    }
    Ok(last)
}

fn print_sent(rt: &impl Print, alloc: Global, sent: &SentOutput) -> Result<(), DriveFailure> {
    match sent {
        SentOutput::Frame { stream, bytes } => {
            let digits = hex::encode(alloc, bytes.as_slice())?;
            println!(rt; "frame {stream} {digits}")?;
        }
        SentOutput::Datagram { node, bytes } => {
            let Node(address) = *node;
            let [a, b, c, d] = address.to_be_bytes();
            let digits = hex::encode(alloc, bytes.as_slice())?;
            println!(rt; "datagram {a}.{b}.{c}.{d} {digits}")?;
        }
        SentOutput::Close { stream } => println!(rt; "close {stream}")?,
        SentOutput::Reply { peer, bytes } => {
            let Node(address) = *peer;
            let [a, b, c, d] = address.to_be_bytes();
            let digits = hex::encode(alloc, bytes.as_slice())?;
            println!(rt; "reply {a}.{b}.{c}.{d} {digits}")?;
        }
    }
    Ok(())
}

fn print_events(rt: &impl Print, name: &str, whole: &Driven) -> Result<(), DriveFailure> {
    match &whole.outcome {
        Ok(events) => Ok(println!(rt; "{name}: {events} events")?),
        Err(fault) => Err(DriveFailure::Run(*fault)),
    }
}

fn print_all_sent(rt: &impl Print, alloc: Global, whole: &Driven) -> Result<(), DriveFailure> {
    for sent in whole.port.sent() {
        print_sent(rt, alloc, sent)?;
    }
    Ok(())
}

fn print_calls(
    rt: &impl Print,
    name: &str,
    calls: u64,
    everywhere: bool,
) -> Result<(), DriveFailure> {
    let said = if everywhere {
        "each ends the run where it fails"
    } else {
        "one does not end the run where it fails"
    };
    Ok(println!(rt; "{name}: of {calls} calls {said}")?)
}

fn print_run(
    rt: &impl Print,
    alloc: Global,
    name: &str,
    text: &[u8],
    whole: &Driven,
) -> Result<(), DriveFailure> {
    print_events(rt, name, whole)?;
    print_all_sent(rt, alloc, whole)?;
    let everywhere = ends_everywhere(alloc, text, whole)?;
    print_calls(rt, name, whole.port.calls(), everywhere)
}

fn show(rt: &impl Print, alloc: Global, name: &str, text: &[u8]) -> Result<(), DriveFailure> {
    print_run(rt, alloc, name, text, &play(alloc, text, 0)?)
}

/// Drives an adapter by the trace of this file.
pub fn run<R: AllocGlobal + Files + Print>(rt: &R, name: &str) -> Result<(), DriveFailure> {
    let text = fs::read(rt, name)?;
    show(rt, rt.alloc(), name, text.as_slice())
}
