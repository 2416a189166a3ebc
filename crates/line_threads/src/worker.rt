//! What one thread does.

ghost use Rattle.std.specs.Prelude.{ℕ, true, false, IfOk, IfSome, IfNone, OnOk};
ghost use Rattle.device_lock.specs.Locked.{IsReceiptOf};
ghost use Rattle.line_threads.specs.Accounts.{AddsArrivals, IsAccount};
ghost use Rattle.line_threads.specs.Scripts.{IsOwn};

use crate::fault::LineFault;
use crate::gate::Gate;
use crate::sending::{LineOutlet, Network};
use cip_events::{Arrival, Event, send_answer};
use device_lock::{BookFault, Receipt};
use std::alloc::Global;
use std::sync::Wait;

/// How many waiting arrivals a worker takes at most before each event of its script.
const MOST_ARRIVALS: usize = 64;

/// A device that threads share.
pub trait Locked {
    /// The incarnation byte of the device.
    ghost device: { Self → ℕ };

    /// Waits for the lock of the device, and asks `inside` under it. Where it answers true, steps the device; where it
    /// answers false, the device stays as it is, and there is no receipt.
    fn step_if<R: Wait, F: FnOnce() -> bool>(
        &self,
        rt: &R,
        event: Event,
        inside: F,
    ) -> Result<Option<Receipt>, BookFault>
        requires { F.pre inside }
        ensures receipt { IfOk result (λ o. IfSome o (IsReceiptOf (device self.now) event)) }
        ensures agreed { IfOk result (λ o. IfSome o (λ _. F.post inside true)) }
        ensures refused { IfOk result (λ o. IfNone o (F.post inside false)) };
}

/// Performs the events of a script at the device of this place, in order and each once. Before each of them the device
/// receives what waits for it, at most 64 arrivals: those on streams first, in the order of the streams, then datagrams.
/// What the device answers is sent once its lock is released. What waits at the end of the script is not delivered.
///
/// The first fault ends the worker: `Gate` where the gate answers no, the faults of the book, and those of sending.
pub fn work<L: Locked, G: Gate, R: Wait>(
    rt: &R,
    alloc: Global,
    network: &Network<'_>,
    gate: &G,
    place: usize,
    device: &L,
    script: Vec<Event>,
) -> Result<Vec<Receipt>, LineFault>
    requires { IsOwn script.items }
    ensures { IfOk result (λ v. IsAccount (L.device device.now) script.items v.items) }
{
    let outlet = LineOutlet { rt, alloc, place };
    let mut receipts = Vec::new(alloc);
    for event in script {
        take_arrivals(&outlet, network, gate, device, &mut receipts)?;
        receipts.push(step(&outlet, network, gate, device, event)?)?;
    }
    Ok(receipts)
}

/// Performs what waits for the device, at most 64 arrivals.
fn take_arrivals<L: Locked, G: Gate, R: Wait>(
    outlet: &LineOutlet<'_, R>,
    network: &Network<'_>,
    gate: &G,
    device: &L,
    receipts: &mut Vec<Receipt>,
) -> Result<(), LineFault>
    ensures { OnOk result (AddsArrivals (L.device device.now) receipts.old.items receipts.new.items) }
{
    for _ in 0..MOST_ARRIVALS {
        let Some(arrival) = first_waiting(outlet.rt, network, outlet.place) else {
            break;
        };
        let event = arrival.into_event();
        receipts.push(step(outlet, network, gate, device, event)?)?;
    }
    Ok(())
}

/// Takes what waits first for the device: on the first stream that has something for it, or else a datagram.
fn first_waiting<R: Wait>(rt: &R, network: &Network<'_>, place: usize) -> Option<Arrival> {
    for stream in network.streams {
        if let Some(arrival) = stream.take(rt, place) {
            return Some(arrival);
        }
    }
    network.inboxes.get(place)?.take(rt)
}

/// Performs one event, and sends what the device answers.
fn step<L: Locked, G: Gate, R: Wait>(
    outlet: &LineOutlet<'_, R>,
    network: &Network<'_>,
    gate: &G,
    device: &L,
    event: Event,
) -> Result<Receipt, LineFault>
    ensures { IfOk result (IsReceiptOf (L.device device.now) event) }
{
    let place = outlet.place;
    if !gate.before(place) {
        return Err(LineFault::Gate);
    }
    let Some(receipt) = device.step_if(outlet.rt, event, || gate.inside(place))? else {
        return Err(LineFault::Gate);
    };
    if !gate.after(place) {
        return Err(LineFault::Gate);
    }
    send_answer(outlet, &mut { *network }, &receipt.answer)?;
    Ok(receipt)
}
