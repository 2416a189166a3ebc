//! Turns of a device.

ghost use Rattle.std.specs.Prelude.{◌≡◌, ◌<◌, ◌+◌, ◌-◌, ◌^◌, ◌*◌, ◌∷◌, [], true, min, None, Ok, drop, OnOk, OnErr};
ghost use Rattle.std.specs.List.{flat_map};
ghost use Rattle.cip_events.specs.Arrivals.{arrival_event};
ghost use Rattle.cip_events.specs.Outcomes.{Follows};
ghost use Rattle.cip_tables.specs.Step.{step};
ghost use Rattle.cip_tables.specs.Wakes.{due_in};
ghost use Rattle.udp_runner.specs.Driving.{Drove, IsQuiet, Stepped, once, seen};
ghost use Rattle.udp_runner.specs.Outputs.{SendsSome, answer_sent, reply_sent};
ghost use Rattle.udp_runner.specs.Tape.{first_or, with_sent};
ghost use Rattle.udp_runner.specs.Turns.{arrivals_of, events_of, ticks_of, turn_of};

use crate::fault::{PortFault, RunFault};
use crate::observer::{Observer, Unobserved};
use crate::outlet::AtPort;
use crate::output::Output;
use crate::port::{Clock, Port};
use cip_events::{Answer, Arrival, Event, Frame, Outcome, Recipient, send_answer};
use cip_tables::Device;
use cip_types::limits::LONGEST_TICK_MS;
use cip_types::{Items, Ms, Node};

/// Drives the device for some turns, and answers the number of its events.
///
/// A turn reads the clock once. If time passed, it steps the device by a tick of at most 60,000 ms, drops the time
/// above that, and sends the answer. Then it receives at most one arrival, steps the device by it, and sends the answer:
/// the frames, the datagrams, each once to each of its nodes, the ends of the streams that closed, and the replies to an
/// inquiry.
///
/// The fault is `Port` only if the port's count of failures rose. The device is then in the state after the event whose
/// answer was not sent completely or, if the receive failed, after its last event. With the fault `Step` it is in the
/// state after its last event.
pub fn drive<P: Port, D: Device, C: Clock>(
    port: &mut P,
    device: &mut D,
    clock: &mut C,
    turns: u32,
) -> Result<u64, RunFault>
    requires { P.failed port.old < 2 ^ 64 - 1 }
    ensures run { Drove ⟦<Unobserved as Observer>⟧.notes P.is_scripted C.is_scripted
        (events_of turns (C.coming clock.old) (P.tape port.old).coming) turns (2 * turns)
        (seen P.tape P.failed D.table port.old device.old (record {}))
        (seen P.tape P.failed D.table port.new device.new (record {})) result }
    ensures times_ms { OnOk result (C.is_scripted ≡ true → C.coming clock.new ≡ drop turns (C.coming clock.old)) }
{
    drive_watched(port, device, clock, &mut Unobserved, turns)
}

/// Drives the device for some turns as `drive` does, and hands each event and its outcome to the observer, in order: a
/// refused event too, and each before its answer is sent.
pub fn drive_watched<P: Port, D: Device, C: Clock, O: Observer>(
    port: &mut P,
    device: &mut D,
    clock: &mut C,
    observer: &mut O,
    turns: u32,
) -> Result<u64, RunFault>
    requires { P.failed port.old < 2 ^ 64 - 1 }
    ensures run { Drove O.notes P.is_scripted C.is_scripted
        (events_of turns (C.coming clock.old) (P.tape port.old).coming) turns (2 * turns)
        (seen P.tape P.failed D.table port.old device.old observer.old)
        (seen P.tape P.failed D.table port.new device.new observer.new) result }
    ensures times_ms { OnOk result (C.is_scripted ≡ true → C.coming clock.new ≡ drop turns (C.coming clock.old)) }
{
    let mut count = 0;
    for _ in 0..turns {
        count += turn(port, device, clock, observer)?;
    }
    Ok(count)
}

/// Makes one turn that waits: until something may have arrived, and at most until the device needs time or so many
/// milliseconds have passed. Then it makes a turn as `drive` does, and hands each event and its outcome to the observer,
/// in order: a refused event too, and each before its answer is sent. Answers the number of events.
pub fn turn_waiting<P: Port, D: Device, C: Clock, O: Observer>(
    port: &mut P,
    device: &mut D,
    clock: &mut C,
    observer: &mut O,
    most: Ms,
) -> Result<u64, RunFault>
    requires { P.failed port.old < 2 ^ 64 - 1 }
    ensures run { Drove O.notes P.is_scripted C.is_scripted
        (turn_of (C.coming clock.old) (P.tape port.old).coming) 1 2
        (seen P.tape P.failed D.table port.old device.old observer.old)
        (seen P.tape P.failed D.table port.new device.new observer.new) result }
    ensures times_ms { OnOk result (C.is_scripted ≡ true → C.coming clock.new ≡ drop 1 (C.coming clock.old)) }
{
    port.wait(clock.time_to(longest_wait(device, most)));
    turn(port, device, clock, observer)
}

/// The time that a turn waits at most: until something is due at the device, and no longer than this. Takes no memory.
pub(crate) fn longest_wait<D: Device>(device: &D, most: Ms) -> Ms
    ensures { result.0 ≡ min (due_in (D.table device.now)) most.0 }
{
    Ms(device.next_wake().0.min(most.0))
}

/// One turn: the tick first, then an arrival.
fn turn<P: Port, D: Device, C: Clock, O: Observer>(
    port: &mut P,
    device: &mut D,
    clock: &mut C,
    observer: &mut O,
) -> Result<u64, RunFault>
    requires { P.failed port.old < 2 ^ 64 - 1 }
    ensures run { Drove O.notes P.is_scripted C.is_scripted
        (turn_of (C.coming clock.old) (P.tape port.old).coming) 1 2
        (seen P.tape P.failed D.table port.old device.old observer.old)
        (seen P.tape P.failed D.table port.new device.new observer.new) result }
    ensures times_ms { OnOk result (C.is_scripted ≡ true → C.coming clock.new ≡ drop 1 (C.coming clock.old)) }
{
    let ms = clock.passed();
    let ticked = tick(port, device, observer, ms)?;
    let taken = receive(port, device, observer)?;
    Ok(ticked + taken)
}

/// Steps the device by the tick of a turn, if time passed.
pub(crate) fn tick<P: Port, D: Device, O: Observer>(
    port: &mut P,
    device: &mut D,
    observer: &mut O,
    ms: u64,
) -> Result<u64, RunFault>
    requires { P.failed port.old < 2 ^ 64 - 1 }
    ensures { Drove O.notes P.is_scripted true (ticks_of ms) 0 1
        (seen P.tape P.failed D.table port.old device.old observer.old)
        (seen P.tape P.failed D.table port.new device.new observer.new) result }
{
    if ms == 0 {
        return Ok(0);
    }
    let ms = ms.min(u64::from(LONGEST_TICK_MS)) as u32;
    act(port, device, observer, &Event::Tick { ms })?;
    Ok(1)
}

/// Steps the device by the arrival of a turn, if something was received.
fn receive<P: Port, D: Device, O: Observer>(
    port: &mut P,
    device: &mut D,
    observer: &mut O,
) -> Result<u64, RunFault>
    requires { P.failed port.old < 2 ^ 64 - 1 }
    ensures { Drove O.notes P.is_scripted true (arrivals_of (first_or None (P.tape port.old).coming)) 1 1
        (seen P.tape P.failed D.table port.old device.old observer.old)
        (seen P.tape P.failed D.table port.new device.new observer.new) result }
{
    let came = port.receive()?;
    match came {
        None => Ok(0),
        Some(arrival) => {
            act_on(port, device, observer, arrival)?;
            Ok(1)
        }
    }
}

/// Steps the device by an arrival. A datagram takes no memory.
pub(crate) fn act_on<P: Port, D: Device, O: Observer>(
    port: &mut P,
    device: &mut D,
    observer: &mut O,
    arrival: Arrival,
) -> Result<(), RunFault>
    requires { P.failed port.old < 2 ^ 64 - 1 }
    ensures { Drove O.notes P.is_scripted true (arrival_event arrival ∷ []) 0 1
        (seen P.tape P.failed D.table port.old device.old observer.old)
        (seen P.tape P.failed D.table port.new device.new observer.new) (once result) }
{
    match arrival {
        Arrival::Datagram { peer, bytes } => {
            deliver(port, device, observer, peer, bytes);
            Ok(())
        }
        other => act(port, device, observer, &other.into_event()),
    }
}

/// Delivers a datagram to the device, hands it to the observer, and gives its bytes back to the port. Takes no memory.
fn deliver<P: Port, D: Device, O: Observer>(
    port: &mut P,
    device: &mut D,
    observer: &mut O,
    peer: Node,
    bytes: Items<u8>,
)
    ensures { Drove O.notes P.is_scripted true (Event.Datagram peer bytes ∷ []) 0 1
        (seen P.tape P.failed D.table port.old device.old observer.old)
        (seen P.tape P.failed D.table port.new device.new observer.new) (Ok 1) }
{
    let delivery = device.deliver(peer, bytes.as_slice());
    // (no byte is copied: the event has them until the observer has seen it)
    let event = Event::Datagram { peer, bytes };
    observer.delivered(device, &event, delivery);
    give_back(port, event);
}

/// Gives the bytes of a datagram's event back to the port.
fn give_back<P: Port>(port: &mut P, event: Event)
    ensures kept { P.is_scripted ≡ true → P.tape port.new ≡ P.tape port.old }
    ensures worked { P.failed port.new ≡ P.failed port.old }
{
    if let Event::Datagram { peer: _, bytes } = event {
        port.recycle(bytes);
    }
}

/// Steps the device by one event, hands both to the observer, and sends the answer.
///
/// The fault is `Port` only if the port's count of failures rose: the device is then in the state after the event. With
/// the fault `Step` it is unchanged.
pub fn act<P: Port, D: Device, O: Observer>(
    port: &mut P,
    device: &mut D,
    observer: &mut O,
    event: &Event,
) -> Result<(), RunFault>
    requires { P.failed port.old < 2 ^ 64 - 1 }
    ensures run { Drove O.notes P.is_scripted true (event.now ∷ []) 0 1
        (seen P.tape P.failed D.table port.old device.old observer.old)
        (seen P.tape P.failed D.table port.new device.new observer.new) (once result) }
    ensures stepped { Stepped O.notes event.now observer.old observer.new (D.table device.old) (D.table device.new) }
    ensures refused { IsQuiet P.is_scripted (P.tape port.old) (P.tape port.new) result }
{
    let answer = step(device, observer, event)?;
    send(port, &answer)?;
    Ok(())
}

/// Sends an answer: its outputs, and then its replies to an inquiry.
fn send<P: Port>(port: &mut P, answer: &Answer) -> Result<(), PortFault>
    requires { P.failed port.old < 2 ^ 64 - 1 }
    ensures sent { OnOk result
        (P.is_scripted ≡ true → P.tape port.new ≡ with_sent (P.tape port.old) (answer_sent answer.now)) }
    ensures worked { OnOk result (P.failed port.new ≡ P.failed port.old) }
    ensures some { OnErr result
        (P.is_scripted ≡ true → SendsSome (P.tape port.old) (P.tape port.new) (answer_sent answer.now)) }
    ensures counted { OnErr result (P.failed port.new ≡ P.failed port.old + 1) }
{
    send_answer(&AtPort, port, answer)?;
    send_replies(port, answer.frames.as_slice())
}

/// Sends the frames to peers, each as a reply to the last inquiry of its peer.
fn send_replies<P: Port>(port: &mut P, frames: &[Frame]) -> Result<(), PortFault>
    requires { P.failed port.old < 2 ^ 64 - 1 }
    ensures sent { OnOk result
        (P.is_scripted ≡ true → P.tape port.new ≡ with_sent (P.tape port.old) (flat_map reply_sent frames.now)) }
    ensures worked { OnOk result (P.failed port.new ≡ P.failed port.old) }
    ensures some { OnErr result
        (P.is_scripted ≡ true → SendsSome (P.tape port.old) (P.tape port.new) (flat_map reply_sent frames.now)) }
    ensures counted { OnErr result (P.failed port.new ≡ P.failed port.old + 1) }
{
    for frame in frames {
        send_reply(port, frame)?;
    }
    Ok(())
}

/// Sends a frame, if it is for a peer. One for a stream has gone before.
fn send_reply<P: Port>(port: &mut P, frame: &Frame) -> Result<(), PortFault>
    requires { P.failed port.old < 2 ^ 64 - 1 }
    ensures sent { OnOk result
        (P.is_scripted ≡ true → P.tape port.new ≡ with_sent (P.tape port.old) (reply_sent frame.now)) }
    ensures worked { OnOk result (P.failed port.new ≡ P.failed port.old) }
    ensures some { OnErr result
        (P.is_scripted ≡ true → SendsSome (P.tape port.old) (P.tape port.new) (reply_sent frame.now)) }
    ensures counted { OnErr result (P.failed port.new ≡ P.failed port.old + 1) }
{
    match frame.to {
        Recipient::Stream(_) => Ok(()),
        Recipient::Peer(peer) => {
            let bytes = frame.bytes.as_slice();
            port.send(&Output::Reply { peer, bytes })
        }
    }
}

/// Steps the device by one event, and hands both to the observer.
fn step<D: Device, O: Observer>(device: &mut D, observer: &mut O, event: &Event) -> Outcome
    ensures step { Follows (step (D.table device.old) event.now) (D.table device.old) result (D.table device.new) }
    ensures noted { O.notes observer.old event.now result observer.new }
{
    let outcome = device.step(event);
    observer.stepped(device, event, &outcome);
    outcome
}
