//! Turns in time: what waits is taken before the tick, and nothing is dated back.

ghost use Rattle.std.specs.Prelude.{◌≡◌, ◌<◌, ◌-◌, ◌^◌, ◌∷◌, [], true, None, drop, OnOk};
ghost use Rattle.cip_events.specs.Arrivals.{arrival_event};
ghost use Rattle.udp_runner.specs.Driving.{Drove, seen};
ghost use Rattle.udp_runner.specs.InTime.{age_rest, connection_rest, slot_rest};
ghost use Rattle.udp_runner.specs.Tape.{first_or};
ghost use Rattle.udp_runner.specs.Turns.{arrivals_of, turn_of};

use crate::fault::RunFault;
use crate::observer::Observer;
use crate::port::{Clock, Port};
use crate::runner::{act_on, longest_wait, tick};
use crate::times::before_timeout;
use adapter_table::ConnectionReport;
use cip_events::Arrival;
use cip_productions::Age;
use cip_tables::Device;
use cip_types::Ms;
use cip_types::limits::LONGEST_TICK_MS;
use scanner_table::SlotReport;

/// So many datagrams that wait are taken before a tick.
const MOST_BEFORE_TICK: u32 = 64;

/// Makes one turn that waits, as `turn_waiting` does, and that is in time. Once a whole millisecond has passed it first takes
/// the datagrams that wait, at most 64, then ticks, and then takes one arrival of any kind. Before the device is given what
/// has arrived its clock is brought up to the millisecond that has begun, as far as no connection times out meanwhile; the
/// tick brings it to the last one that has passed. So a datagram that arrived in time is not missed, and a time-out comes no
/// earlier than its length after the datagram. At a scripted port and clock it is the turn of `turn_waiting`.
pub fn turn_in_time<P: Port, D: Device, C: Clock, O: Observer>(
    port: &mut P,
    device: &mut D,
    clock: &mut C,
    observer: &mut O,
    most: Ms,
) -> Result<u64, RunFault>
    requires { P.failed port.old < 2 ^ 64 - 1 }
    ensures run { Drove O.notes P.is_scripted C.is_scripted
        (turn_of (C.coming clock.old) (P.tape port.old).coming) 1 131
        (seen P.tape P.failed D.table port.old device.old observer.old)
        (seen P.tape P.failed D.table port.new device.new observer.new) result }
    ensures times_ms { OnOk result (C.is_scripted ≡ true → C.coming clock.new ≡ drop 1 (C.coming clock.old)) }
{
    port.wait(clock.time_to(longest_wait(device, most)));
    take_turn(port, device, clock, observer)
}

/// One turn: what waits first, then the tick, then an arrival.
fn take_turn<P: Port, D: Device, C: Clock, O: Observer>(
    port: &mut P,
    device: &mut D,
    clock: &mut C,
    observer: &mut O,
) -> Result<u64, RunFault>
    requires { P.failed port.old < 2 ^ 64 - 1 }
    ensures run { Drove O.notes P.is_scripted C.is_scripted
        (turn_of (C.coming clock.old) (P.tape port.old).coming) 1 131
        (seen P.tape P.failed D.table port.old device.old observer.old)
        (seen P.tape P.failed D.table port.new device.new observer.new) result }
    ensures times_ms { OnOk result (C.is_scripted ≡ true → C.coming clock.new ≡ drop 1 (C.coming clock.old)) }
{
    let taken = take_waiting(port, device, clock, observer)?;
    let ms = clock.passed();
    let ticked = tick(port, device, observer, ms)?;
    let received = receive_in_time(port, device, clock, observer)?;
    Ok(taken + (ticked + received))
}

/// Takes the datagrams that wait, at most 64, if a tick is to follow.
fn take_waiting<P: Port, D: Device, C: Clock, O: Observer>(
    port: &mut P,
    device: &mut D,
    clock: &mut C,
    observer: &mut O,
) -> Result<u64, RunFault>
    requires { P.failed port.old < 2 ^ 64 - 1 }
    ensures run { Drove O.notes P.is_scripted C.is_scripted [] 0 128
        (seen P.tape P.failed D.table port.old device.old observer.old)
        (seen P.tape P.failed D.table port.new device.new observer.new) result }
    ensures times_ms { OnOk result (C.is_scripted ≡ true → C.coming clock.new ≡ C.coming clock.old) }
{
    if !clock.time_to(Ms(1)).is_zero() {
        return Ok(0);
    }
    take_all(port, device, clock, observer)
}

/// Takes the datagrams that wait, at most 64.
fn take_all<P: Port, D: Device, C: Clock, O: Observer>(
    port: &mut P,
    device: &mut D,
    clock: &mut C,
    observer: &mut O,
) -> Result<u64, RunFault>
    requires { P.failed port.old < 2 ^ 64 - 1 }
    ensures run { Drove O.notes P.is_scripted C.is_scripted [] 0 128
        (seen P.tape P.failed D.table port.old device.old observer.old)
        (seen P.tape P.failed D.table port.new device.new observer.new) result }
    ensures times_ms { OnOk result (C.is_scripted ≡ true → C.coming clock.new ≡ C.coming clock.old) }
{
    let mut count = 0;
    for _ in 0..MOST_BEFORE_TICK {
        let taken = take_datagram(port, device, clock, observer)?;
        count += taken;
        if taken == 0 {
            return Ok(count);
        }
    }
    Ok(count)
}

/// Takes the next datagram that waits. Answers the number of events: 0 if there is none.
fn take_datagram<P: Port, D: Device, C: Clock, O: Observer>(
    port: &mut P,
    device: &mut D,
    clock: &mut C,
    observer: &mut O,
) -> Result<u64, RunFault>
    requires { P.failed port.old < 2 ^ 64 - 1 }
    ensures run { Drove O.notes P.is_scripted C.is_scripted [] 0 2
        (seen P.tape P.failed D.table port.old device.old observer.old)
        (seen P.tape P.failed D.table port.new device.new observer.new) result }
    ensures times_ms { OnOk result (C.is_scripted ≡ true → C.coming clock.new ≡ C.coming clock.old) }
{
    let came = port.next_datagram()?;
    match came {
        None => Ok(0),
        Some(arrival) => give_in_time(port, device, clock, observer, arrival),
    }
}

/// Steps the device by the arrival of a turn, if something was received.
fn receive_in_time<P: Port, D: Device, C: Clock, O: Observer>(
    port: &mut P,
    device: &mut D,
    clock: &mut C,
    observer: &mut O,
) -> Result<u64, RunFault>
    requires { P.failed port.old < 2 ^ 64 - 1 }
    ensures run { Drove O.notes P.is_scripted C.is_scripted (arrivals_of (first_or None (P.tape port.old).coming)) 1 2
        (seen P.tape P.failed D.table port.old device.old observer.old)
        (seen P.tape P.failed D.table port.new device.new observer.new) result }
    ensures times_ms { OnOk result (C.is_scripted ≡ true → C.coming clock.new ≡ C.coming clock.old) }
{
    let came = port.receive()?;
    match came {
        None => Ok(0),
        Some(arrival) => give_in_time(port, device, clock, observer, arrival),
    }
}

/// Brings the device's clock up, and steps the device by an arrival.
fn give_in_time<P: Port, D: Device, C: Clock, O: Observer>(
    port: &mut P,
    device: &mut D,
    clock: &mut C,
    observer: &mut O,
    arrival: Arrival,
) -> Result<u64, RunFault>
    requires { P.failed port.old < 2 ^ 64 - 1 }
    ensures run { Drove O.notes P.is_scripted C.is_scripted (arrival_event arrival ∷ []) 0 2
        (seen P.tape P.failed D.table port.old device.old observer.old)
        (seen P.tape P.failed D.table port.new device.new observer.new) result }
    ensures times_ms { OnOk result (C.is_scripted ≡ true → C.coming clock.new ≡ C.coming clock.old) }
{
    let ms = bring_up(device, clock);
    let ticked = tick(port, device, observer, ms)?;
    act_on(port, device, observer, arrival)?;
    Ok(ticked + 1)
}

/// The milliseconds by which a device's clock is brought up before it is given what has arrived.
fn bring_up<D: Device, C: Clock>(device: &D, clock: &mut C) -> u64
    ensures answer { C.is_scripted ≡ true → result ≡ 0 }
    ensures rest { C.is_scripted ≡ true → C.coming clock.new ≡ C.coming clock.old }
{
    let begun = clock.begun();
    if begun == 0 {
        return 0;
    }
    let ms = begun.min(rest_of(device, begun));
    clock.bring_up(ms);
    ms
}

/// For how many of these milliseconds no connection of the device times out: all of them if nothing is due at it meanwhile.
/// Takes no memory.
fn rest_of<D: Device>(device: &D, ms: u64) -> u64 {
    if ms < device.next_wake().0 {
        return ms;
    }
    connections_rest(device, ms).min(slots_rest(device, ms))
}

/// For how many of these milliseconds no connection of an adapter times out.
fn connections_rest<D: Device>(device: &D, ms: u64) -> u64 {
    let mut rest = ms;
    for place in 0..u32::MAX {
        let Some(report) = device.connection(place) else {
            return rest;
        };
        rest = rest.min(connection_rest(&report));
    }
    rest
}

/// For how many of these milliseconds no connection of a scanner times out.
fn slots_rest<D: Device>(device: &D, ms: u64) -> u64 {
    let mut rest = ms;
    for number in 0..u32::MAX {
        let Some(report) = device.slot(number) else {
            return rest;
        };
        rest = rest.min(slot_rest(&report));
    }
    rest
}

/// For how many milliseconds a connection of an adapter does not time out.
fn connection_rest(report: &ConnectionReport) -> u64
    ensures { result ≡ connection_rest report.now }
{
    if report.established {
        age_rest(report.o_t_api_ms, report.age)
    } else {
        u64::from(LONGEST_TICK_MS)
    }
}

/// For how many milliseconds the connection of a slot does not time out.
fn slot_rest(report: &SlotReport) -> u64
    ensures { result ≡ slot_rest report.now }
{
    match report {
        SlotReport::Established(target) => age_rest(target.t_o_api_ms, target.age),
        _ => u64::from(LONGEST_TICK_MS),
    }
}

/// For how many milliseconds a connection of this packet interval and age does not time out.
fn age_rest(api_ms: u32, age: Age) -> u64
    ensures { result ≡ age_rest api_ms age }
{
    match age {
        Age::SinceOpening(ms) => before_timeout(api_ms, ms.0, true),
        Age::SinceAccepted(ms) => before_timeout(api_ms, ms.0, false),
    }
}
