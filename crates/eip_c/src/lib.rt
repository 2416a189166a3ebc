//! A device of the line behind a C header: each exported function performs one call at it.
//!
//! `include/eip.h` declares these functions, and lists their numbers. What C reads is what the contracts here say: an
//! answer as flat bytes.
#![tactic(auto)]

ghost use Rattle.std.specs.Prelude.{◌≡◌, ◌<◌, ◌≤◌, Ok};
ghost use Rattle.cip_events.specs.declared.event.Event.TheVariants.{Request, StreamOpened, Frame, StreamCut, Datagram, Inquiry, Write, Tick, Mode, Start, Stop, Explicit, Respond, Counters, Ids};
ghost use Rattle.cip_events.specs.declared.event.Verdict.TheVariants.{Delivered};
ghost use Rattle.cip_events.specs.Answers.{plain_answer};
ghost use Rattle.cip_events.specs.Clock.{longest_tick};
ghost use Rattle.cip_tables.specs.Step.{step};
ghost use Rattle.cip_tables.specs.States.{owner_in, connection_in, slot_in, totals_of};
ghost use Rattle.cip_tables.specs.Wakes.{IsQuietFor, due_in};
ghost use Rattle.trace_text.specs.Reading.{trace_reading};
ghost use Rattle.flat_answers.specs.Flat.{delivery_number, delivery_of};
ghost use Rattle.eip_c.specs.Statuses.{status_of};
ghost use Rattle.eip_c.specs.Inquiries.{Inquires};
ghost use Rattle.eip_c.specs.States.{WritesConnection, WritesSlot};
ghost use Rattle.eip_c.specs.Calls.{table_of, node, Answers, Reports, Reads, Opens, HasOpened};

mod answered_device;
mod handle;
mod inquiry;
mod opening;
mod room;
mod states;
mod status;

use cip_events::Event;
use cip_tables::Device;
use cip_types::{IdBlock, Items, Node};
use flat_answers::delivery_number;
use handle::{Handle, HandleCell};
use inquiry::{IdentityNumbers, report_inquiry};
use opening::opened;
use room::report;
use states::{ConnectionNumbers, SlotNumbers, put_connection, put_slot};
use status::{DONE, OUT_OF_MEMORY};
use std::alloc::Global;

/// The version of this library, as `EIP_VERSION_NUMBER` of its header has it.
const VERSION_NUMBER: u32 = 1_051_000;

/// The version of this library: a million times its first number, a thousand times its second, and its third. A program
/// compares it with the number of the header that it was compiled with. Takes no memory.
#[unsafe(no_mangle)]
pub extern "C" fn eip_c_version() -> u32
    ensures { result ≡ 1051000 }
{
    VERSION_NUMBER
}

// DEVICES

/// Makes a device from the lines of a profile, as they stand at the head of a trace, and writes its handle.
///
/// The statuses: `Done`; `BadLine` and `BadProfile`, with their number; out of memory. Only `Done` writes a handle.
/// Lines of events are read, and not performed.
#[unsafe(no_mangle)]
pub extern "C" fn eip_c_new(
    alloc: Global,
    profile: &[u8],
    at: &mut HandleCell,
    number: &mut u64,
) -> u32
    ensures status { Opens (trace_reading profile.now) (status_of result) number.new }
    ensures device { result ≡ 0 → HasOpened (trace_reading profile.now) at.new.value }
    ensures unchanged { 0 < result → at.new.value ≡ at.old.value }
{
    match opened(alloc, profile, number) {
        Ok(device) => {
            at.put(device);
            DONE
        }
        Err(status) => status,
    }
}

/// Frees a device.
#[unsafe(no_mangle)]
pub extern "C" fn eip_c_free(device: Handle) {
    let _ = device.into_box();
}

/// Writes the answer that is kept: that of the last event that was not refused. Datagrams and reads keep none.
/// Takes no memory.
#[unsafe(no_mangle)]
pub extern "C" fn eip_c_answer(device: &mut Handle, out: &mut [u8], size: &mut usize) -> u32
    ensures answer { Reports device.old.value.answer (status_of result) (out.old, size.old) (out.new, size.new) }
    ensures unchanged { device.new.value ≡ device.old.value }
{
    let taken = device.cell.take();
    let status = report(&taken.answer, out, size);
    device.cell.put(taken);
    status
}

// MESSAGES

/// A peer sends a request to the message router.
#[unsafe(no_mangle)]
pub extern "C" fn eip_c_request(
    alloc: Global,
    device: &mut Handle,
    peer: u32,
    bytes: &[u8],
    out: &mut [u8],
    size: &mut usize,
) -> u32
    ensures { Answers (Request (node peer) bytes.now)
        device.old.value result device.new.value (out.old, size.old) (out.new, size.new) }
{
    let Ok(bytes) = Items::copy_of(alloc, bytes) else {
        return OUT_OF_MEMORY;
    };
    let event = Event::Request {
        peer: Node(peer),
        bytes,
    };
    device.perform(&event, out, size)
}

/// A peer opens a stream, which gets this number.
#[unsafe(no_mangle)]
pub extern "C" fn eip_c_stream(
    device: &mut Handle,
    stream: u16,
    peer: u32,
    out: &mut [u8],
    size: &mut usize,
) -> u32
    ensures { Answers (StreamOpened stream (node peer))
        device.old.value result device.new.value (out.old, size.old) (out.new, size.new) }
{
    let event = Event::StreamOpened {
        stream,
        peer: Node(peer),
    };
    device.perform(&event, out, size)
}

/// A stream brings the bytes of one encapsulation message.
#[unsafe(no_mangle)]
pub extern "C" fn eip_c_frame(
    alloc: Global,
    device: &mut Handle,
    stream: u16,
    bytes: &[u8],
    out: &mut [u8],
    size: &mut usize,
) -> u32
    ensures { Answers (Frame stream bytes.now)
        device.old.value result device.new.value (out.old, size.old) (out.new, size.new) }
{
    let Ok(bytes) = Items::copy_of(alloc, bytes) else {
        return OUT_OF_MEMORY;
    };
    let event = Event::Frame { stream, bytes };
    device.perform(&event, out, size)
}

/// A stream breaks, or its peer closes it.
#[unsafe(no_mangle)]
pub extern "C" fn eip_c_cut(
    device: &mut Handle,
    stream: u16,
    out: &mut [u8],
    size: &mut usize,
) -> u32
    ensures { Answers (StreamCut stream)
        device.old.value result device.new.value (out.old, size.old) (out.new, size.new) }
{
    let event = Event::StreamCut { stream };
    device.perform(&event, out, size)
}

/// A peer sends a class 1 datagram. Answers the number of its delivery. Takes no memory, and never fails.
#[unsafe(no_mangle)]
pub extern "C" fn eip_c_datagram(device: &mut Handle, peer: u32, bytes: &[u8]) -> u32
    ensures step { step (table_of device.old.value.device) (Datagram (node peer) bytes.now)
        ≡ Ok (plain_answer (Delivered (delivery_of result)), table_of device.new.value.device) }
    ensures number { delivery_number (delivery_of result) ≡ result }
    ensures answer { device.new.value.answer ≡ device.old.value.answer }
{
    let mut taken = device.cell.take();
    let delivery = taken.device.deliver(Node(peer), bytes);
    device.cell.put(taken);
    delivery_number(delivery)
}

// INQUIRIES

/// A peer sends an encapsulation message over no stream, to inquire which device this is.
#[unsafe(no_mangle)]
pub extern "C" fn eip_c_inquire(
    alloc: Global,
    device: &mut Handle,
    peer: u32,
    bytes: &[u8],
    out: &mut [u8],
    size: &mut usize,
) -> u32
    ensures { Answers (Inquiry (node peer) bytes.now)
        device.old.value result device.new.value (out.old, size.old) (out.new, size.new) }
{
    let Ok(bytes) = Items::copy_of(alloc, bytes) else {
        return OUT_OF_MEMORY;
    };
    let event = Event::Inquiry {
        peer: Node(peer),
        bytes,
    };
    device.perform(&event, out, size)
}

/// Writes the reply to an inquiry by which tools find devices: ListServices, ListIdentity or ListInterfaces. It needs no
/// device.
///
/// The statuses: `Done`; `NoRoom` with the size; `NoInquiry` with size 0; `LongName`; out of memory.
#[unsafe(no_mangle)]
pub extern "C" fn eip_c_inquiry(
    alloc: Global,
    identity: &IdentityNumbers,
    name: &[u8],
    message: &[u8],
    out: &mut [u8],
    size: &mut usize,
) -> u32
    ensures { Inquires message.now identity.now name.now
        (status_of result) (out.old, size.old) (out.new, size.new) }
{
    report_inquiry(alloc, message, identity, name, out, size)
}

// EXPLICIT REQUESTS

/// The application of a scanner sends a message router request to a target. It gives the request its number.
#[unsafe(no_mangle)]
pub extern "C" fn eip_c_explicit(
    alloc: Global,
    device: &mut Handle,
    target: u32,
    number: u32,
    bytes: &[u8],
    out: &mut [u8],
    size: &mut usize,
) -> u32
    ensures { Answers (Explicit (node target) number bytes.now)
        device.old.value result device.new.value (out.old, size.old) (out.new, size.new) }
{
    let Ok(bytes) = Items::copy_of(alloc, bytes) else {
        return OUT_OF_MEMORY;
    };
    let event = Event::Explicit {
        target: Node(target),
        number,
        bytes,
    };
    device.perform(&event, out, size)
}

// CONNECTION IDS

/// The device gets a further block of connection ids: the first, and how many they are.
#[unsafe(no_mangle)]
pub extern "C" fn eip_c_ids(
    device: &mut Handle,
    first: u32,
    count: u32,
    out: &mut [u8],
    size: &mut usize,
) -> u32
    ensures { Answers (Ids (record { first = first; count = count }))
        device.old.value result device.new.value (out.old, size.old) (out.new, size.new) }
{
    let block = IdBlock { first, count };
    let event = Event::Ids { block };
    device.perform(&event, out, size)
}

/// Answers how many connection ids the device has left. Takes no memory.
#[unsafe(no_mangle)]
pub extern "C" fn eip_c_ids_left(device: &mut Handle) -> u32
    ensures left { result ≡ (totals_of (table_of device.old.value.device)).ids_left }
    ensures unchanged { device.new.value ≡ device.old.value }
{
    let taken = device.cell.take();
    let left = taken.device.totals().ids_left;
    device.cell.put(taken);
    left
}

// OBJECTS OF THE MAKER'S OWN

/// The application of an adapter answers the request that the device gave it with this number: general status, and data.
#[unsafe(no_mangle)]
pub extern "C" fn eip_c_respond(
    alloc: Global,
    device: &mut Handle,
    number: u64,
    status: u8,
    bytes: &[u8],
    out: &mut [u8],
    size: &mut usize,
) -> u32
    ensures { Answers (Respond number status bytes.now)
        device.old.value result device.new.value (out.old, size.old) (out.new, size.new) }
{
    let Ok(bytes) = Items::copy_of(alloc, bytes) else {
        return OUT_OF_MEMORY;
    };
    let event = Event::Respond {
        number,
        status,
        bytes,
    };
    device.perform(&event, out, size)
}

// WHAT THE HOST COUNTS

/// The host says what it has counted of the interface of a described adapter: 44 bytes of the interface, 48 of its medium.
#[unsafe(no_mangle)]
pub extern "C" fn eip_c_counters(
    alloc: Global,
    device: &mut Handle,
    bytes: &[u8],
    out: &mut [u8],
    size: &mut usize,
) -> u32
    ensures { Answers (Counters bytes.now)
        device.old.value result device.new.value (out.old, size.old) (out.new, size.new) }
{
    let Ok(bytes) = Items::copy_of(alloc, bytes) else {
        return OUT_OF_MEMORY;
    };
    device.perform(&Event::Counters { bytes }, out, size)
}

// POINTS AND TIME

/// The application sets the value of an input.
#[unsafe(no_mangle)]
pub extern "C" fn eip_c_write(
    device: &mut Handle,
    point: u32,
    bytes: &[u8],
    out: &mut [u8],
    size: &mut usize,
) -> u32
    ensures { Answers (Write point bytes.now)
        device.old.value result device.new.value (out.old, size.old) (out.new, size.new) }
{
    let mut taken = device.cell.take();
    let status = taken.write(point, bytes, out, size);
    device.cell.put(taken);
    status
}

/// Writes the value of a point, as it is. Takes no memory.
#[unsafe(no_mangle)]
pub extern "C" fn eip_c_read(
    device: &mut Handle,
    point: u32,
    out: &mut [u8],
    size: &mut usize,
) -> u32
    ensures value { Reads (table_of device.old.value.device) point
        (status_of result) (out.old, size.old) (out.new, size.new) }
    ensures unchanged { device.new.value ≡ device.old.value }
{
    let taken = device.cell.take();
    let status = taken.value(point, out, size);
    device.cell.put(taken);
    status
}

/// Milliseconds pass, at most 60,000.
#[unsafe(no_mangle)]
pub extern "C" fn eip_c_tick(device: &mut Handle, ms: u32, out: &mut [u8], size: &mut usize) -> u32
    ensures { Answers (Tick ms)
        device.old.value result device.new.value (out.old, size.old) (out.new, size.new) }
{
    let event = Event::Tick { ms };
    device.perform(&event, out, size)
}

/// Answers in how many milliseconds something is due at the device: each tick of fewer answers nothing, and moves the clock
/// alone. Takes no memory.
#[unsafe(no_mangle)]
pub extern "C" fn eip_c_next_wake(device: &mut Handle) -> u32
    ensures due { result ≡ due_in (table_of device.old.value.device) }
    ensures quiet { IsQuietFor (table_of device.old.value.device) result }
    ensures longest { result ≤ longest_tick }
    ensures unchanged { device.new.value ≡ device.old.value }
{
    let taken = device.cell.take();
    let wake = taken.device.next_wake().0 as u32;
    device.cell.put(taken);
    wake
}

// STATES

/// Writes what is known of the owner of an adapter's output. Takes no memory.
///
/// The statuses: `Done`; 15 if no connection owns it, and at a scanner.
#[unsafe(no_mangle)]
pub extern "C" fn eip_c_owner(
    device: &mut Handle,
    output: u32,
    connection: &mut ConnectionNumbers,
) -> u32
    ensures owner { WritesConnection (owner_in (table_of device.old.value.device) output)
        result connection.old connection.new }
    ensures unchanged { device.new.value ≡ device.old.value }
{
    let taken = device.cell.take();
    let owner = taken.device.owner(output);
    device.cell.put(taken);
    put_connection(owner, connection)
}

/// Writes what is known of the connection of an adapter at a place of the opening order, from 0 on. Takes no memory.
///
/// The statuses: `Done`; 15 behind the last connection, and at a scanner.
#[unsafe(no_mangle)]
pub extern "C" fn eip_c_connection(
    device: &mut Handle,
    place: u32,
    connection: &mut ConnectionNumbers,
) -> u32
    ensures connection { WritesConnection (connection_in (table_of device.old.value.device) place)
        result connection.old connection.new }
    ensures unchanged { device.new.value ≡ device.old.value }
{
    let taken = device.cell.take();
    let found = taken.device.connection(place);
    device.cell.put(taken);
    put_connection(found, connection)
}

/// Writes the state of a scanner's slot. Takes no memory.
///
/// The statuses: `Done`; `NoSuchSlot`, and at an adapter.
#[unsafe(no_mangle)]
pub extern "C" fn eip_c_slot(device: &mut Handle, number: u32, slot: &mut SlotNumbers) -> u32
    ensures slot { WritesSlot (slot_in (table_of device.old.value.device) number) result slot.old slot.new }
    ensures unchanged { device.new.value ≡ device.old.value }
{
    let taken = device.cell.take();
    let found = taken.device.slot(number);
    device.cell.put(taken);
    put_slot(found, slot)
}

// THE APPLICATION OF A SCANNER

/// The application starts to run, or becomes idle.
#[unsafe(no_mangle)]
pub extern "C" fn eip_c_mode(
    device: &mut Handle,
    run: bool,
    out: &mut [u8],
    size: &mut usize,
) -> u32
    ensures { Answers (Mode run)
        device.old.value result device.new.value (out.old, size.old) (out.new, size.new) }
{
    let event = Event::Mode { run };
    device.perform(&event, out, size)
}

/// The connection of a slot is opened, and kept open.
#[unsafe(no_mangle)]
pub extern "C" fn eip_c_start(
    device: &mut Handle,
    slot: u32,
    out: &mut [u8],
    size: &mut usize,
) -> u32
    ensures { Answers (Start slot)
        device.old.value result device.new.value (out.old, size.old) (out.new, size.new) }
{
    let event = Event::Start { slot };
    device.perform(&event, out, size)
}

/// The connection of a slot is closed.
#[unsafe(no_mangle)]
pub extern "C" fn eip_c_stop(
    device: &mut Handle,
    slot: u32,
    out: &mut [u8],
    size: &mut usize,
) -> u32
    ensures { Answers (Stop slot)
        device.old.value result device.new.value (out.old, size.old) (out.new, size.new) }
{
    let event = Event::Stop { slot };
    device.perform(&event, out, size)
}
