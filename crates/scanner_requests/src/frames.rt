//! The frames of requests.

ghost use Rattle.std.specs.Prelude.{◌≡◌, ◌<◌, ◌≤◌, ◌++◌, ℕ, List, IfOk, IsTrue, length};
ghost use Rattle.cip_encap.specs.Message.{view_header};
ghost use Rattle.cip_epath.specs.Path.{view_path};
ghost use Rattle.cip_fwdopen.specs.Open.{sent_open};
ghost use Rattle.scanner_table.specs.Requests.{id_or_zero, is_large, slot_path, time_out, open_time, requested_interval, open_fields, close_fields, opening, closing, registration, numbered, sent_frame};
ghost use Rattle.scanner_table.specs.Profiles.{has_lengths};
ghost use Rattle.scanner_requests.specs.Requests.{request_numbers, manager_bytes};

use crate::paths::slot_path;
use crate::sizes::{o_t_params, service_for, t_o_params};
use cip_encap::command::{REGISTER_SESSION, SEND_RR_DATA};
use cip_encap::{
    HEADER_LEN, MessageHeader, MessageView, items_len, put_items_header, put_message_header,
    write_message,
};
use cip_epath::{ConnPath, path_len};
use cip_events::{Frame, Recipient};
use cip_fwdopen::service::FORWARD_CLOSE;
use cip_fwdopen::{CloseRequest, OpenRequest, close_len, open_len, put_close, put_open};
use cip_types::fields::put_bytes;
use cip_types::{ConnId, Items, OutOfMemory, Triad};
use conn_state::Requested;
use scanner_table::{ScannerProfile, Session, SlotConfig};
use std::alloc::Global;

/// Protocol version 1, without option flags.
const PROTOCOL: [u8; 4] = [1, 0, 0, 0];

/// Priority and time tick of a request that says no time of the profile, and its time-out in ticks: 14.3 seconds.
const PRIORITY_TICK: u8 = 0x0A;

const TICKS: u8 = 0x0E;

/// The microseconds of a millisecond.
const MILLISECOND: u32 = 1000;

/// A time that a request says: a number of ticks of 2^tick milliseconds each.
///
/// Volume 1, chapter 3, unconnected send service, priority and time tick.
#[derive(Clone, Copy)]
struct TimeOut {
    tick: u8,
    ticks: u8,
}

/// Makes the RegisterSession frame of a new stream. `OutOfMemory` is the only error.
///
/// Volume 2, chapter 2, RegisterSession.
pub fn registration_frame(alloc: Global, stream: u16) -> Result<Frame, OutOfMemory>
    ensures { IfOk result (λ frame. frame ≡ sent_frame (registration stream)) }
{
    let message = MessageView {
        command: REGISTER_SESSION,
        session: 0,
        status: 0,
        context: 0,
        options: 0,
        data: &PROTOCOL,
    };
    Ok(Frame {
        to: Recipient::Stream(stream),
        bytes: Items::from_vec(write_message(alloc, &message)?),
    })
}

/// The header of the message with a request of this number and of this length with its items.
fn request_header(session: Session, number: u64, len: u16) -> MessageHeader
    ensures { view_header result ≡ request_numbers session number len }
{
    MessageHeader {
        command: SEND_RR_DATA,
        len,
        session: session.handle,
        status: 0,
        context: number,
        options: 0,
    }
}

/// The message with a request to the Connection Manager, within a session, up to the request's data. The data, of this
/// length, are to follow, and there is room for them.
fn manager_front(
    alloc: Global,
    session: Session,
    number: u64,
    service: u8,
    len: usize,
) -> Result<Vec<u8>, OutOfMemory>
    requires { len ≤ 1000 }
    ensures { (body : List ℕ) → length body ≡ len
        → IfOk result (λ v. v.items ++ body ≡ manager_bytes session number service body) }
{
    let manager = [service, 2, 0x20, 6, 0x24, 1];
    let request_len = manager.len() + len;
    let items = items_len(request_len, None);
    let mut out = Vec::with_capacity(alloc, HEADER_LEN + items)?;
    put_message_header(&mut out, &request_header(session, number, items as u16))?;
    put_items_header(&mut out, request_len as u16, None)?;
    put_bytes(&mut out, &manager)?;
    Ok(out)
}

fn id_or_zero(id: Option<ConnId>) -> ConnId
    ensures { result ≡ id_or_zero id }
{
    id.unwrap_or(ConnId(0))
}

/// Returns so many ticks of 2^tick milliseconds.
fn ticks_of(tick: u8, ticks: u64) -> TimeOut
    requires { ticks < 256 }
    ensures tick { result.tick ≡ tick }
    ensures ticks { result.ticks ≡ ticks }
{
    TimeOut {
        tick,
        ticks: ticks as u8,
    }
}

/// Returns a time of at most a minute in the shortest ticks that can say it, rounded up.
fn time_out(ms: u64) -> TimeOut
    requires { ms ≤ 60000 }
    ensures tick { result.tick ≡ (time_out ms).tick }
    ensures ticks { result.ticks ≡ (time_out ms).ticks }
{
    if ms <= 255 {
        return ticks_of(0, ms);
    }
    if ms <= 510 {
        return ticks_of(1, (ms + 1) / 2);
    }
    if ms <= 1020 {
        return ticks_of(2, (ms + 3) / 4);
    }
    if ms <= 2040 {
        return ticks_of(3, (ms + 7) / 8);
    }
    if ms <= 4080 {
        return ticks_of(4, (ms + 15) / 16);
    }
    if ms <= 8160 {
        return ticks_of(5, (ms + 31) / 32);
    }
    if ms <= 16320 {
        return ticks_of(6, (ms + 63) / 64);
    }
    if ms <= 32640 {
        return ticks_of(7, (ms + 127) / 128);
    }
    ticks_of(8, (ms + 255) / 256)
}

/// Returns how long a target has for an opening, as the request says.
fn open_time(profile: &ScannerProfile) -> TimeOut
    requires { profile.now.open_timeout ≤ 60000 }
    ensures tick { result.tick ≡ (open_time profile.now).tick }
    ensures ticks { result.ticks ≡ (open_time profile.now).ticks }
{
    if profile.tidy {
        return time_out(profile.open_timeout);
    }
    TimeOut {
        tick: PRIORITY_TICK,
        ticks: TICKS,
    }
}

/// Returns the O->T packet interval that a request asks for.
fn requested_interval(profile: &ScannerProfile, us: u32) -> u32
    ensures { result ≡ requested_interval profile.now us }
{
    if profile.tidy {
        return (us / MILLISECOND).max(1) * MILLISECOND;
    }
    us
}

/// Returns the contents of a slot's Forward_Open.
fn open_request<'a>(
    profile: &ScannerProfile,
    config: &'a SlotConfig,
    requested: &Requested,
) -> OpenRequest<ConnPath<'a>>
    requires lengths { IsTrue (has_lengths config.now) }
    requires time { profile.now.open_timeout ≤ 60000 }
    ensures contents { sent_open result ≡ open_fields profile.now config.now requested.now }
    ensures path { view_path result.path ≡ slot_path config.now }
{
    let time = open_time(profile);
    OpenRequest {
        priority_tick: time.tick,
        ticks: time.ticks,
        o_t_id: ConnId(0),
        t_o_id: id_or_zero(requested.t_o_id),
        triad: requested.triad,
        multiplier: config.mult,
        o_t_rpi: requested_interval(profile, config.o_t_rpi),
        o_t_params: o_t_params(config),
        t_o_rpi: config.t_o_rpi,
        t_o_params: t_o_params(config),
        trigger: config.trigger.byte(),
        path: slot_path(config),
    }
}

/// Makes the frame of a slot's Forward_Open, or of a Large_Forward_Open if a size needs it, within a session. The
/// number of the request is the sender context. `OutOfMemory` is the only error.
///
/// Volume 1, chapter 3, Forward_Open and Large_Forward_Open services.
pub fn open_frame(
    alloc: Global,
    profile: &ScannerProfile,
    config: &SlotConfig,
    requested: &Requested,
    session: Session,
    number: u64,
) -> Result<Frame, OutOfMemory>
    requires lengths { IsTrue (has_lengths config.now) }
    requires time { profile.now.open_timeout ≤ 60000 }
    ensures { IfOk result
        (λ frame. frame ≡ sent_frame
        (numbered session number (opening (is_large config.now) (open_fields profile.now config.now requested.now)))) }
{
    let request = open_request(profile, config, requested);
    let service = service_for(config);
    let len = open_len(service, path_len(&request.path));
    let mut out = manager_front(alloc, session, number, service.code(), len)?;
    put_open(&mut out, service, &request)?;
    Ok(Frame {
        to: Recipient::Stream(session.stream),
        bytes: Items::from_vec(out),
    })
}

/// Makes the frame of a slot's Forward_Close, within a session. The number of the request is the sender context.
/// `OutOfMemory` is the only error.
///
/// Volume 1, chapter 3, Forward_Close service.
pub fn close_frame(
    alloc: Global,
    config: &SlotConfig,
    triad: Triad,
    session: Session,
    number: u64,
) -> Result<Frame, OutOfMemory>
    requires { IsTrue (has_lengths config.now) }
    ensures { IfOk result
        (λ frame. frame ≡ sent_frame (numbered session number (closing (close_fields config.now triad)))) }
{
    let request = CloseRequest {
        priority_tick: PRIORITY_TICK,
        ticks: TICKS,
        triad,
        path: slot_path(config),
    };
    let len = close_len(path_len(&request.path));
    let mut out = manager_front(alloc, session, number, FORWARD_CLOSE, len)?;
    put_close(&mut out, &request)?;
    Ok(Frame {
        to: Recipient::Stream(session.stream),
        bytes: Items::from_vec(out),
    })
}
