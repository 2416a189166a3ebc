//! What is said to one browser.

ghost use Rattle.std.specs.Prelude.{◌≡◌};
ghost use Rattle.page_server.specs.Reads.{after_read, request_in};
ghost use Rattle.page_server.specs.Waits.{is_whole};

use crate::calls::call_line;
use crate::files::send_download;
use crate::page::{
    Body, PageAnswer, PageRefusal, PageRequest, RequestReading, answer_to, head_of, read_request,
};
use crate::sent_answer::{PAUSE_MS, SentAnswer, passed_ms, request_wait_ms};
use crate::server::PageContext;
use crate::text::{PAGE_FRONT, PAGE_REST};
use cip_tables::Device;
use cip_types::OutOfMemory;
use std::alloc::AllocError;
use std::fs::File;
use std::io::{ErrorKind, Read, Write};
use std::net::{Shutdown, TcpStream};
use std::rt::{Clock, Files};
use std::sync::Wait;
use std::thread;
use std::time::{Duration, Instant, SystemTime};

/// A request has at most so many bytes, its body included.
const MOST_BYTES: usize = 12_288;

/// A browser that is refused unheard has so many milliseconds to say why it came.
const UNHEARD_MS: u64 = 20;

/// An event stream says at least so often that it is there, in milliseconds.
const BEAT_MS: u64 = 1_000;

/// A read takes at most so many bytes.
const CHUNK_BYTES: usize = 2_048;

/// Why a request is not answered as it asks.
#[derive(Clone, Copy, PartialEq, Eq)]
pub(crate) enum Unheard {
    /// It is refused.
    Refused(PageRefusal),
    /// The browser has left.
    Left,
}

impl From<OutOfMemory> for Unheard {
    fn from(_refused: OutOfMemory) -> Unheard {
        Unheard::Refused(PageRefusal::Busy)
    }
}

impl From<AllocError> for Unheard {
    fn from(_refused: AllocError) -> Unheard {
        Unheard::Refused(PageRefusal::Busy)
    }
}

/// Reads a request of a browser, and answers it.
pub(crate) fn talk<R, D>(rt: &R, context: &PageContext, stream: TcpStream)
where
    R: Wait + Clock + AllocGlobal + Files<File = File>,
    D: Device + Drop,
{
    let mut stream = stream;
    let _ = stream.set_nodelay(true);
    let mut bytes = Vec::new(context.alloc);
    let answered = match read_whole(rt, context, &mut stream, &mut bytes) {
        Ok((request, head)) => answer::<R, D>(rt, context, &mut stream, &bytes, request, head),
        Err(unheard) => Err(unheard),
    };
    if let Err(Unheard::Refused(refusal)) = answered {
        let _ = send(rt, &mut stream, head_of(PageAnswer::Refused(refusal)));
    }
    close(&stream);
}

/// Reads until a head is whole, and behind it the body that it announces.
fn read_whole<R: Clock>(
    rt: &R,
    context: &PageContext,
    stream: &mut TcpStream,
    bytes: &mut Vec<u8>,
) -> Result<(PageRequest, usize), Unheard> {
    let Ok(begin) = Instant::now(rt) else {
        return Err(Unheard::Left);
    };
    for _ in 0..u64::MAX {
        let reading = read_request(bytes.as_slice(), &context.names);
        if let Some(whole) = request_in(reading, bytes.len())? {
            return Ok(whole);
        }
        if !bytes.is_empty() {
            // (a request that comes byte by byte is not read as often)
            thread::sleep(rt, Duration::from_millis(PAUSE_MS));
        }
        read_more(rt, begin, stream, bytes)?;
    }
    Err(Unheard::Left)
}

/// The request that is whole with so many bytes, and the length of its head. None if more is to be read. The faults: `Bad` if the
/// bytes are no request, `TooLarge` if there are as many as a request may have.
fn request_in(
    reading: RequestReading,
    arrived: usize,
) -> Result<Option<(PageRequest, usize)>, Unheard>
    ensures { result ≡ request_in reading arrived }
{
    match reading {
        RequestReading::Whole(request, head) if is_whole(request, head, arrived) => {
            Ok(Some((request, head)))
        }
        RequestReading::Bad => Err(Unheard::Refused(PageRefusal::Bad)),
        _ if arrived >= MOST_BYTES => Err(Unheard::Refused(PageRefusal::TooLarge)),
        _ => Ok(None),
    }
}

/// Whether the body that a head announces has arrived. One that is refused is not waited for.
fn is_whole(request: PageRequest, head: usize, arrived: usize) -> bool
    ensures { result ≡ is_whole request.body head arrived }
{
    match request.body {
        Body::Bytes(count) => head <= arrived && count <= arrived - head,
        _ => true,
    }
}

/// Reads what there is, until the request's time is over.
fn read_more<R: Clock>(
    rt: &R,
    begin: Instant,
    stream: &mut TcpStream,
    bytes: &mut Vec<u8>,
) -> Result<(), Unheard> {
    let left = request_wait_ms(passed_ms(rt, begin)?);
    let wait = Some(Duration::from_millis(left));
    if left == 0 || stream.set_read_timeout(wait).is_err() {
        return Err(Unheard::Refused(PageRefusal::Late));
    }
    let mut chunk = [0u8; CHUNK_BYTES];
    let read = match stream.read(&mut chunk) {
        Ok(count) => Ok(count),
        Err(error) => Err(error.kind()),
    };
    let count = after_read(read)?;
    match bytes.extend_from_slice(chunk.get(..count).unwrap_or(&[])) {
        Ok(()) => Ok(()),
        Err(_) => Err(Unheard::Refused(PageRefusal::Busy)),
    }
}

/// How many bytes a read brought; none if it was interrupted. The faults: the browser has left, or its time is over.
fn after_read(read: Result<usize, ErrorKind>) -> Result<usize, Unheard>
    ensures { result ≡ after_read read }
{
    match read {
        Ok(0) => Err(Unheard::Left),
        Ok(count) => Ok(count),
        Err(ErrorKind::Interrupted) => Ok(0),
        Err(ErrorKind::WouldBlock | ErrorKind::TimedOut) => {
            Err(Unheard::Refused(PageRefusal::Late))
        }
        Err(_) => Err(Unheard::Left),
    }
}

/// Answers a request.
fn answer<R, D>(
    rt: &R,
    context: &PageContext,
    stream: &mut TcpStream,
    bytes: &[u8],
    request: PageRequest,
    head: usize,
) -> Result<(), Unheard>
where
    R: Wait + Clock + AllocGlobal + Files<File = File>,
    D: Device + Drop,
{
    let answer = answer_to(request, context.allowed);
    match answer {
        PageAnswer::Page => {
            let mut sent = SentAnswer::begin(rt)?;
            sent.send(rt, stream, head_of(answer).as_bytes())?;
            sent.send(rt, stream, PAGE_FRONT.as_bytes())?;
            sent.send(rt, stream, context.names.word())?;
            sent.send(rt, stream, PAGE_REST.as_bytes())
        }
        PageAnswer::Events => {
            context.texts.watch();
            let sent = send_events(rt, context, stream);
            context.texts.leave();
            sent
        }
        PageAnswer::Call(count) => {
            let body = bytes.get(head..).unwrap_or(&[]);
            hand_on(rt, context, body.get(..count).unwrap_or(&[]))?;
            send(rt, stream, head_of(answer))
        }
        PageAnswer::Record | PageAnswer::Capture => send_download::<R, D>(
            rt, context, stream, answer,
        ),
        PageAnswer::Refused(refusal) => Err(Unheard::Refused(refusal)),
    }
}

/// Sends an answer that is one text.
fn send<R: Clock>(rt: &R, stream: &mut TcpStream, text: &str) -> Result<(), Unheard> {
    send_part(rt, stream, text.as_bytes())
}

/// Sends a part of an event stream, which has the time of an answer.
fn send_part<R: Clock>(rt: &R, stream: &mut TcpStream, bytes: &[u8]) -> Result<(), Unheard> {
    SentAnswer::begin(rt)?.send(rt, stream, bytes)
}

/// Sends each new snapshot, as long as the browser reads.
fn send_events<R: Wait + Clock>(
    rt: &R,
    context: &PageContext,
    stream: &mut TcpStream,
) -> Result<(), Unheard> {
    send(rt, stream, head_of(PageAnswer::Events))?;
    send_part(rt, stream, b"event: station\ndata: ")?;
    send_part(rt, stream, context.greeting.as_bytes())?;
    send_part(rt, stream, b"\n\n")?;
    let mut seen = context.texts.numbers(rt)?;
    let mut named = vec![in context.alloc; false; seen.len()]?;
    // (a station that waits for its peers makes a turn, and with it a snapshot)
    context.input.wake(rt);
    let mut text = Vec::new(context.alloc);
    let mut from = 0;
    for _ in rt.forever() {
        text.clear();
        match context.texts.wait_for(rt, seen.as_slice(), from, BEAT_MS) {
            None => text.extend_from_slice(b":\n\n")?,
            Some(device) => {
                push_names_once(rt, context, device, &mut named, &mut text)?;
                let number = push_event(rt, context, device, &mut text)?;
                note_seen(&mut seen, device, number);
                from = device.saturating_add(1);
            }
        }
        send_part(rt, stream, text.as_slice())?;
        thread::sleep(rt, Duration::from_millis(PAUSE_MS));
    }
    Ok(())
}

/// Writes the names of a device's points as an event of their own, before its first snapshot of a stream.
fn push_names_once<R: Wait>(
    rt: &R,
    context: &PageContext,
    device: usize,
    named: &mut Vec<bool>,
    text: &mut Vec<u8>,
) -> Result<(), Unheard> {
    match named.get_mut(device) {
        Some(own) if !*own => *own = true,
        _ => return Ok(()),
    }
    let start = text.len();
    text.extend_from_slice(b"event: names\n")?;
    push_id(context, device, text)?;
    text.extend_from_slice(b"data: ")?;
    if context.texts.push_names(rt, device, text)? {
        text.extend_from_slice(b"\n\n")?;
    } else {
        text.truncate(start);
    }
    Ok(())
}

/// Writes the id of an event of a plant's page: the number of its device.
fn push_id(context: &PageContext, device: usize, text: &mut Vec<u8>) -> Result<(), Unheard> {
    if context.is_plant {
        let id = format!(in context.alloc; "id: {device}\n")?;
        text.extend_from_slice(id.as_bytes())?;
    }
    Ok(())
}

/// Writes the newest snapshot of a device as an event, whose id is the number of the device in its plant. The time of the wall
/// goes before what the station says of its device. Answers the number of the snapshot.
fn push_event<R: Wait + Clock>(
    rt: &R,
    context: &PageContext,
    device: usize,
    text: &mut Vec<u8>,
) -> Result<u64, Unheard> {
    push_id(context, device, text)?;
    text.extend_from_slice(b"data: {")?;
    if let Some(ms) = wall_ms(rt) {
        let wall = format!(in context.alloc; "\"wall_ms\":{ms},")?;
        text.extend_from_slice(wall.as_bytes())?;
    }
    let number = context.texts.take(rt, device, text)?;
    text.extend_from_slice(b"\n\n")?;
    Ok(number)
}

/// The time of the wall, in milliseconds since 1970; none if the system has none.
fn wall_ms<R: Clock>(rt: &R) -> Option<u64> {
    let passed = SystemTime::now(rt)
        .ok()?
        .duration_since(SystemTime::UNIX_EPOCH)
        .ok()?;
    u64::try_from(passed.as_millis()).ok()
}

/// Notes which snapshot of a device was seen.
fn note_seen(seen: &mut Vec<u64>, device: usize, number: u64) {
    if let Some(own) = seen.get_mut(device) {
        *own = number;
    }
}

/// Hands a call on to the station, as if it was typed.
fn hand_on<R: Wait>(rt: &R, context: &PageContext, call: &[u8]) -> Result<(), Unheard> {
    let Some(line) = call_line(context.alloc, context.is_plant, call)? else {
        return Err(Unheard::Refused(PageRefusal::Bad));
    };
    if context.input.offer(rt, line.as_slice()) {
        Ok(())
    } else {
        Err(Unheard::Refused(PageRefusal::Busy))
    }
}

/// Refuses a browser whose request is not read to its end.
pub(crate) fn refuse_at_once(stream: TcpStream, refusal: PageRefusal) {
    let mut stream = stream;
    let mut unread = [0u8; 1_024];
    let unheard = Some(Duration::from_millis(UNHEARD_MS));
    if stream.set_read_timeout(unheard).is_err() || stream.set_write_timeout(unheard).is_err() {
        return;
    }
    let _ = stream.read(&mut unread);
    let _ = stream.write_all(head_of(PageAnswer::Refused(refusal)).as_bytes());
    let _ = stream.shutdown(Shutdown::Write);
}

/// Ends a stream so that the browser gets what was written, though not all of its request may be read.
fn close(stream: &TcpStream) {
    let mut unread = [0u8; 1_024];
    let _ = stream.shutdown(Shutdown::Write);
    let _ = stream.set_read_timeout(Some(Duration::from_millis(UNHEARD_MS)));
    for _ in 0..4 {
        match (&mut &*stream).read(&mut unread) {
            Ok(count) if count > 0 => {}
            _ => return,
        }
    }
}
