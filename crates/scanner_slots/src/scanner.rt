//! A scanner's table beside its profile, and the sessions of its streams.

ghost use Rattle.std.specs.Prelude.{◌≡◌, find, map, option_and_then};
ghost use Rattle.scanner_table.specs.Sessions.{is_to, session_on, staged_stream};

use cip_types::{IdBlock, Ms, Node};
use scanner_table::{PendingExplicit, Session, Slot, Stage, TargetStream};

/// A scanner's table without its profile: its slots in the profile's order, whether its application runs, its
/// clock, the blocks of its connection ids, the number of the next one, the serial number of the next opening, the number of the
/// next request, the streams that are open, in the order in which they were opened, and the explicit requests without a
/// reply yet, in the order in which they were sent.
#[derive(Drop)]
pub struct ScannerState {
    pub slots: Vec<Slot>,
    pub run: bool,
    pub clock: Ms,
    pub ids: Vec<IdBlock>,
    pub next_id: u32,
    pub next_serial: u16,
    pub next_request: u64,
    pub streams: Vec<TargetStream>,
    pub explicit: Vec<PendingExplicit>,
}

fn session_on(stream: TargetStream) -> Option<Session>
    ensures { result ≡ session_on stream }
{
    match stream.stage {
        Stage::Up(handle) => Some(Session {
            stream: stream.number,
            handle,
        }),
        Stage::Waiting | Stage::Unused => None,
    }
}

fn stream_to(streams: &[TargetStream], target: Node) -> Option<TargetStream>
    ensures { result ≡ find (is_to target) streams.now }
{
    streams
        .iter()
        .copied()
        .find(|stream| stream.peer.0 == target.0)
}

/// The session with a target, if one is registered.
///
/// Volume 2, chapter 2, encapsulation sessions over TCP.
pub fn session_with(streams: &[TargetStream], target: Node) -> Option<Session>
    ensures { result ≡ option_and_then session_on (find (is_to target) streams.now) }
{
    match stream_to(streams, target) {
        Some(stream) => session_on(stream),
        None => None,
    }
}

fn staged_stream(stream: TargetStream, number: u16, stage: Stage) -> TargetStream
    ensures { result ≡ staged_stream number stage stream }
{
    if stream.number != number {
        return stream;
    }
    TargetStream { stage, ..stream }
}

/// Sets the stage of the stream of a number. Takes no memory.
pub fn stage_streams(streams: &mut [TargetStream], number: u16, stage: Stage)
    ensures { streams.new ≡ map (staged_stream number stage) streams.old }
{
    for stream in streams.iter_mut() {
        *stream = staged_stream(*stream, number, stage);
    }
}
