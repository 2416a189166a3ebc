//! The streams of an adapter's peers, and the sessions that are registered on them.

ghost use Rattle.std.specs.Prelude.{◌≡◌, map};
ghost use Rattle.adapter_table.specs.Streams.{is_taken, session_of, has_session, registered_stream};

use crate::Stream;
use cip_types::has_stream;
use cip_types::limits::MOST_STREAMS;

/// Whether no stream of this number can be opened: one is open, or 16 streams are. Takes no memory.
pub fn is_taken(streams: &[Stream], number: u16) -> bool
    ensures { result ≡ is_taken streams.now number }
{
    has_stream(streams, number) || streams.len() >= MOST_STREAMS
}

/// The handle of a stream's session.
///
/// Volume 2, chapter 2, RegisterSession.
pub fn session_of(stream: &Stream) -> u32
    ensures { result ≡ session_of stream.now }
{
    u32::from(stream.number) + 1
}

/// Whether a session is registered on the stream, and this is its handle.
pub fn has_session(stream: &Stream, session: u32) -> bool
    ensures { result ≡ has_session stream.now session }
{
    stream.registered && session == session_of(stream)
}

fn registered_stream(stream: Stream, number: u16) -> Stream
    ensures { result ≡ registered_stream number stream }
{
    if stream.number != number {
        return stream;
    }
    Stream {
        registered: true,
        ..stream
    }
}

fn register(streams: &mut [Stream], number: u16)
    ensures { streams.new ≡ map (registered_stream number) streams.old }
{
    for stream in streams.iter_mut() {
        *stream = registered_stream(*stream, number);
    }
}

/// A session is registered on the stream of this number. Takes no memory.
pub fn register_stream(streams: &mut Vec<Stream>, number: u16)
    ensures { streams.new.items ≡ map (registered_stream number) streams.old.items }
{
    register(streams, number);
}
