//! The sessions of a device, and the message that ends one.

ghost use Rattle.std.specs.Prelude.{◌≡◌, IfOk};
ghost use Rattle.std.specs.List.{filter_map};
ghost use Rattle.scanner_table.specs.Sessions.{session_on};
ghost use Rattle.station.specs.Sessions.{adapter_session, sessions_of, unregister_text};

use adapter_table::{Stream, session_of};
use cip_encap::{MessageView, command, write_message};
use cip_tables::DeviceTable;
use cip_types::OutOfMemory;
use scanner_table::{Session, Stage, TargetStream};
use std::alloc::Global;

/// The sessions of a device, in the order of its streams. The only fault is a refused allocation.
pub(crate) fn sessions_of(alloc: Global, table: &DeviceTable) -> Result<Vec<Session>, OutOfMemory>
    ensures { IfOk result (λ found. found.items ≡ sessions_of table.now) }
{
    match table {
        DeviceTable::Adapter(table) => adapter_sessions(alloc, table.streams.as_slice()),
        DeviceTable::Scanner(table) => scanner_sessions(alloc, table.streams.as_slice()),
    }
}

/// The sessions on an adapter's streams.
fn adapter_sessions(alloc: Global, streams: &[Stream]) -> Result<Vec<Session>, OutOfMemory>
    ensures { IfOk result (λ found. found.items ≡ filter_map adapter_session streams.now) }
{
    Ok(streams.iter().filter_map(adapter_session).collect(alloc)?)
}

/// The sessions on a scanner's streams.
fn scanner_sessions(alloc: Global, streams: &[TargetStream]) -> Result<Vec<Session>, OutOfMemory>
    ensures { IfOk result (λ found. found.items ≡ filter_map session_on streams.now) }
{
    Ok(streams.iter().filter_map(scanner_session).collect(alloc)?)
}

/// The session on a stream of an adapter.
fn adapter_session(stream: &Stream) -> Option<Session>
    ensures { result ≡ adapter_session stream.now }
{
    if !stream.registered {
        return None;
    }
    Some(Session {
        stream: stream.number,
        handle: session_of(stream),
    })
}

/// The session on a stream of a scanner.
fn scanner_session(stream: &TargetStream) -> Option<Session>
    ensures { result ≡ session_on stream.now }
{
    match stream.stage {
        Stage::Up(handle) => Some(Session {
            stream: stream.number,
            handle,
        }),
        _ => None,
    }
}

/// The message that ends a session.
///
/// Volume 2, chapter 2, UnRegisterSession.
pub(crate) fn unregister_message(alloc: Global, session: u32) -> Result<Vec<u8>, OutOfMemory>
    ensures { IfOk result (λ message. message.items ≡ unregister_text session) }
{
    let message = MessageView {
        command: command::UNREGISTER_SESSION,
        session,
        status: 0,
        context: 0,
        options: 0,
        data: &[],
    };
    write_message(alloc, &message)
}
