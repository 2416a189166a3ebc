//! Lists of requests that the application has to answer.

ghost use Rattle.std.specs.Prelude.{◌≡◌, ◌≤◌, not, filter, find, vec_len, vec_capacity};
ghost use Rattle.std.specs.List.{list_any};
ghost use Rattle.messaging.specs.Askers.{is_over_stream};
ghost use Rattle.messaging.specs.Changes.{request_count, can_be_answered, referred_elsewhere, has_request_number};
ghost use Rattle.messaging.specs.Class3Connections.{is_last_message};

use crate::class3::Class3Connection;
use crate::requests::{Requester, Waiting};
use cip_types::{ConnId, Node};

fn has_last_message(class3_connections: &[Class3Connection], id: ConnId, count: u16) -> bool
    ensures { result ≡ list_any (is_last_message id count) class3_connections.now }
{
    class3_connections
        .iter()
        .any(|class3| class3.is_last_message(id, count))
}

/// Whether a request can be answered: a class 3 connection that brought it is open, and it is the connection's last
/// message.
pub(crate) fn can_be_answered(class3_connections: &[Class3Connection], waiting: &Waiting) -> bool
    ensures { result ≡ can_be_answered class3_connections.now waiting.now }
{
    match waiting.asker {
        Requester::Peer(_) | Requester::Stream { .. } => true,
        Requester::Class3Connection { id, count } => has_last_message(
            class3_connections,
            id,
            count,
        ),
    }
}

fn is_over_stream(asker: Requester, stream: u16) -> bool
    ensures { result ≡ is_over_stream stream asker }
{
    match asker {
        Requester::Peer(_) | Requester::Class3Connection { .. } => false,
        Requester::Stream { number, .. } => number == stream,
    }
}

/// Removes the requests that cannot be answered any more. Takes no memory.
pub(crate) fn keep_answerable(class3_connections: &[Class3Connection], waiting: &mut Vec<Waiting>)
    ensures items { waiting.new.items ≡ filter (can_be_answered class3_connections.now) waiting.old.items }
    ensures len { vec_len waiting.new ≤ vec_len waiting.old }
    ensures capacity { vec_capacity waiting.new ≡ vec_capacity waiting.old }
{
    waiting.retain(|request| can_be_answered(class3_connections, request));
}

/// Removes the requests that unconnected messages over a stream brought. Takes no memory.
pub(crate) fn keep_elsewhere(waiting: &mut Vec<Waiting>, stream: u16)
    ensures { waiting.new.items ≡ referred_elsewhere stream waiting.old.items }
{
    waiting.retain(|request| !is_over_stream(request.asker, stream));
}

/// Removes the request of a number. Takes no memory.
pub(crate) fn keep_other_numbers(waiting: &mut Vec<Waiting>, number: u64)
    ensures { waiting.new.items ≡ filter (λ w. not (has_request_number number w)) waiting.old.items }
{
    waiting.retain(|request| request.number != number);
}

/// The request of a number. Takes no memory.
pub(crate) fn find_waiting(waiting: &[Waiting], number: u64) -> Option<Waiting>
    ensures { result ≡ find (has_request_number number) waiting.now }
{
    waiting
        .iter()
        .copied()
        .find(|request| request.number == number)
}

/// How many requests of a node wait. Takes no memory.
pub(crate) fn request_count(waiting: &[Waiting], node: Node) -> usize
    ensures { result ≡ request_count waiting.now node }
{
    waiting
        .iter()
        .filter(|request| request.peer.0 == node.0)
        .count()
}
