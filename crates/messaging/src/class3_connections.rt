//! Lists of class 3 connections: one is found, and one is changed.

ghost use Rattle.std.specs.Prelude.{◌≡◌, not, filter, find, map, IfOk};
ghost use Rattle.std.specs.List.{list_any, position};
ghost use Rattle.std.specs.Option.{option_map};
ghost use Rattle.messaging.specs.Class3Connections.{has_class3_triad, has_class3_id, is_on_stream, is_class3, repeats_last, is_last_message, class3_count, first_changed, executed_class3, repeated_class3, replied_class3, class3_triad};

use crate::class3::Class3Connection;
use cip_types::{ConnId, Items, Ms, Node, OutOfMemory, Triad};
use std::alloc::Global;

impl Class3Connection {
    /// Whether the connection has this triad.
    ///
    /// Volume 1, chapter 3, connection triad.
    pub fn has_triad(&self, triad: Triad) -> bool
        ensures { result ≡ has_class3_triad triad self.now }
    {
        self.triad == triad
    }

    /// Whether the connection has this O->T id.
    pub fn has_id(&self, id: ConnId) -> bool
        ensures { result ≡ has_class3_id id self.now }
    {
        self.o_t_id.0 == id.0
    }

    /// Whether the connection lives on this stream.
    pub fn is_on_stream(&self, stream: u16) -> bool
        ensures { result ≡ is_on_stream stream self.now }
    {
        self.stream == stream
    }

    /// Whether the message of this sequence count repeats the last one that was executed.
    ///
    /// Volume 1, chapter 3, transport class 3.
    pub fn repeats_last(&self, count: u16) -> bool
        ensures { result ≡ repeats_last self.now count }
    {
        match self.last {
            None => false,
            Some(last) => last == count,
        }
    }

    /// Whether the connection has this O->T id, and the message of this count was the last to be executed.
    pub fn is_last_message(&self, id: ConnId, count: u16) -> bool
        ensures { result ≡ is_last_message id count self.now }
    {
        self.has_id(id) && self.repeats_last(count)
    }

    /// A copy of the connection. `OutOfMemory` is the only error.
    pub fn copy(&self, alloc: Global) -> Result<Class3Connection, OutOfMemory>
        ensures { IfOk result (λ copy. copy ≡ self.now) }
    {
        let reply = Items::copy_of(alloc, self.reply.as_slice())?;
        Ok(Class3Connection {
            triad: self.triad,
            peer: self.peer,
            stream: self.stream,
            o_t_id: self.o_t_id,
            t_o_id: self.t_o_id,
            o_t_api_ms: self.o_t_api_ms,
            t_o_api_ms: self.t_o_api_ms,
            o_t_size: self.o_t_size,
            t_o_size: self.t_o_size,
            watchdog: self.watchdog,
            opening: self.opening,
            last: self.last,
            reply,
            deadline: self.deadline,
        })
    }
}

// SEARCHES

/// The connection of a message that came over a stream with this O->T id. Takes no memory.
pub(crate) fn find_class3(
    class3_connections: &[Class3Connection],
    stream: u16,
    id: ConnId,
) -> Option<&Class3Connection>
    ensures { option_map (λ lent. lent.now) result ≡ find (is_class3 stream id) class3_connections.now }
{
    for class3 in class3_connections {
        if class3.is_on_stream(stream) && class3.has_id(id) {
            return Some(class3);
        }
    }
    None
}

/// The connection of an O->T id whose last message has this count. Takes no memory.
pub(crate) fn find_last(
    class3_connections: &[Class3Connection],
    id: ConnId,
    count: u16,
) -> Option<&Class3Connection>
    ensures { option_map (λ lent. lent.now) result ≡ find (is_last_message id count) class3_connections.now }
{
    for class3 in class3_connections {
        if class3.is_last_message(id, count) {
            return Some(class3);
        }
    }
    None
}

/// The connection of a triad. Takes no memory.
pub(crate) fn find_triad(
    class3_connections: &[Class3Connection],
    triad: Triad,
) -> Option<&Class3Connection>
    ensures { option_map (λ lent. lent.now) result ≡ find (has_class3_triad triad) class3_connections.now }
{
    for class3 in class3_connections {
        if class3.has_triad(triad) {
            return Some(class3);
        }
    }
    None
}

/// Whether the triad is that of a connection. Takes no memory.
pub(crate) fn has_triad(class3_connections: &[Class3Connection], triad: Triad) -> bool
    ensures { result ≡ list_any (has_class3_triad triad) class3_connections.now }
{
    class3_connections
        .iter()
        .any(|class3| class3.has_triad(triad))
}

/// How many connections a node opened. Takes no memory.
pub(crate) fn class3_count(class3_connections: &[Class3Connection], node: Node) -> usize
    ensures { result ≡ class3_count class3_connections.now node }
{
    class3_connections
        .iter()
        .filter(|class3| class3.peer.0 == node.0)
        .count()
}

/// The triads of the connections that live on a stream, in the order of their openings. `OutOfMemory` is the only
/// error.
pub(crate) fn stream_triads(
    alloc: Global,
    class3_connections: &[Class3Connection],
    stream: u16,
) -> Result<Vec<Triad>, OutOfMemory>
    ensures { IfOk result
        (λ triads. triads.items ≡ map class3_triad (filter (is_on_stream stream) class3_connections.now)) }
{
    let mut triads = Vec::new(alloc);
    for class3 in class3_connections {
        if class3.is_on_stream(stream) {
            triads.push(class3.triad)?;
        }
    }
    Ok(triads)
}

// CHANGES

fn place_of_id(class3_connections: &[Class3Connection], id: ConnId) -> Option<usize>
    ensures { result ≡ position (has_class3_id id) class3_connections.now }
{
    class3_connections
        .iter()
        .position(|class3| class3.has_id(id))
}

fn place_of_message(
    class3_connections: &[Class3Connection],
    id: ConnId,
    count: u16,
) -> Option<usize>
    ensures { result ≡ position (is_last_message id count) class3_connections.now }
{
    class3_connections
        .iter()
        .position(|class3| class3.is_last_message(id, count))
}

/// A message of the connection of an O->T id was executed. Takes no memory.
pub(crate) fn execute(
    class3_connections: &mut [Class3Connection],
    id: ConnId,
    count: u16,
    reply: Items<u8>,
    deadline: Ms,
)
    ensures { class3_connections.new
        ≡ first_changed (has_class3_id id) (executed_class3 count reply deadline) class3_connections.old }
{
    let Some(place) = place_of_id(class3_connections, id) else {
        return;
    };
    let class3 = &mut class3_connections[place];
    class3.last = Some(count);
    class3.reply = reply;
    class3.deadline = deadline;
}

/// The last message of the connection of an O->T id was repeated. Takes no memory.
pub(crate) fn repeat(class3_connections: &mut [Class3Connection], id: ConnId, deadline: Ms)
    ensures { class3_connections.new
        ≡ first_changed (has_class3_id id) (repeated_class3 deadline) class3_connections.old }
{
    let Some(place) = place_of_id(class3_connections, id) else {
        return;
    };
    class3_connections[place].deadline = deadline;
}

/// The message of this count has this reply, if it is still the last one of its connection. Takes no memory.
pub(crate) fn reply_to(
    class3_connections: &mut [Class3Connection],
    id: ConnId,
    count: u16,
    reply: Items<u8>,
)
    ensures { class3_connections.new
        ≡ first_changed (is_last_message id count) (replied_class3 reply) class3_connections.old }
{
    let Some(place) = place_of_message(class3_connections, id, count) else {
        return;
    };
    class3_connections[place].reply = reply;
}

/// Removes the connection of a triad. Takes no memory.
pub(crate) fn keep_other_triads(class3_connections: &mut Vec<Class3Connection>, triad: Triad)
    ensures { class3_connections.new.items
        ≡ filter (λ d. not (has_class3_triad triad d)) class3_connections.old.items }
{
    class3_connections.retain(|class3| !class3.has_triad(triad));
}

/// Removes the connections that live on a stream. Takes no memory.
pub(crate) fn keep_off_stream(class3_connections: &mut Vec<Class3Connection>, stream: u16)
    ensures { class3_connections.new.items ≡ filter (λ d. not (is_on_stream stream d)) class3_connections.old.items }
{
    class3_connections.retain(|class3| !class3.is_on_stream(stream));
}

/// A copy of connections. `OutOfMemory` is the only error.
pub(crate) fn copied(
    alloc: Global,
    class3_connections: &[Class3Connection],
) -> Result<Vec<Class3Connection>, OutOfMemory>
    ensures { IfOk result (λ copy. copy.items ≡ class3_connections.now) }
{
    let mut copy = Vec::new(alloc);
    for class3 in class3_connections {
        copy.push(class3.copy(alloc)?)?;
    }
    Ok(copy)
}
