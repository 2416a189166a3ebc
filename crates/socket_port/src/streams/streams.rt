//! The streams of a port.

ghost use Rattle.std.specs.Prelude.{◌≡◌, ◌<◌, replicate, position, slice_set, vec_len, Some, None, IfOk, IfErr, OnOk, OnErr};
ghost use Rattle.std.specs.Option.{option_map};
ghost use Rattle.socket_port.specs.Streams.StreamArrivals.{begun};
ghost use Rattle.socket_port.specs.Streams.Slots.{Receives, SendsOver, ended_at, given_at, has_ended, is_free, left_at, slot_at, socket_at, read_at};

use crate::streams::port_stream::PortStream;
use cip_events::Arrival;
use cip_types::limits::MOST_STREAMS;
use cip_types::{Node, OutOfMemory};
use std::alloc::Global;
use std::io::Write;

/// The streams of a port by their numbers, each with its socket.
///
/// It keeps the allocator that it was made with.
#[derive(Drop)]
pub struct PortStreams<S> {
    alloc: Global,
    slots: Vec<Option<PortStream<S>>>,
    ghost sixteen: { vec_len slots ≡ 16 },
}

impl<S: Drop> PortStreams<S> {
    /// No streams. The only fault is a refused allocation.
    pub fn new(alloc: Global) -> Result<Self, OutOfMemory>
        ensures { IfOk result (λ streams. streams.slots.items ≡ replicate 16 None) }
    {
        let mut slots = Vec::with_capacity(alloc, MOST_STREAMS)?;
        for _ in 0..MOST_STREAMS {
            slots.push(None)?;
        }
        Ok(PortStreams { alloc, slots })
    }

    /// Adds the stream that a peer opened over this socket, with the least free number. If no number is free, the
    /// socket is returned. Takes no memory.
    pub fn accept(&mut self, peer: Node, socket: S) -> Result<u16, S>
        ensures least { IfOk result (λ number. position is_free self.old.slots.items ≡ Some number) }
        ensures begins { IfOk result
            (λ number. self.new.slots.items ≡ slice_set self.old.slots.items number (Some (begun peer socket))) }
        ensures full { IfErr result (λ back. (back ≡ socket)
            × (position is_free self.old.slots.items ≡ None)
            × (self.new.slots.items ≡ self.old.slots.items)) }
    {
        let Some(index) = self.free_slot() else {
            return Err(socket);
        };
        self.slots[index] = Some(PortStream::begin(self.alloc, peer, socket));
        Ok(index as u16)
    }

    /// The least free number.
    fn free_slot(&self) -> Option<usize>
        ensures { result ≡ position is_free self.now.slots.items }
    {
        self.slots.iter().position(|slot| slot.is_none())
    }

    /// The socket to read from: that of a stream whose opening was reported, that has not ended, and of which no
    /// message waits.
    pub fn to_read(&self, number: u16) -> Option<&S>
        ensures { option_map (λ lent. lent.now) result ≡ read_at (slot_at self.now.slots.items number) }
    {
        match self.slots.get(usize::from(number)) {
            Some(Some(port_stream)) if port_stream.takes_bytes() => Some(port_stream.socket()),
            _ => None,
        }
    }

    /// The socket of the stream of this number.
    pub fn socket(&self, number: u16) -> Option<&S>
        ensures { option_map (λ lent. lent.now) result ≡ socket_at (slot_at self.now.slots.items number) }
    {
        match self.slots.get(usize::from(number)) {
            Some(Some(port_stream)) => Some(port_stream.socket()),
            _ => None,
        }
    }

    /// Removes a stream, and answers it.
    fn take(&mut self, number: u16) -> Option<PortStream<S>>
        ensures taken { result ≡ slot_at self.old.slots.items number }
        ensures left { self.new.slots.items ≡ slice_set self.old.slots.items number None }
    {
        let index = usize::from(number);
        if index >= self.slots.len() {
            return None;
        }
        self.slots[index].take()
    }

    /// Puts a stream, or none, under a number.
    fn put(&mut self, number: u16, slot: Option<PortStream<S>>)
        ensures { self.new.slots.items ≡ slice_set self.old.slots.items number slot }
    {
        let index = usize::from(number);
        if index < self.slots.len() {
            self.slots[index] = slot;
        }
    }

    /// Receives bytes of the stream of this number, and cuts them into messages, which wait to be taken. A message that
    /// is too long ends the stream. A stream that takes no bytes drops them. The only fault is a refused allocation:
    /// the bytes are lost, so the stream ends.
    pub fn receive(&mut self, number: u16, piece: &[u8]) -> Result<(), OutOfMemory>
        ensures received { OnOk result (Receives self.old.slots.items number piece.now self.new.slots.items) }
        ensures err { OnErr result
            (self.new.slots.items
            ≡ slice_set self.old.slots.items number (ended_at (slot_at self.old.slots.items number))) }
    {
        let Some(mut port_stream) = self.take(number) else {
            return Ok(());
        };
        let received = port_stream.receive(piece);
        self.put(number, Some(port_stream));
        received
    }

    /// Whether the stream of this number has ended. Takes no memory.
    pub fn has_ended(&self, number: u16) -> bool
        ensures { result ≡ has_ended (slot_at self.now.slots.items number) }
    {
        match self.slots.get(usize::from(number)) {
            Some(Some(port_stream)) => port_stream.has_ended(),
            _ => false,
        }
    }

    /// Marks the stream of this number as ended. Its messages can still be taken. Takes no memory.
    pub fn end(&mut self, number: u16)
        ensures { self.new.slots.items
            ≡ slice_set self.old.slots.items number (ended_at (slot_at self.old.slots.items number)) }
    {
        let Some(mut port_stream) = self.take(number) else {
            return;
        };
        port_stream.end();
        self.put(number, Some(port_stream));
    }

    /// Takes the next arrival of the stream of this number: first its opening, then its messages, last its end, which
    /// frees the number. Takes no memory.
    pub fn next(&mut self, number: u16) -> Option<Arrival>
        ensures given { result ≡ given_at number (slot_at self.old.slots.items number) }
        ensures left { self.new.slots.items
            ≡ slice_set self.old.slots.items number (left_at (slot_at self.old.slots.items number)) }
    {
        let port_stream = self.take(number)?;
        let (given, left) = port_stream.next(number);
        self.put(number, left);
        given
    }

    /// Closes the stream of this number: it has no further arrival, and its number is free. Takes no memory.
    pub fn close(&mut self, number: u16)
        ensures { self.new.slots.items ≡ slice_set self.old.slots.items number None }
    {
        self.put(number, None);
    }
}

impl<S: Write + Drop> PortStreams<S> {
    /// Sends a message over the stream of this number. A stream that does not take all of it at once ends. The message
    /// is dropped if the stream has ended or there is none. Takes no memory.
    pub fn send(&mut self, number: u16, message: &[u8])
        ensures { SendsOver S.contents self.old.slots.items number message.now self.new.slots.items }
    {
        let Some(mut port_stream) = self.take(number) else {
            return;
        };
        port_stream.send(message);
        self.put(number, Some(port_stream));
    }
}
