//! One stream of a port.

ghost use Rattle.std.specs.Prelude.{◌≡◌, OnOk, OnErr};
ghost use Rattle.socket_port.specs.Streams.StreamArrivals.{ReceivesBytes, Sends, begun, ended, given_of, left_of, takes_bytes};

use crate::streams::sending::write_message;
use crate::streams::waiting::MessageQueue;
use cip_encap::{SplitFault, Splitter};
use cip_events::Arrival;
use cip_types::{Node, OutOfMemory};
use std::alloc::Global;
use std::io::Write;

/// One stream of a port: its peer, its socket, whether its opening was reported, whether it has ended, the bytes behind
/// its last whole message, and the messages that wait to be taken.
#[derive(Drop)]
pub struct PortStream<S> {
    peer: Node,
    socket: S,
    reported: bool,
    ended: bool,
    splitter: Splitter,
    waiting: MessageQueue,
}

impl<S: Drop> PortStream<S> {
    /// A new stream. Takes no memory.
    pub fn begin(alloc: Global, peer: Node, socket: S) -> Self
        ensures { result ≡ begun peer socket }
    {
        PortStream {
            peer,
            socket,
            reported: false,
            ended: false,
            splitter: Splitter::new(alloc),
            waiting: MessageQueue::none(alloc),
        }
    }

    /// The socket of the stream.
    pub fn socket(&self) -> &S
        ensures { result.now ≡ self.now.socket }
    {
        &self.socket
    }

    /// Whether bytes are to be read: the opening was reported, the stream has not ended, and no message waits.
    pub fn takes_bytes(&self) -> bool
        ensures { result ≡ takes_bytes self.now }
    {
        self.reported && !self.ended && self.waiting.is_empty()
    }

    /// Receives bytes of the stream. A stream that takes none drops them. The only fault is a refused allocation: the
    /// bytes are lost, so the stream ends.
    pub fn receive(&mut self, piece: &[u8]) -> Result<(), OutOfMemory>
        ensures received { OnOk result (ReceivesBytes (takes_bytes self.old) self.old piece.now self.new) }
        ensures err { OnErr result (self.new ≡ ended self.old) }
    {
        if !self.takes_bytes() {
            return Ok(());
        }
        match self.splitter.feed(piece) {
            Ok(messages) => {
                self.waiting = MessageQueue::of(messages);
                Ok(())
            }
            Err(SplitFault::TooLong) => {
                self.ended = true;
                Ok(())
            }
            Err(SplitFault::OutOfMemory) => {
                self.ended = true;
                Err(OutOfMemory)
            }
        }
    }

    /// Whether the stream has ended.
    pub fn has_ended(&self) -> bool
        ensures { result ≡ self.now.ended }
    {
        self.ended
    }

    /// Marks the stream as ended. Takes no memory.
    pub fn end(&mut self)
        ensures { self.new ≡ ended self.old }
    {
        self.ended = true;
    }

    /// The next arrival of the stream of this number, and the stream after it: first its opening, then its messages, last
    /// its end. Takes no memory.
    pub fn next(mut self, number: u16) -> (Option<Arrival>, Option<Self>)
        ensures given { result.0 ≡ given_of number self }
        ensures left { result.1 ≡ left_of self }
    {
        if !self.reported {
            let peer = self.peer;
            self.reported = true;
            let opened = Arrival::Opened {
                stream: number,
                peer,
            };
            return (Some(opened), Some(self));
        }
        if let Some(bytes) = self.waiting.pop() {
            let frame = Arrival::Frame {
                stream: number,
                bytes,
            };
            return (Some(frame), Some(self));
        }
        if self.ended {
            return (Some(Arrival::Cut { stream: number }), None);
        }
        (None, Some(self))
    }
}

impl<S: Write + Drop> PortStream<S> {
    /// Sends a message. A stream that does not take all of it at once ends, so that no message follows one that was
    /// written in part. A stream that has ended drops it. Takes no memory.
    pub fn send(&mut self, message: &[u8])
        ensures { Sends S.contents self.old.ended self.old message.now self.new }
    {
        if self.ended {
            return;
        }
        if !write_message(&mut self.socket, message) {
            self.ended = true;
        }
    }
}
