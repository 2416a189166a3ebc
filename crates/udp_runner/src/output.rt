//! Outputs of a port.

ghost use Rattle.std.specs.Prelude.{◌≡◌, IfOk};
ghost use Rattle.udp_runner.specs.Outputs.{view_output};

use cip_types::{Items, Node, OutOfMemory};
use std::alloc::Global;

/// One output of a port. Its bytes are borrowed.
#[derive(Clone, Copy)]
pub enum Output<'a> {
    /// A message over a stream.
    Frame { stream: u16, bytes: &'a [u8] },
    /// A class 1 datagram to one node.
    Datagram { node: Node, bytes: &'a [u8] },
    /// The end of a stream. Its number is free again.
    Close { stream: u16 },
    /// The reply to the last inquiry of a peer, to where that came from.
    Reply { peer: Node, bytes: &'a [u8] },
}

/// One output that was sent over a port, with bytes of its own.
#[derive(PartialEq, Drop)]
pub enum SentOutput {
    /// A message over a stream.
    Frame { stream: u16, bytes: Items<u8> },
    /// A class 1 datagram to one node.
    Datagram { node: Node, bytes: Items<u8> },
    /// The end of a stream.
    Close { stream: u16 },
    /// The reply to an inquiry of a peer.
    Reply { peer: Node, bytes: Items<u8> },
}

impl Output<'_> {
    /// The same with bytes of its own.
    pub fn copy(&self, alloc: Global) -> Result<SentOutput, OutOfMemory>
        ensures { IfOk result (λ sent. sent ≡ view_output self.now) }
    {
        Ok(match self {
            Output::Frame { stream, bytes } => SentOutput::Frame {
                stream: *stream,
                bytes: Items::copy_of(alloc, bytes)?,
            },
            Output::Datagram { node, bytes } => SentOutput::Datagram {
                node: *node,
                bytes: Items::copy_of(alloc, bytes)?,
            },
            Output::Close { stream } => SentOutput::Close { stream: *stream },
            Output::Reply { peer, bytes } => SentOutput::Reply {
                peer: *peer,
                bytes: Items::copy_of(alloc, bytes)?,
            },
        })
    }
}
