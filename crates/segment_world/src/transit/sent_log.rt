//! A log of sent datagrams, each with its sender's node, in order. Their bytes share one buffer, so memory grows only
//! with the bytes that were sent.

ghost use Rattle.std.specs.Prelude.{◌≡◌, ◌≤◌, ◌<◌, ◌++◌, ◌∷◌, [], ◌+◌, length, slice_get, slice_range, IsOk, OnOk, OnErr};
ghost use Rattle.std.specs.Option.{option_map};

use cip_types::{Node, OutOfMemory};
use std::alloc::Global;
use std::marker::Model;

/// The sender of a datagram, and the range of its bytes in the buffer.
#[derive(Clone, Copy)]
struct SentSpan {
    from: Node,
    start: usize,
    end: usize,
}

/// Datagrams in the order of sending. Contracts see their list and the spare capacity.
#[derive(Drop)]
pub struct SentLog {
    spans: Vec<SentSpan>,
    bytes: Vec<u8>,
}

impl Model for SentLog {
    ghost use Rattle.std.specs.Prelude.{◌-◌, length};
    ghost use Rattle.std.specs.Vec.{vec_len, vec_capacity};
    ghost use Rattle.segment_world.specs.Transit.Log.{Log};

    ghost Value = { Log };

    ghost use Rattle.segment_world.specs.Transit.Spans.{sent_in, AreWithin};

    ghost view = { λ l. record {
      sent = sent_in l.bytes.items l.spans.items;
      texts = vec_capacity l.spans - vec_len l.spans;
      bytes = vec_capacity l.bytes - vec_len l.bytes;
    } };

    ghost invariant = { λ l. AreWithin (length l.bytes.items) l.spans.items };
}

/// The bytes of a range within the buffer.
fn part<'a>(bytes: &'a [u8], span: &SentSpan) -> &'a [u8]
    requires start { span.now.start ≤ span.now.end }
    requires end { span.now.end ≤ length bytes.now }
    ensures { result.now ≡ slice_range bytes.now span.now.start span.now.end }
{
    &bytes[span.start..span.end]
}

impl SentLog {
    /// An empty log. Takes no memory.
    pub fn new(alloc: Global) -> SentLog
        ensures { result.sent ≡ [] }
    {
        SentLog {
            spans: Vec::new(alloc),
            bytes: Vec::new(alloc),
        }
    }

    /// The number of sent datagrams.
    pub fn len(&self) -> usize
        ensures { result ≡ length self.now.sent }
    {
        self.spans.len()
    }

    /// The sender's node and the bytes of the datagram of this index.
    pub fn get(&self, index: usize) -> Option<(Node, &[u8])>
        ensures { option_map (λ found. record { from = found.0; bytes = found.1.now }) result
            ≡ slice_get self.now.sent index }
    {
        let span = self.spans.get(index)?;
        Some((span.from, part(&self.bytes, span)))
    }

    /// Reserves capacity for this number of further datagrams and of their bytes in all. OutOfMemory is the only
    /// fault. The datagrams are the same in either case.
    pub fn reserve(&mut self, texts: usize, bytes: usize) -> Result<(), OutOfMemory>
        ensures sent { self.new.sent ≡ self.old.sent }
        ensures texts { OnOk result (texts ≤ self.new.texts) }
        ensures bytes { OnOk result (bytes ≤ self.new.bytes) }
    {
        self.spans.reserve(texts)?;
        self.bytes.reserve(bytes)?;
        Ok(())
    }

    /// Appends a datagram. Takes no memory within the reserved capacity, and no more of it than the datagram needs.
    /// `OutOfMemory` is the only error. It comes only beyond that capacity, and leaves the datagrams as they were.
    pub fn push(&mut self, from: Node, bytes: &[u8]) -> Result<(), OutOfMemory>
        ensures sent { OnOk result
            (self.new.sent ≡ self.old.sent ++ (record { from = from; bytes = bytes.now }) ∷ []) }
        ensures kept { OnErr result (self.new.sent ≡ self.old.sent) }
        ensures room { 0 < self.old.texts → length bytes.now ≤ self.old.bytes → IsOk result }
        ensures texts { self.old.texts ≤ self.new.texts + 1 }
        ensures bytes { self.old.bytes ≤ self.new.bytes + length bytes.now }
    {
        self.spans.reserve(1)?;
        let start = self.bytes.len();
        self.bytes.extend_from_slice(bytes)?;
        let end = self.bytes.len();
        self.spans.push_reserved(SentSpan { from, start, end });
        Ok(())
    }
}
