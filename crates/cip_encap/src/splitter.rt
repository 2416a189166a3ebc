//! The splitting of a stream of bytes into messages.

ghost use Rattle.std.specs.Prelude.{◌≡◌, ◌↔◌, ◌+◌, ◌<◌, ◌≤◌, ◌⊎◌, ℕ, [], ◌++◌, length, drop, slice_index, IsTrue, IfOk, OnErr, MatchOption, Err};
ghost use Rattle.cip_encap.specs.Stream.{IsShortMessage, BeginsNoMessage, AreMessages, AreOnlyMessages, GoOn, length_field, IsTooLong, EndsTooLong};
ghost use Rattle.cip_encap.specs.declared.splitter.SplitFault.TheVariants.{OutOfMemory as Memory};

use crate::write::HEADER_LEN;
use cip_types::limits::LONGEST_MESSAGE;
use cip_types::{Items, OutOfMemory};
use std::alloc::Global;
use std::marker::Model;
use thiserror::Error;

/// All bytes of one message.
pub type Message = Items<u8>;

/// The fault of a piece of a stream. `TooLong` precedes `OutOfMemory`.
#[derive(Clone, Copy, Debug, PartialEq, Eq, Error)]
pub enum SplitFault {
    /// A message has a length field above 2,048.
    #[error("a message is too long")]
    TooLong,
    /// An allocation was refused.
    #[error("out of memory")]
    OutOfMemory,
}

impl From<OutOfMemory> for SplitFault {
    ghost from_gives = { λ _ e. e ≡ Memory };

    fn from(_refused: OutOfMemory) -> SplitFault {
        SplitFault::OutOfMemory
    }
}

/// The byte at a position of two slices, one after the other.
fn byte_at(kept: &[u8], piece: &[u8], at: usize) -> u8
    requires { at < length kept.now + length piece.now }
    ensures { result ≡ slice_index (kept.now ++ piece.now) at }
{
    if at < kept.len() {
        kept[at]
    } else {
        piece[at - kept.len()]
    }
}

/// The length field of the message at a position of two slices, one after the other.
fn len_at(kept: &[u8], piece: &[u8], at: usize) -> usize
    requires { at + 4 ≤ length kept.now + length piece.now }
    ensures value { result ≡ length_field (drop at (kept.now ++ piece.now)) }
    ensures bound { result < 65536 }
{
    byte_at(kept, piece, at + 2) as usize + 256 * byte_at(kept, piece, at + 3) as usize
}

/// Whether the length field after the whole messages of two slices, one after the other, is too large.
fn is_too_long(kept: &[u8], piece: &[u8]) -> bool
    ensures { IsTrue result ↔ EndsTooLong (kept.now ++ piece.now) }
{
    let total = kept.len() + piece.len();
    let mut at = 0;
    while total - at >= 4 {
        let len = len_at(kept, piece, at);
        if len > LONGEST_MESSAGE {
            return true;
        }
        if total - at < HEADER_LEN + len {
            return false;
        }
        at += HEADER_LEN + len;
    }
    false
}

/// The message at the front, and the bytes after it.
fn front(bytes: &[u8]) -> Option<(&[u8], &[u8])>
    ensures { MatchOption result (BeginsNoMessage bytes.now)
        (λ x. IsShortMessage x.0.now × (bytes.now ≡ x.0.now ++ x.1.now)) }
{
    if bytes.len() < HEADER_LEN {
        return None;
    }
    let len = bytes[2] as usize + 256 * bytes[3] as usize;
    if len > LONGEST_MESSAGE || bytes.len() < HEADER_LEN + len {
        return None;
    }
    Some(bytes.split_at(HEADER_LEN + len))
}

/// The messages of a stream, and the bytes after the last whole one.
fn messages_of(alloc: Global, stream: &[u8]) -> Result<(Vec<Message>, Vec<u8>), OutOfMemory>
    ensures messages { IfOk result (λ x. AreMessages stream.now x.0.items x.1.items) }
    ensures small { IfOk result (λ x. IsTooLong x.1.items ⊎ (length x.1.items < 24 + 2048)) }
{
    let mut messages = Vec::new(alloc);
    let mut rest = stream;
    while let Some((text, after)) = front(rest) {
        messages.push(Items::copy_of(alloc, text)?)?;
        rest = after;
    }
    let rest = Vec::from_slice(alloc, rest)?;
    Ok((messages, rest))
}

/// The messages of two slices, one after the other, and the bytes after the last whole one.
fn parts(alloc: Global, kept: &[u8], piece: &[u8]) -> Result<(Vec<Message>, Vec<u8>), OutOfMemory>
    ensures messages { IfOk result (λ x. AreMessages (kept.now ++ piece.now) x.0.items x.1.items) }
    ensures small { IfOk result (λ x. IsTooLong x.1.items ⊎ (length x.1.items < 24 + 2048)) }
{
    if kept.is_empty() {
        return messages_of(alloc, piece);
    }
    let mut stream = Vec::with_capacity(alloc, kept.len() + piece.len())?;
    stream.extend_from_slice(kept)?;
    stream.extend_from_slice(piece)?;
    messages_of(alloc, stream.as_slice())
}

/// Whether two slices, one after the other, begin with no whole message.
fn begins_none(kept: &[u8], piece: &[u8]) -> bool
    ensures none { IsTrue result → BeginsNoMessage (kept.now ++ piece.now) }
    ensures small { IsTrue result → IsTooLong (kept.now ++ piece.now) ⊎ (length (kept.now ++ piece.now) < 24 + 2048) }
{
    let total = kept.len() + piece.len();
    if total < HEADER_LEN {
        return true;
    }
    total < HEADER_LEN + len_at(kept, piece, 0)
}

/// The messages that end in the next piece. The bytes after the last whole one are kept: a piece that ends none is
/// appended in place.
fn split(alloc: Global, kept: &mut Vec<u8>, piece: &[u8]) -> Result<Vec<Message>, OutOfMemory>
    ensures messages { IfOk result
        (λ messages. AreMessages (kept.old.items ++ piece.now) messages.items kept.new.items) }
    ensures small { IfOk result (λ _. IsTooLong kept.new.items ⊎ (length kept.new.items < 24 + 2048)) }
    ensures err { OnErr result (kept.new.items ≡ kept.old.items) }
{
    if begins_none(kept.as_slice(), piece) {
        kept.extend_from_slice(piece)?;
        return Ok(Vec::new(alloc));
    }
    let (messages, rest) = parts(alloc, kept.as_slice(), piece)?;
    *kept = rest;
    Ok(messages)
}

/// Splits a stream into messages, whatever its pieces. It keeps the bytes after the last whole message, and
/// contracts see it as these bytes.
#[derive(Drop)]
pub struct Splitter {
    kept: Vec<u8>,
}

impl Model for Splitter {
    ghost use Rattle.std.specs.Prelude.{List, ℕ};

    ghost Value = { List ℕ };

    ghost view = { λ s. s.kept.items };
}

impl Splitter {
    /// A splitter at the beginning of a stream. Takes no memory.
    pub fn new(alloc: Global) -> Self
        ensures empty { result ≡ [] }
        ensures begins { AreMessages [] [] result }
    {
        Splitter {
            kept: Vec::new(alloc),
        }
    }

    /// The messages that end in the next piece of the stream, in their order.
    ///
    /// `TooLong` where the length field after the last whole message is above 2,048, even before that header
    /// is complete; then `OutOfMemory`. Either leaves the splitter unchanged.
    pub fn feed(&mut self, piece: &[u8]) -> Result<Vec<Message>, SplitFault>
        // The kept bytes and the piece are these messages and the bytes that are kept now.
        ensures messages { IfOk result (λ messages. AreMessages (self.old ++ piece.now) messages.items self.new) }
        // No other messages are in these bytes.
        ensures only { IfOk result (λ messages. AreOnlyMessages (self.old ++ piece.now) messages.items self.new) }
        // Whatever the pieces: they continue the messages of the stream so far.
        ensures goes_on { IfOk result (λ messages. GoOn self.old piece.now messages.items self.new) }
        // A hostile stream cannot make it keep more than one message's bytes.
        ensures small { IfOk result (λ _. length self.new < 24 + 2048) }
        ensures too_long { (result ≡ Err SplitFault.TooLong) ↔ EndsTooLong (self.old ++ piece.now) }
        ensures err { OnErr result (self.new ≡ self.old) }
    {
        if is_too_long(self.kept.as_slice(), piece) {
            return Err(SplitFault::TooLong);
        }
        let alloc = *self.kept.allocator();
        let messages = split(alloc, &mut self.kept, piece)?;
        Ok(messages)
    }
}
