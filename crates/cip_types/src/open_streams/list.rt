//! Lists of open streams, each with its number.

ghost use Rattle.std.specs.Prelude.{◌≡◌, ◌∷◌, ◌++◌, ◌==◌, not, ℕ, [], IfOk, OnOk, OnErr, filter, find};
ghost use Rattle.std.specs.List.{list_any};

use crate::OutOfMemory;
use std::alloc::Global;

/// A stream, which has a number.
pub trait Numbered {
    ghost number: { Self → ℕ };

    /// The number of the stream.
    fn number(&self) -> u16
        ensures { result ≡ number self.now };
}

/// The stream of a number, if it is open. Takes no memory.
pub fn find_stream<S: Numbered + Copy>(streams: &[S], number: u16) -> Option<S>
    ensures { result ≡ find (λ stream. S.number stream == number) streams.now }
{
    streams
        .iter()
        .copied()
        .find(|stream| stream.number() == number)
}

/// Whether a stream of this number is open. Takes no memory.
pub fn has_stream<S: Numbered>(streams: &[S], number: u16) -> bool
    ensures { result ≡ list_any (λ stream. S.number stream == number) streams.now }
{
    streams.iter().any(|stream| stream.number() == number)
}

/// Appends a stream. Without memory for it the list stays.
pub fn add_stream<S: Copy>(streams: &mut Vec<S>, stream: S) -> Result<(), OutOfMemory>
    ensures ok { OnOk result (streams.new.items ≡ streams.old.items ++ stream ∷ []) }
    ensures err { OnErr result (streams.new.items ≡ streams.old.items) }
{
    streams.push(stream)?;
    Ok(())
}

/// A copy of the streams. Out of memory is the only fault.
pub fn copied_streams<S: Copy>(alloc: Global, streams: &[S]) -> Result<Vec<S>, OutOfMemory>
    ensures { IfOk result (λ copy. copy.items ≡ streams.now) }
{
    Ok(Vec::from_slice(alloc, streams)?)
}

/// Removes the stream of a number, if it is open. Takes no memory.
pub fn drop_stream<S: Numbered + Copy>(streams: &mut Vec<S>, number: u16)
    ensures { streams.new.items ≡ filter (λ stream. not (S.number stream == number)) streams.old.items }
{
    streams.retain(|stream| stream.number() != number);
}
