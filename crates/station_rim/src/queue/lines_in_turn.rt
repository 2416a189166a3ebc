//! A queue of pieces of text with a bound.

ghost use Rattle.std.specs.Prelude.{◌≡◌, ◌↔◌, false, true, IfErr, OnOk, OnErr};
ghost use Rattle.station_rim.specs.Queue.Queues.{Queue, empty_queue, first_piece, has_room, is_empty, with_pushed, without_first};
ghost use Rattle.station_rim.specs.declared.queue.lines_in_turn.PushFault.TheVariants.{Full};

use cip_types::Items;
use std::alloc::Global;
use std::collections::VecDeque;
use std::marker::Model;

/// Why a queue does not take a piece. It is unchanged.
#[derive(Clone, Copy, PartialEq, Eq)]
pub enum PushFault {
    /// The piece does not fit.
    Full,
    /// An allocation was refused.
    OutOfMemory,
}

/// Whole pieces of text in order, at most so many, with at most so many bytes together.
#[derive(Drop)]
pub struct LineQueue {
    alloc: Global,
    pieces: VecDeque<Items<u8>>,
    free_bytes: usize,
    free_pieces: usize,
}

impl Model for LineQueue {
    ghost use Rattle.station_rim.specs.Queue.Queues.{Queue};

    ghost Value = { Queue };

    ghost view = { λ q. record { pieces = q.pieces.items; free_bytes = q.free_bytes; free_pieces = q.free_pieces } };
}

impl LineQueue {
    /// A queue of at most so many bytes and so many pieces. Takes no memory.
    pub fn new(alloc: Global, most_bytes: usize, most_pieces: usize) -> LineQueue
        ensures { result ≡ empty_queue most_bytes most_pieces }
    {
        LineQueue {
            alloc,
            pieces: VecDeque::new(alloc),
            free_bytes: most_bytes,
            free_pieces: most_pieces,
        }
    }

    /// Whether it has no piece.
    pub fn is_empty(&self) -> bool
        ensures { result ≡ is_empty self.now }
    {
        self.pieces.is_empty()
    }

    /// How many bytes more it may take.
    pub fn free_bytes(&self) -> usize
        ensures { result ≡ self.now.free_bytes }
    {
        self.free_bytes
    }

    /// Appends a whole piece, or nothing.
    ///
    /// The faults, in order: `Full` exactly if the piece does not fit, `OutOfMemory`.
    pub fn push(&mut self, piece: &[u8]) -> Result<(), PushFault>
        ensures pushed { OnOk result (self.new ≡ with_pushed self.old piece.now) }
        ensures fitted { OnOk result (has_room self.old piece.now ≡ true) }
        ensures kept { OnErr result (self.new ≡ self.old) }
        ensures full { IfErr result (λ fault. (fault ≡ Full) ↔ (has_room self.old piece.now ≡ false)) }
    {
        if self.free_pieces == 0 || self.free_bytes < piece.len() {
            return Err(PushFault::Full);
        }
        let Ok(copy) = Items::copy_of(self.alloc, piece) else {
            return Err(PushFault::OutOfMemory);
        };
        if self.pieces.push_back(copy).is_err() {
            return Err(PushFault::OutOfMemory);
        }
        self.free_pieces -= 1;
        self.free_bytes -= piece.len();
        Ok(())
    }

    /// Takes the oldest piece out.
    pub fn pop(&mut self) -> Option<Items<u8>>
        ensures first { result ≡ first_piece self.old }
        ensures rest { self.new ≡ without_first self.old }
    {
        let piece = self.pieces.pop_front()?;
        self.free_pieces = self.free_pieces.saturating_add(1);
        self.free_bytes = self.free_bytes.saturating_add(piece.as_slice().len());
        Some(piece)
    }
}
