//! Queued frames.

ghost use Rattle.std.specs.Prelude.{◌≡◌, ◌≤◌, filter};
ghost use Rattle.std.specs.List.{position};
ghost use Rattle.segment_world.specs.Transit.Queues.{is_same, is_in, is_elsewhere};
ghost use Rattle.std.specs.Vec.{vec_len, vec_capacity};

use crate::transit::direction::Direction;
use cip_types::Items;

/// A queued frame.
#[derive(Drop)]
pub struct QueuedFrame {
    /// The number of the stream.
    pub stream: u16,
    /// The direction in which the frame goes.
    pub direction: Direction,
    /// The bytes of the frame.
    pub bytes: Items<u8>,
}

fn is_same(one: Direction, other: Direction) -> bool
    ensures { result ≡ is_same one other }
{
    match (one, other) {
        (Direction::Forth, Direction::Forth) => true,
        (Direction::Forth, Direction::Back) => false,
        (Direction::Back, Direction::Forth) => false,
        (Direction::Back, Direction::Back) => true,
    }
}

fn is_in(waiting: &QueuedFrame, number: u16, direction: Direction) -> bool
    ensures { result ≡ is_in number direction waiting.now }
{
    waiting.stream == number && is_same(waiting.direction, direction)
}

/// Returns the index of the first frame that waits in a direction of a stream.
pub fn first(waiting: &[QueuedFrame], number: u16, direction: Direction) -> Option<usize>
    ensures { result ≡ position (is_in number direction) waiting.now }
{
    waiting
        .iter()
        .position(|waiting| is_in(waiting, number, direction))
}

/// Drops all frames that wait on a stream. Takes no memory.
pub fn drop_frames(waiting: &mut Vec<QueuedFrame>, number: u16)
    ensures items { waiting.new.items ≡ filter (is_elsewhere number) waiting.old.items }
    ensures len { vec_len waiting.new ≤ vec_len waiting.old }
    ensures capacity { vec_capacity waiting.new ≡ vec_capacity waiting.old }
{
    waiting.retain(|waiting| waiting.stream != number);
}
