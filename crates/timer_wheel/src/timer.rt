//! Timers, and the slots of their deadlines.

ghost use Rattle.std.specs.Prelude.{◌≡◌};
ghost use Rattle.timer_wheel.specs.Levels as spec;

use crate::Token;

/// A deadline, in milliseconds, and its token.
#[derive(Clone, Copy, PartialEq, Eq, PartialOrd, Ord)]
pub struct Timer {
    pub deadline: u64,
    pub token: Token,
}

/// The list of the keys without a timer, after those of the slots.
pub const FREE: usize = 768;

/// The slot of a deadline: in the lowest level where it shares the block of `now`.
#[tactic(auto, unfolding(crate::specs::Levels::slot_of))]
pub fn slot_of(deadline: u64, now: u64) -> usize
    ensures { result ≡ spec.slot_of deadline now }
{
    let slot = if deadline / 256 == now / 256 {
        deadline % 256
    } else if deadline / 65536 == now / 65536 {
        256 + deadline / 256 % 256
    } else {
        512 + deadline / 65536 % 256
    };
    slot as usize
}
