//! The steps that were typed at a device and wait for it.

ghost use Rattle.std.specs.Prelude.{◌≡◌, ◌∷◌, ◌++◌, [], true, false, drop, nat_lt};
ghost use Rattle.plant_rim.specs.Queues.{next_of};

use station::{LifeEnd, StationStep};
use std::alloc::Global;
use std::collections::VecDeque;

/// A queue takes no step while the texts of those that wait have more bytes.
const MOST_TYPED_BYTES: usize = 60_000;

/// A step that waits, and the bytes of its text.
#[derive(Drop)]
struct WaitingStep {
    step: StationStep,
    bytes: usize,
}

/// The steps that wait, the oldest first, the bytes of their texts, and whether no more come.
#[derive(Drop)]
pub(crate) struct StepQueue {
    waiting: VecDeque<WaitingStep>,
    bytes: usize,
    has_ended: bool,
}

impl StepQueue {
    /// No step waits. Takes no memory.
    pub(crate) fn none(alloc: Global) -> StepQueue
        ensures empty { result.waiting.items ≡ [] }
        ensures open { result.has_ended ≡ false }
    {
        StepQueue {
            waiting: VecDeque::new(alloc),
            bytes: 0,
            has_ended: false,
        }
    }

    /// A step waits, whose text has so many bytes. False if it does not: the queue is full, or there is no memory.
    pub(crate) fn offer(&mut self, step: StationStep, bytes: usize) -> bool
        ensures full { nat_lt 60000 self.old.bytes ≡ true → result ≡ false }
        ensures waits { result ≡ true → self.new.waiting.items
            ≡ self.old.waiting.items ++ (record { step = step; bytes = bytes }) ∷ [] }
        ensures unchanged { result ≡ false → self.new.waiting.items ≡ self.old.waiting.items }
        ensures open { self.new.has_ended ≡ self.old.has_ended }
    {
        if self.bytes > MOST_TYPED_BYTES
            || self.waiting.push_back(WaitingStep { step, bytes }).is_err()
        {
            return false;
        }
        self.bytes = self.bytes.saturating_add(bytes);
        true
    }

    /// No more steps come.
    pub(crate) fn end(&mut self)
        ensures { self.new ≡ record self.old { has_ended = true } }
    {
        self.has_ended = true;
    }

    /// Takes the step that waits longest. Behind the last one the life is over. None if none waits now. Takes no memory.
    pub(crate) fn next(&mut self) -> Option<StationStep>
        ensures given { result ≡ next_of self.old.has_ended self.old.waiting.items }
        ensures left { self.new.waiting.items ≡ drop 1 self.old.waiting.items }
        ensures open { self.new.has_ended ≡ self.old.has_ended }
    {
        match self.waiting.pop_front() {
            Some(WaitingStep { step, bytes }) => {
                self.bytes = self.bytes.saturating_sub(bytes);
                Some(step)
            }
            None => end_if(self.has_ended),
        }
    }
}

/// The end of a life, if no more steps come.
fn end_if(has_ended: bool) -> Option<StationStep>
    ensures { result ≡ next_of has_ended [] }
{
    if has_ended {
        Some(StationStep::End(LifeEnd::Over))
    } else {
        None
    }
}
