//! A hierarchical timing wheel: deadlines in milliseconds, in three levels of 256 slots.
#![tactic(auto)]

ghost use Rattle.std.specs.Prelude.{◌≡◌, ◌+◌, ◌^◌, ◌<◌, ◌≤◌, IfOk, IsTrue, ◌↔◌, None, vec_len, vec_capacity};
ghost use Rattle.std.specs.FinMap as map;
ghost use Rattle.timer_wheel.specs.Timers.{Fires, later_than};

mod search;
mod slots;
mod sweep;
mod timer;

use cip_types::OutOfMemory;
use search::{BucketHints, key_of};
use slots::Slots;
use std::alloc::Global;
use std::marker::Model;
use sweep::{Step, sweep};
use timer::{FREE, Timer, slot_of};

/// The name of a timer.
#[derive(Clone, Copy, PartialEq, Eq, PartialOrd, Ord)]
pub struct Token(pub u64);

/// A map from tokens to deadlines, with a clock in milliseconds.
///
/// A slot of the lowest level is a millisecond, and a slot of a higher level is as long as all 256
/// of the level below. Only `new` takes memory.
#[derive(Drop)]
pub struct Wheel {
    clock: u64,
    slots: Slots,
    // The timer of each key.
    timers: Vec<Option<Timer>>,
    // The token of each key that has a timer. The token of any other key has no meaning.
    tokens: Vec<Token>,
    hints: BucketHints,
    // The timers that `advance` removed. Empty between calls.
    due: Vec<Timer>,
}

impl Model for Wheel {
    ghost use Rattle.timer_wheel.specs.Timers.{Timers, timers_code};

    ghost Value = { Timers };

    ghost coded = { timers_code };

    ghost use Rattle.std.specs.Prelude.{length, vec_capacity};
    ghost use Rattle.timer_wheel.specs.Layout.{armed_of, IsSound};

    ghost view = { λ w. record { time = w.clock; capacity = length w.timers.items; armed = armed_of w.timers.items } };

    ghost invariant = { λ w. IsSound w.clock w.slots w.timers.items w.tokens.items w.due.items (vec_capacity w.due) };
}

impl Wheel {
    /// A wheel at time 0 with no token armed, for at most `capacity` tokens. OutOfMemory is the only fault.
    pub fn new(alloc: Global, capacity: usize) -> Result<Self, OutOfMemory>
        ensures { IfOk result (λ w. w ≡ record { time = 0; capacity = capacity; armed = map.empty }) }
    {
        Ok(Wheel {
            clock: 0,
            slots: Slots::new(alloc, capacity)?,
            timers: vec![in alloc; None; capacity]?,
            tokens: vec![in alloc; Token(0); capacity]?,
            hints: BucketHints::new(alloc, capacity)?,
            due: Vec::with_capacity(alloc, capacity)?,
        })
    }

    /// The clock, in milliseconds.
    pub fn now(&self) -> u64
        ensures value { result ≡ self.now.time }
        ensures bound { result ≤ 2 ^ 48 }
    {
        self.clock
    }

    /// The greatest number of armed tokens.
    pub fn capacity(&self) -> usize
        ensures value { result ≡ self.now.capacity }
        ensures bound { map.len self.now.armed ≤ result }
    {
        self.timers.len()
    }

    /// Whether no further token can be armed.
    pub fn is_full(&self) -> bool
        ensures full { IsTrue result ↔ (map.len self.now.armed ≡ self.now.capacity) }
        ensures bound { map.len self.now.armed ≤ self.now.capacity }
    {
        self.slots.front(FREE).is_none()
    }

    /// Arms a token that is not armed, in a wheel that is not full. Its deadline is at or after the clock, and less
    /// than 2^24 ms after it.
    pub fn arm(&mut self, deadline: u64, token: Token)
        requires not_past { self.old.time ≤ deadline }
        requires in_reach { deadline < self.old.time + 2 ^ 24 }
        requires not_armed { map.get self.old.armed token.0 ≡ None }
        requires not_full { map.len self.old.armed < self.old.capacity }
        ensures { self.new ≡ record self.old { armed = map.insert self.old.armed token.0 deadline } }
    {
        // A free key exists, since the wheel is not full.
        let key = self.slots.front(FREE).unwrap();
        self.slots.put(key, slot_of(deadline, self.clock));
        self.timers[key] = Some(Timer { deadline, token });
        self.tokens[key] = token;
        self.hints.note(token, key);
    }

    /// Disarms a token, and answers whether it was armed.
    pub fn disarm(&mut self, token: Token) -> bool
        ensures armed { result ≡ map.contains_key self.old.armed token.0 }
        ensures disarmed { self.new ≡ record self.old { armed = map.remove self.old.armed token.0 } }
        ensures not_armed { map.get self.new.armed token.0 ≡ None }
        ensures not_full { IsTrue result → map.len self.new.armed < self.new.capacity }
    {
        let Some(key) = key_of(&self.timers, &self.tokens, &self.hints, token) else {
            return false;
        };
        self.slots.put(key, FREE);
        self.timers[key] = None;
        true
    }

    /// Advances the clock by at most 60,000 ms, disarms the tokens that are due then, and appends them to `out`, by
    /// deadline and then by token. `out` has the capacity for all armed tokens.
    pub fn advance(&mut self, delta: u32, out: &mut Vec<Token>)
        requires step { delta ≤ 60000 }
        requires end { self.old.time + delta ≤ 2 ^ 48 }
        requires spare { vec_len out.old + map.len self.old.armed ≤ vec_capacity out.old }
        ensures clock { self.new ≡ record self.old {
          time = self.old.time + delta;
          armed = later_than (self.old.time + delta) self.old.armed;
        } }
        ensures fired { Fires self.old.armed (self.old.time + delta) out.old.items out.new.items }
        ensures capacity { vec_capacity out.new ≡ vec_capacity out.old }
    {
        let before = self.clock;
        let now = before + u64::from(delta);
        self.clock = now;
        let step = Step { before, now };
        sweep(&mut self.slots, &mut self.timers, &mut self.due, step);
        self.due.sort_unstable();
        for timer in &self.due {
            out.push_reserved(timer.token);
        }
        self.due.clear();
    }
}
