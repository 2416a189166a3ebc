//! The slots between two times.

ghost use Rattle.std.specs.Prelude.{◌≡◌, ◌+◌, ◌<◌, ◌≤◌, vec_len, vec_capacity};
ghost use Rattle.timer_wheel.specs.Layout.{IsLaidOut, IsPlaced, IsAt, MovesDown, TakesDue, Clears, timer_count};

use crate::slots::Slots;
use crate::timer::{FREE, Timer, slot_of};

/// A step of time.
#[derive(Clone, Copy)]
pub struct Step {
    pub before: u64,
    pub now: u64,
}

// Empties a slot: its due timers are removed, and the others move to their slots at the new time.
fn empty(
    slots: &mut Slots,
    timers: &mut [Option<Timer>],
    due: &mut Vec<Timer>,
    step: Step,
    slot: usize,
)
    requires slot_in { slot < 768 }
    requires laid_out { IsLaidOut (IsAt step.before step.now slot) slots.old timers.old }
    requires moves_down { MovesDown step.before step.now slot (slot + 1) }
    requires spare { vec_len due.old + timer_count timers.old ≤ vec_capacity due.old }
    ensures laid_out { IsLaidOut (IsAt step.before step.now (slot + 1)) slots.new timers.new }
    ensures taken { TakesDue step.now due.old.items due.new.items timers.old timers.new }
    ensures cleared { Clears timers.old timers.new }
    ensures count { vec_len due.new + timer_count timers.new ≡ vec_len due.old + timer_count timers.old }
    ensures capacity { vec_capacity due.new ≡ vec_capacity due.old }
{
    while let Some(key) = slots.front(slot) {
        // A key in the list of a slot has a timer.
        let timer = timers[key].unwrap();
        if timer.deadline <= step.now {
            due.push_reserved(timer);
            timers[key] = None;
            slots.put(key, FREE);
        } else {
            slots.put(key, slot_of(timer.deadline, step.now));
        }
    }
    slots.unmark(slot);
}

// Empties the slots from `from` up to `to`.
fn empty_all(
    slots: &mut Slots,
    timers: &mut [Option<Timer>],
    due: &mut Vec<Timer>,
    step: Step,
    from: usize,
    to: usize,
)
    requires slots_in { to ≤ 768 }
    requires in_order { from ≤ to }
    requires laid_out { IsLaidOut (IsAt step.before step.now from) slots.old timers.old }
    requires moves_down { MovesDown step.before step.now from to }
    requires spare { vec_len due.old + timer_count timers.old ≤ vec_capacity due.old }
    ensures laid_out { IsLaidOut (IsAt step.before step.now to) slots.new timers.new }
    ensures taken { TakesDue step.now due.old.items due.new.items timers.old timers.new }
    ensures cleared { Clears timers.old timers.new }
    ensures count { vec_len due.new + timer_count timers.new ≡ vec_len due.old + timer_count timers.old }
    ensures capacity { vec_capacity due.new ≡ vec_capacity due.old }
{
    let mut at = from;
    while let Some(slot) = slots.next(at, to) {
        empty(slots, timers, due, step, slot);
        at = slot + 1;
    }
}

/// Empties the slots between the two times of a step of at most 60,000 ms.
pub fn sweep(slots: &mut Slots, timers: &mut [Option<Timer>], due: &mut Vec<Timer>, step: Step)
    requires forward { step.before ≤ step.now }
    requires short { step.now ≤ step.before + 60000 }
    requires laid_out { IsLaidOut (IsPlaced step.before) slots.old timers.old }
    requires spare { vec_len due.old + timer_count timers.old ≤ vec_capacity due.old }
    ensures laid_out { IsLaidOut (IsPlaced step.now) slots.new timers.new }
    ensures taken { TakesDue step.now due.old.items due.new.items timers.old timers.new }
    ensures cleared { Clears timers.old timers.new }
    ensures none_due { IsLaidOut (IsAt step.before step.now 768) slots.new timers.new }
    ensures count { vec_len due.new + timer_count timers.new ≡ vec_len due.old + timer_count timers.old }
    ensures capacity { vec_capacity due.new ≡ vec_capacity due.old }
{
    let Step { before, now } = step;
    let low = (before % 256) as usize;
    let middle = (before / 256 % 256) as usize;
    if before / 256 == now / 256 {
        let to = (now % 256) as usize;
        empty_all(slots, timers, due, step, low, to + 1);
    } else {
        empty_all(slots, timers, due, step, low, 256);
        if before / 65536 == now / 65536 {
            let to = (now / 256 % 256) as usize;
            empty_all(slots, timers, due, step, 257 + middle, 257 + to);
        } else {
            empty_all(slots, timers, due, step, 257 + middle, 512);
            let high = (now / 65536 % 256) as usize;
            empty(slots, timers, due, step, 512 + high);
        }
    }
}
