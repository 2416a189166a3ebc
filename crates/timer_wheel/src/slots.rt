//! The keys in each slot, and a mark for each slot that is not empty.

ghost use Rattle.std.specs.Prelude.{◌≡◌, ◌≢◌, ℕ, ◌+◌, ◌<◌, ◌≤◌, length, Some, None, IfOk, IfSome, IfNone};
ghost use Rattle.futures.specs.LinkedLists.{items, list_of, key_limit, IsEmpty, Moves};
ghost use Rattle.timer_wheel.specs.Marks.{AllEmpty, AllFree};

use crate::timer::FREE;
use cip_types::OutOfMemory;
use futures::util::linked_list::LinkedLists;
use std::alloc::Global;
use std::marker::Model;

// The number of words with a bit for each list.
const WORDS: usize = 13;

/// The list of keys of each slot, and at `FREE` the list of keys without a timer.
#[derive(Drop)]
pub struct Slots {
    lists: LinkedLists,
    // A bit for each list, set if the list is not empty.
    marks: [u64; WORDS],
}

impl Model for Slots {
    ghost use Rattle.futures.specs.LinkedLists.{LinkedLists as Lists, lists_code};
    ghost use Rattle.timer_wheel.specs.Marks.{IsMarked};

    ghost Value = { Lists };

    ghost coded = { lists_code };

    ghost view = { λ s. s.lists };

    ghost invariant = { λ s. IsMarked s.marks s.lists };
}

impl Slots {
    /// This number of keys, all of them free. OutOfMemory is the only fault.
    pub fn new(alloc: Global, keys: usize) -> Result<Self, OutOfMemory>
        ensures { IfOk result (AllFree keys) }
    {
        let mut lists = LinkedLists::new(alloc, FREE + 1)?;
        lists.reserve_key(keys)?;
        for key in 0..keys {
            lists.push_back(FREE, key);
        }
        Ok(Slots {
            lists,
            marks: [0; WORDS],
        })
    }

    /// The first key of a list.
    pub fn front(&self, list: usize) -> Option<usize>
        requires { list ≤ FREE }
        ensures member { IfSome result (λ key. list_of self.now key ≡ Some list) }
        ensures empty { IfNone result (IsEmpty self.now list) }
    {
        self.lists.front(list)
    }

    /// Moves a key from its list to the end of another.
    pub fn put(&mut self, key: usize, list: usize)
        requires list_in { list ≤ FREE }
        requires key_in { key < key_limit self.old }
        ensures moves { Moves self.old self.new key (Some list) }
        ensures shorter { (from : ℕ) → list_of self.old key ≡ Some from → from ≢ list
            → length (items self.new from) + 1 ≡ length (items self.old from) }
    {
        self.lists.unlink(key);
        self.lists.push_back(list, key);
        self.marks[list / 64] |= 1 << (list % 64);
    }

    /// The first marked slot from `from` up to `to`. All slots before it are empty.
    pub fn next(&self, from: usize, to: usize) -> Option<usize>
        requires { to ≤ FREE }
        ensures start { IfSome result (λ slot. from ≤ slot) }
        ensures end { IfSome result (λ slot. slot < to) }
        ensures passed { IfSome result (AllEmpty self.now from) }
        ensures none { IfNone result (AllEmpty self.now from to) }
    {
        let mut at = from;
        while at < to {
            let word = self.marks[at / 64] >> (at % 64);
            if word != 0 {
                let slot = at + word.trailing_zeros() as usize;
                return if slot < to { Some(slot) } else { None };
            }
            at = (at / 64 + 1) * 64;
        }
        None
    }

    /// Clears the mark of an empty slot.
    pub fn unmark(&mut self, slot: usize)
        requires slot_in { slot < FREE }
        requires empty { IsEmpty self.old slot }
        ensures { self.new ≡ self.old }
    {
        self.marks[slot / 64] &= !(1 << (slot % 64));
    }
}
