//! What a transaction changed, as it was before.

ghost use Rattle.std.specs.Prelude.{◌≡◌, ◌<◌, Some, OnOk, OnErr, length, slice_get, slice_set, unwrap_or};
ghost use Rattle.std.specs.Option.{ForSome};
ghost use Rattle.scanner_transactions.specs.Undoing.{slot_before, undone_slots, state_of, state_before};

use crate::transaction::Transaction;
use cip_types::{Items, Ms, OutOfMemory};
use scanner_slots::ScannerState;
use scanner_table::{PendingExplicit, Slot, SlotState, TargetStream};
use std::alloc::Global;

/// What a slot held before a change. Its output never changes in a transaction.
#[derive(Drop)]
pub(crate) struct SlotBefore {
    /// The number of the slot.
    pub number: u32,
    /// Its state.
    pub state: SlotState,
    /// Whether its connection was desired.
    pub desired_up: bool,
    /// Its retry time.
    pub retry_at: Ms,
    /// Its image, if the change replaced it.
    pub image: Option<Items<u8>>,
}

/// What a transaction needs to go back to its beginning.
#[derive(Drop)]
pub(crate) struct Undo {
    /// What the changed slots held, in the order of the changes.
    pub slots: Vec<SlotBefore>,
    /// The streams, if the transaction changed one.
    pub streams: Option<Items<TargetStream>>,
    /// The explicit requests, if the transaction ended one.
    pub explicit: Option<Items<PendingExplicit>>,
    /// The clock.
    pub clock: Ms,
    /// The number of the next connection id.
    pub next_id: u32,
    /// The next serial number.
    pub next_serial: u16,
    /// The number of the next request.
    pub next_request: u64,
}

/// Keeps a list before its first change.
pub(crate) fn keep_list<T: Copy>(
    alloc: Global,
    kept: &mut Option<Items<T>>,
    list: &[T],
) -> Result<(), OutOfMemory>
    ensures ok { OnOk result (kept.new ≡ Some (unwrap_or kept.old list.now)) }
    ensures err { OnErr result (kept.new ≡ kept.old) }
{
    if kept.is_none() {
        *kept = Some(Items::copy_of(alloc, list)?);
    }
    Ok(())
}

/// Puts back what a slot held. Takes no memory.
fn put_back(slots: &mut Vec<Slot>, before: SlotBefore)
    requires { before.number < length slots.old.items }
    ensures { ForSome (slice_get slots.old.items before.number)
        (λ slot. slots.new.items ≡ slice_set slots.old.items before.number (slot_before before slot)) }
{
    let slot = &mut slots[before.number as usize];
    slot.state = before.state;
    slot.desired_up = before.desired_up;
    slot.retry_at = before.retry_at;
    if let Some(image) = before.image {
        slot.image = image;
    }
}

/// Puts back what the slots held, the last change first. Takes no memory.
fn put_all_back(slots: &mut Vec<Slot>, kept: Vec<SlotBefore>)
    ensures { slots.new.items ≡ undone_slots kept.items slots.old.items }
{
    let mut kept = kept;
    while let Some(before) = kept.pop() {
        if (before.number as usize) < slots.len() {
            put_back(slots, before);
        }
    }
}

fn list_before<T: Copy>(kept: Option<Items<T>>, list: Vec<T>) -> Vec<T>
    ensures { result.items ≡ unwrap_or kept list.items }
{
    match kept {
        Some(kept) => kept.into_vec(),
        None => list,
    }
}

impl Transaction<'_> {
    /// Ends the transaction without its effects: returns the table as it was at the beginning. Takes no memory.
    pub fn undo(self) -> ScannerState
        ensures { state_of result ≡ state_before self.entry }
    {
        let scanner = self.scanner;
        let undo = self.undo;
        let mut slots = scanner.slots;
        put_all_back(&mut slots, undo.slots);
        ScannerState {
            slots,
            run: scanner.run,
            clock: undo.clock,
            ids: scanner.ids,
            next_id: undo.next_id,
            next_serial: undo.next_serial,
            next_request: undo.next_request,
            streams: list_before(undo.streams, scanner.streams),
            explicit: list_before(undo.explicit, scanner.explicit),
        }
    }
}
