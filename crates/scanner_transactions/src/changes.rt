//! A change of one slot, and a request whose reply it waits for.

ghost use Rattle.std.specs.Prelude.{◌≡◌, ◌++◌, ◌∷◌, ◌<◌, ◌≤◌, ◌^◌, [], None, length, slice_set, slice_get, IfOk, OnOk, OnErr};
ghost use Rattle.std.specs.Option.{ForSome, option_map};
ghost use Rattle.scanner_table.specs.Effects.{state_notices};
ghost use Rattle.scanner_table.specs.Slots.{slot_at};
ghost use Rattle.scanner_slots.specs.Views.{view_slot};
ghost use Rattle.scanner_transactions.specs.Transactions.{view_transaction, after_at, with_change, with_frame, with_request, listed, slot_changed};
ghost use Rattle.scanner_transactions.specs.Undoing.{Performs, kept_slot};

use crate::transaction::Transaction;
use crate::undo::SlotBefore;
use cip_events::{Frame, Notice};
use cip_types::{Ms, OutOfMemory};
use scanner_slots::{SlotView, number_of, slot_at};
use scanner_table::{Slot, SlotState};

/// The new state of a slot, whether its connection is desired, and its retry time.
#[derive(Clone, Copy)]
pub(crate) struct SlotChange {
    pub state: SlotState,
    pub desired_up: bool,
    pub retry_at: Ms,
}

/// Changes the slot of a number. Keeps what the slot held.
pub(crate) fn change_slot(
    slots: &mut Vec<Slot>,
    kept: &mut Vec<SlotBefore>,
    number: u32,
    slot_change: SlotChange,
) -> Result<(), OutOfMemory>
    requires { number < length slots.old.items }
    ensures slot { OnOk result
        (ForSome (slice_get slots.old.items number)
        (λ slot. slots.new.items ≡ slice_set slots.old.items number (with_change slot_change slot))) }
    ensures before { OnOk result
        (ForSome (slice_get slots.old.items number)
        (λ slot. kept.new.items ≡ kept.old.items ++ kept_slot number slot ∷ [])) }
    ensures same { OnErr result (slots.new.items ≡ slots.old.items) }
    ensures none { OnErr result (kept.new.items ≡ kept.old.items) }
{
    kept.reserve(1)?;
    let slot = &mut slots[number as usize];
    let before = SlotBefore {
        number,
        state: slot.state,
        desired_up: slot.desired_up,
        retry_at: slot.retry_at,
        image: None,
    };
    slot.state = slot_change.state;
    slot.desired_up = slot_change.desired_up;
    slot.retry_at = slot_change.retry_at;
    kept.push_reserved(before);
    Ok(())
}

/// Adds a notice, if there is one, and then a notice of the slot's new state, if its number changes.
pub(crate) fn report(
    notices: &mut Vec<Notice>,
    reported: Option<Notice>,
    number: u32,
    old: &SlotState,
    new: &SlotState,
) -> Result<(), OutOfMemory>
    ensures { IfOk result
        (λ _. notices.new.items ≡ notices.old.items ++ (listed reported ++ state_notices number old.now new.now)) }
{
    if let Some(notice) = reported {
        notices.push(notice)?;
    }
    let state = number_of(new);
    if number_of(old) != state {
        notices.push(Notice::Slot(number, state))?;
    }
    Ok(())
}

impl Transaction<'_> {
    /// Returns the slot of a number, if there is one. Takes no memory.
    pub fn find(&self, number: u32) -> Option<SlotView<'_>>
        ensures found { option_map view_slot result ≡ slot_at (view_transaction self.now).table number }
    {
        slot_at(self.profile.slots.as_slice(), &self.scanner.slots, number)
    }

    /// Changes a slot, and adds the notices of the change. A number that no slot has changes nothing.
    pub(crate) fn change(
        &mut self,
        number: u32,
        slot_change: SlotChange,
        reported: Option<Notice>,
    ) -> Result<(), OutOfMemory>
        ensures { Performs (after_at (slot_changed slot_change reported) number) self.old result self.new }
    {
        let Some(indexed) = self.find(number) else {
            return Ok(());
        };
        let old = indexed.slot.state;
        report(
            &mut self.notices,
            reported,
            number,
            &old,
            &slot_change.state,
        )?;
        change_slot(
            &mut self.scanner.slots,
            &mut self.undo.slots,
            number,
            slot_change,
        )?;
        Ok(())
    }

    /// Sends a frame that no slot waits for the reply to.
    pub(crate) fn send_frame(&mut self, frame: Frame) -> Result<(), OutOfMemory>
        ensures { Performs (with_frame frame) self.old result self.new }
    {
        self.frames.push(frame)?;
        Ok(())
    }

    /// Sends the next request, and changes the slot that waits for its reply.
    pub(crate) fn send_request(
        &mut self,
        number: u32,
        frame: Frame,
        slot_change: SlotChange,
    ) -> Result<(), OutOfMemory>
        requires left { self.old.scanner.next_request ≤ 2 ^ 48 }
        ensures { Performs (λ so_far. after_at (slot_changed slot_change None) number (with_request frame so_far))
            self.old result self.new }
    {
        self.frames.push(frame)?;
        self.scanner.next_request += 1;
        self.change(number, slot_change, None)
    }
}
