//! Replies to a Forward_Open.

ghost use Rattle.std.specs.Prelude.{◌≡◌, ◌<◌, ◌≤◌, ◌++◌, ◌∷◌, [], OnOk, OnErr, length, slice_get, slice_set};
ghost use Rattle.std.specs.Option.{ForSome};
ghost use Rattle.cip_netparams.specs.Rate.{interval_ms};
ghost use Rattle.conn_state.specs.Answers.{link_of};
ghost use Rattle.scanner_table.specs.Encapsulation.{unserved};
ghost use Rattle.scanner_transactions.specs.Transactions.{after_at, answered_by, refused_by, established_by, judged_by, occupied};
ghost use Rattle.scanner_transactions.specs.Undoing.{Performs, kept_with_image};

use crate::changes::{SlotChange, report};
use crate::transaction::Transaction;
use crate::undo::SlotBefore;
use cip_events::{Notice, Reason};
use cip_fwdopen::{OpenAnswer, Opened};
use cip_types::{Items, OutOfMemory};
use conn_state::Link;
use scanner_requests::{later, linked, new_connection};
use scanner_slots::is_id_used;
use scanner_table::{PendingOpen, Slot, SlotState};
use std::mem;

/// Gives the slot of a number its new connection, and these bytes as its image. Keeps what the slot held.
fn occupy(
    slots: &mut Vec<Slot>,
    kept: &mut Vec<SlotBefore>,
    number: u32,
    state: SlotState,
    image: Items<u8>,
) -> Result<(), OutOfMemory>
    requires { number < length slots.old.items }
    ensures slot { OnOk result
        (ForSome (slice_get slots.old.items number)
        (λ slot. slots.new.items ≡ slice_set slots.old.items number (occupied state image slot))) }
    ensures before { OnOk result
        (ForSome (slice_get slots.old.items number)
        (λ slot. kept.new.items ≡ kept.old.items ++ kept_with_image number slot ∷ [])) }
    ensures same { OnErr result (slots.new.items ≡ slots.old.items) }
    ensures none { OnErr result (kept.new.items ≡ kept.old.items) }
{
    kept.reserve(1)?;
    let slot = &mut slots[number as usize];
    let before = SlotBefore {
        number,
        state: slot.state,
        desired_up: slot.desired_up,
        retry_at: slot.retry_at,
        image: Some(mem::replace(&mut slot.image, image)),
    };
    slot.state = state;
    kept.push_reserved(before);
    Ok(())
}

impl Transaction<'_> {
    /// Refuses a reply: the slot becomes idle, and opens again after the retry time.
    fn refuse(&mut self, number: u32, why: Reason) -> Result<(), OutOfMemory>
        ensures { Performs (after_at (refused_by why) number) self.old result self.new }
    {
        let Some(indexed) = self.find(number) else {
            return Ok(());
        };
        let reported = Notice::Refused(indexed.number, why);
        let slot_change = SlotChange {
            state: SlotState::Idle,
            desired_up: indexed.slot.desired_up,
            retry_at: later(self.scanner.clock, self.profile.retry),
        };
        self.change(number, slot_change, Some(reported))
    }

    /// Leaves the request of a slot unserved, since its target did not serve it: a slot that opens is refused with this
    /// encapsulation status.
    pub(crate) fn leave_unserved(&mut self, number: u32, status: u32) -> Result<(), OutOfMemory>
        ensures { Performs (after_at (unserved status) number) self.old result self.new }
    {
        let Some(indexed) = self.find(number) else {
            return Ok(());
        };
        let SlotState::Opening(_) = indexed.slot.state else {
            return Ok(());
        };
        self.refuse(number, Reason::Encap(status))
    }

    /// Establishes a slot with the connection that a successful reply opens, and an image of zeros.
    fn establish(
        &mut self,
        number: u32,
        opening: &PendingOpen,
        opened: &Opened,
        link: Link,
    ) -> Result<(), OutOfMemory>
        requires named { link ≡ link_of opening.now.requested opened.now }
        requires interval { interval_ms opened.now.t_o_api_us ≤ 10000 }
        ensures { Performs (after_at (established_by opening.now opened.now) number) self.old result self.new }
    {
        let Some(indexed) = self.find(number) else {
            return Ok(());
        };
        let image = Items::zeros(self.alloc, indexed.config.in_len as usize)?;
        let connection = new_connection(
            self.profile.tidy,
            self.scanner.clock,
            indexed.config,
            indexed.number,
            opening.request,
            link,
            opened,
        );
        let old = indexed.slot.state;
        let new = SlotState::Established(connection);
        report(&mut self.notices, None, number, &old, &new)?;
        occupy(
            &mut self.scanner.slots,
            &mut self.undo.slots,
            number,
            new,
            image,
        )?;
        Ok(())
    }

    /// Takes a successful reply to the slot that waits for it: establishes the slot, or refuses the reply for a mismatch. With
    /// `tidy` it then closes the connection that the target opened.
    fn judge(
        &mut self,
        number: u32,
        opening: &PendingOpen,
        opened: &Opened,
    ) -> Result<(), OutOfMemory>
        ensures { Performs (after_at (judged_by opening.now opened.now) number) self.old result self.new }
    {
        let Some(indexed) = self.find(number) else {
            return Ok(());
        };
        let (slot, target) = (indexed.number, indexed.config.target);
        let used = is_id_used(
            self.profile.slots.as_slice(),
            &self.scanner.slots,
            slot,
            target,
            opened.t_o_id,
        );
        match linked(opening.requested, opened, !used) {
            Ok(link) => self.establish(number, opening, opened, link),
            Err(why) => {
                self.refuse(number, Reason::Mismatch(why))?;
                self.reject(number, opening.requested.triad)
            }
        }
    }

    /// Takes the answer to a slot's Forward_Open. A successful reply without a mismatch establishes the slot. Otherwise the
    /// slot opens again after the retry time, and a notice gives the reason.
    ///
    /// Volume 1, chapter 3, Forward_Open service, successful and unsuccessful response.
    #[tactic(auto, unfolding(scanner_table::specs::Replies::answered))]
    pub fn answer(
        &mut self,
        number: u32,
        opening: &PendingOpen,
        reported: Result<OpenAnswer, Reason>,
    ) -> Result<(), OutOfMemory>
        ensures { Performs (after_at (answered_by opening.now reported) number) self.old result self.new }
    {
        match reported {
            Err(why) => self.refuse(number, why),
            Ok(OpenAnswer::Refused(refused)) => { self.refuse(number, Reason::Cip(refused.fault)) }
            Ok(OpenAnswer::Opened(opened)) => self.judge(number, opening, &opened),
        }
    }
}
