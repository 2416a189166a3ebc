//! Openings.

ghost use Rattle.std.specs.Prelude.{IsTrue};
ghost use Rattle.std.specs.Option.{ForSome};
ghost use Rattle.scanner_table.specs.Opening.{opened, can_open};
ghost use Rattle.scanner_table.specs.Slots.{slot_at};
ghost use Rattle.scanner_transactions.specs.Transactions.{view_transaction, after_at, opened_there, cleared_by, open_requested_within, freshly_started};
ghost use Rattle.scanner_transactions.specs.Undoing.{Performs};

use crate::changes::{SlotChange, change_slot};
use crate::transaction::Transaction;
use cip_types::OutOfMemory;
use conn_state::Link;
use scanner_requests::{
    LAST_REQUEST, can_open, id_after, later, next_requested, open_frame, serial_after,
};
use scanner_slots::{open_session, session_with};
use scanner_table::{PendingOpen, Session, SlotState};

impl Transaction<'_> {
    /// Sends the Forward_Open of a slot within a session. Numbers are left for it.
    fn request_open(&mut self, number: u32, session: Session) -> Result<(), OutOfMemory>
        requires left { let t = (view_transaction self.old).table in ForSome (slot_at t number)
            (λ indexed. IsTrue (can_open t indexed.config)) }
        ensures { Performs (after_at (open_requested_within session) number) self.old result self.new }
    {
        let Some(indexed) = self.find(number) else {
            return Ok(());
        };
        let multicast = indexed.config.multicast;
        let request = self.scanner.next_request;
        let requested = next_requested(self.profile, &self.scanner, indexed.config);
        let frame = open_frame(
            self.alloc,
            self.profile,
            indexed.config,
            &requested,
            session,
            request,
        )?;
        let opening = PendingOpen {
            request,
            requested,
            deadline: later(self.scanner.clock, self.profile.open_timeout),
        };
        let slot_change = SlotChange {
            state: SlotState::Opening(opening),
            desired_up: indexed.slot.desired_up,
            retry_at: indexed.slot.retry_at,
        };
        self.scanner.next_id = id_after(multicast, self.scanner.next_id);
        self.scanner.next_serial = serial_after(self.scanner.next_serial);
        self.send_request(number, frame, slot_change)
    }

    /// Closes a connection that timed out, if the session with its target is registered. If no request number is left, the
    /// slot becomes idle.
    ///
    /// Volume 1, chapter 3, Forward_Close service.
    fn clear(&mut self, number: u32, link: Link) -> Result<(), OutOfMemory>
        ensures { Performs (after_at (cleared_by link) number) self.old result self.new }
    {
        let Some(indexed) = self.find(number) else {
            return Ok(());
        };
        let target = indexed.config.target;
        let desired_up = indexed.slot.desired_up;
        let Some(session) = session_with(&self.scanner.streams, target) else {
            return Ok(());
        };
        if self.scanner.next_request > LAST_REQUEST {
            return self.exhaust(number);
        }
        self.request_close(number, link, desired_up, session)
    }

    /// Sends the Forward_Open of a slot, if the session with its target is registered, and it is the slot's turn. If no number
    /// is left, the slot becomes idle.
    fn open_there(&mut self, number: u32) -> Result<(), OutOfMemory>
        ensures { Performs (after_at opened_there number) self.old result self.new }
    {
        let Some(indexed) = self.find(number) else {
            return Ok(());
        };
        let target = indexed.config.target;
        let multicast = indexed.config.multicast;
        let Some(session) = open_session(self.profile, &self.scanner, target) else {
            return Ok(());
        };
        if !can_open(&self.scanner, multicast) {
            return self.exhaust(number);
        }
        self.request_open(number, session)
    }

    /// Opens a slot by a Forward_Open, if the session with its target is registered, and it is the slot's turn. With `tidy` a
    /// connection that timed out is closed first, out of turn. If no number is left, the slot becomes idle.
    ///
    /// Volume 1, chapter 3, Forward_Open service.
    pub fn open(&mut self, number: u32) -> Result<(), OutOfMemory>
        ensures { Performs (after_at opened number) self.old result self.new }
    {
        let tidy = self.profile.tidy;
        let Some(indexed) = self.find(number) else {
            return Ok(());
        };
        match indexed.slot.state {
            SlotState::TimedOut(link) if tidy => self.clear(number, link),
            SlotState::TimedOut(_) => self.open_there(number),
            SlotState::Idle => self.open_there(number),
            SlotState::Opening(_) => self.open_there(number),
            SlotState::Established(_) => self.open_there(number),
            SlotState::Closing(_) => self.open_there(number),
        }
    }

    /// Starts a slot: its connection is desired from now on, and it opens at once if it can.
    pub fn start(&mut self, number: u32) -> Result<(), OutOfMemory>
        ensures { Performs (after_at freshly_started number) self.old result self.new }
    {
        let Some(indexed) = self.find(number) else {
            return Ok(());
        };
        let slot_change = SlotChange {
            state: indexed.slot.state,
            desired_up: true,
            retry_at: self.scanner.clock,
        };
        change_slot(
            &mut self.scanner.slots,
            &mut self.undo.slots,
            number,
            slot_change,
        )?;
        self.open(number)
    }
}
