//! How the connection of a slot ends.

ghost use Rattle.std.specs.Prelude.{◌≡◌, ◌≤◌, ◌^◌, ◌&&◌, nat_lt, if◌then◌else◌};
ghost use Rattle.scanner_table.specs.Slots.{slot_at};
ghost use Rattle.scanner_table.specs.Closing.{closed, given_up, requested_link, slot_resigned, stopped_at};
ghost use Rattle.scanner_table.specs.Opening.{exhausted};
ghost use Rattle.scanner_transactions.specs.Transactions.{view_transaction, after_at, resigned_change, close_requested_within, closed_by, dropped_by, left_by, rejected_by, faulted, Adds};
ghost use Rattle.scanner_transactions.specs.Undoing.{GoesOn, Performs};

use crate::changes::SlotChange;
use crate::transaction::Transaction;
use cip_events::{Notice, StepFault};
use cip_types::{ConnId, Ms, OutOfMemory, Triad};
use conn_state::{Link, Requested};
use scanner_requests::{LAST_REQUEST, close_frame, later};
use scanner_slots::session_with;
use scanner_table::{PendingClose, ScannerProfile, Session, Slot, SlotState};

/// Returns the change of a slot whose connection is no longer desired.
fn resigned(slot: &Slot) -> SlotChange
    ensures { result ≡ resigned_change slot.now }
{
    SlotChange {
        state: SlotState::Idle,
        desired_up: false,
        retry_at: slot.retry_at,
    }
}

/// Returns a requested connection, whose O->T id is not known.
fn requested_link(requested: &Requested) -> Link
    ensures { result ≡ requested_link requested.now }
{
    Link {
        triad: requested.triad,
        o_t_id: ConnId(0),
        t_o_id: requested.t_o_id.unwrap_or(ConnId(0)),
    }
}

/// Returns the state of a slot that ends a connection which its target may still have.
fn left_state(profile: &ScannerProfile, link: Link) -> SlotState
    ensures { result ≡ (if profile.now.tidy then SlotState.TimedOut link else SlotState.Idle) }
{
    if profile.tidy {
        SlotState::TimedOut(link)
    } else {
        SlotState::Idle
    }
}

/// Returns whether a slot that gives up the reply to its Forward_Close keeps the connection, to close it later: with `tidy`,
/// before the time for the reply is over.
fn is_kept(profile: &ScannerProfile, clock: Ms, closing: &PendingClose) -> bool
    ensures { result ≡ (profile.now.tidy && nat_lt clock.0 closing.now.deadline.0) }
{
    profile.tidy && clock.0 < closing.deadline.0
}

/// Turns `OutOfMemory` into the fault of a step.
fn faulted(outcome: Result<(), OutOfMemory>) -> Result<(), StepFault>
    ensures { result ≡ faulted outcome }
{
    match outcome {
        Ok(()) => Ok(()),
        Err(_) => Err(StepFault::OutOfMemory),
    }
}

impl Transaction<'_> {
    /// Gives up the reply that a slot waits for: a slot that opens tries again after the retry time. A slot that closes becomes
    /// idle; with `tidy`, before the time for the reply is over, it is timed out, and closes again after the retry time.
    pub fn give_up(&mut self, number: u32) -> Result<(), OutOfMemory>
        ensures { Performs (after_at given_up number) self.old result self.new }
    {
        let Some(indexed) = self.find(number) else {
            return Ok(());
        };
        let desired_up = indexed.slot.desired_up;
        let again = later(self.scanner.clock, self.profile.retry);
        let (state, retry_at) = match indexed.slot.state {
            SlotState::Opening(opening) => {
                let link = requested_link(&opening.requested);
                (left_state(self.profile, link), again)
            }
            SlotState::Closing(closing) if is_kept(self.profile, self.scanner.clock, &closing) => {
                (SlotState::TimedOut(closing.link), again)
            }
            SlotState::Closing(_) => (SlotState::Idle, indexed.slot.retry_at),
            SlotState::Idle | SlotState::Established(_) | SlotState::TimedOut(_) => {
                return Ok(());
            }
        };
        let slot_change = SlotChange {
            state,
            desired_up,
            retry_at,
        };
        self.change(number, slot_change, None)
    }

    /// Takes the reply to the Forward_Close of a slot, whatever it says: the slot becomes idle, and opens if its connection
    /// is desired.
    ///
    /// Volume 1, chapter 3, Forward_Close service.
    pub fn end_close(&mut self, number: u32) -> Result<(), OutOfMemory>
        ensures { Performs (after_at closed number) self.old result self.new }
    {
        let Some(indexed) = self.find(number) else {
            return Ok(());
        };
        let desired_up = indexed.slot.desired_up;
        let slot_change = SlotChange {
            state: SlotState::Idle,
            desired_up,
            retry_at: indexed.slot.retry_at,
        };
        self.change(number, slot_change, None)?;
        if desired_up {
            return self.open(number);
        }
        Ok(())
    }

    /// Makes a slot idle, with its connection no longer desired.
    fn resign(&mut self, number: u32) -> Result<(), OutOfMemory>
        ensures { Performs (after_at slot_resigned number) self.old result self.new }
    {
        let Some(indexed) = self.find(number) else {
            return Ok(());
        };
        let slot_change = resigned(indexed.slot);
        self.change(number, slot_change, None)
    }

    /// Makes a slot idle for which no request number or id is left, and adds a notice of that.
    pub(crate) fn exhaust(&mut self, number: u32) -> Result<(), OutOfMemory>
        ensures { Performs (after_at exhausted number) self.old result self.new }
    {
        let Some(indexed) = self.find(number) else {
            return Ok(());
        };
        let slot_change = resigned(indexed.slot);
        let reported = Notice::NoIds(indexed.number);
        self.change(number, slot_change, Some(reported))
    }

    /// Ends the connection of a slot without a Forward_Close. With `tidy` the connection is timed out until it is closed.
    fn leave(&mut self, number: u32, link: Link) -> Result<(), OutOfMemory>
        ensures { Performs (after_at (left_by link) number) self.old result self.new }
    {
        let Some(indexed) = self.find(number) else {
            return Ok(());
        };
        let slot_change = SlotChange {
            state: left_state(self.profile, link),
            ..resigned(indexed.slot)
        };
        self.change(number, slot_change, None)
    }

    /// Sends the Forward_Close of a slot within a session. A request number is left for it.
    pub(crate) fn request_close(
        &mut self,
        number: u32,
        link: Link,
        desired_up: bool,
        session: Session,
    ) -> Result<(), OutOfMemory>
        requires left { self.old.scanner.next_request ≤ 2 ^ 48 }
        ensures { Performs (after_at (close_requested_within link desired_up session) number)
            self.old result self.new }
    {
        let Some(indexed) = self.find(number) else {
            return Ok(());
        };
        let request = self.scanner.next_request;
        let frame = close_frame(self.alloc, indexed.config, link.triad, session, request)?;
        let closing = PendingClose {
            request,
            link,
            deadline: later(self.scanner.clock, self.profile.open_timeout),
        };
        let slot_change = SlotChange {
            state: SlotState::Closing(closing),
            desired_up,
            retry_at: indexed.slot.retry_at,
        };
        self.send_request(number, frame, slot_change)
    }

    /// Closes a connection that no slot has, at the target of a slot: by a Forward_Close within the session with the target.
    /// No slot waits for the reply. Nothing is sent without `tidy`, without a session, or if no request number is left.
    ///
    /// Volume 1, chapter 3, Forward_Close service.
    pub(crate) fn reject(&mut self, number: u32, triad: Triad) -> Result<(), OutOfMemory>
        ensures { Performs (after_at (rejected_by triad) number) self.old result self.new }
    {
        let Some(indexed) = self.find(number) else {
            return Ok(());
        };
        if !self.profile.tidy {
            return Ok(());
        }
        let Some(session) = session_with(&self.scanner.streams, indexed.config.target) else {
            return Ok(());
        };
        let request = self.scanner.next_request;
        if request > LAST_REQUEST {
            return Ok(());
        }
        let frame = close_frame(self.alloc, indexed.config, triad, session, request)?;
        self.frames.push(frame)?;
        self.scanner.next_request += 1;
        Ok(())
    }

    /// Closes the connection of a slot: by a Forward_Close within the session with its target, or without one by dropping
    /// it. If no request number is left, the slot becomes idle.
    ///
    /// Volume 1, chapter 3, Forward_Close service.
    fn close(&mut self, number: u32, link: Link) -> Result<(), OutOfMemory>
        ensures { Performs (after_at (closed_by link) number) self.old result self.new }
    {
        let Some(indexed) = self.find(number) else {
            return Ok(());
        };
        let target = indexed.config.target;
        let Some(session) = session_with(&self.scanner.streams, target) else {
            return self.leave(number, link);
        };
        if self.scanner.next_request > LAST_REQUEST {
            return self.exhaust(number);
        }
        self.request_close(number, link, false, session)
    }

    /// Gives up a connection of a slot that its target may have. With `tidy` the slot closes it.
    fn drop_link(&mut self, number: u32, link: Link) -> Result<(), OutOfMemory>
        ensures { Performs (after_at (dropped_by link) number) self.old result self.new }
    {
        if self.profile.tidy {
            return self.close(number, link);
        }
        self.resign(number)
    }

    /// Stops a slot: closes its connection, or gives up its opening.
    ///
    /// The errors, in order: `NoSuchSlot` if no slot has the number; `NotAllowedNow` if the slot was not started, or is
    /// closing for good; `OutOfMemory`.
    pub fn stop(&mut self, number: u32) -> Result<(), StepFault>
        ensures effect { let d = view_transaction self.old in Adds
            (stopped_at d.table (slot_at d.table number)) d result (view_transaction self.new) }
        ensures kept { GoesOn self.old self.new }
    {
        let Some(indexed) = self.find(number) else {
            return Err(StepFault::NoSuchSlot);
        };
        let desired_up = indexed.slot.desired_up;
        match indexed.slot.state {
            SlotState::Idle if desired_up => faulted(self.resign(number)),
            SlotState::Idle => Err(StepFault::NotAllowedNow),
            SlotState::Opening(opening) => {
                faulted(self.drop_link(number, requested_link(&opening.requested)))
            }
            SlotState::Established(connection) => faulted(self.close(number, connection.link)),
            SlotState::TimedOut(link) => faulted(self.drop_link(number, link)),
            SlotState::Closing(_) if desired_up => faulted(self.resign(number)),
            SlotState::Closing(_) => Err(StepFault::NotAllowedNow),
        }
    }
}
