//! What a station's port does with the inquiries that arrive.

ghost use Rattle.std.specs.Prelude.{◌≡◌, [], None, OnOk, OnErr, IfOk, IfSome, IfNone, position};
ghost use Rattle.station_port.specs.Inquiries.Asking.{asker_of, budget_after};
ghost use Rattle.station_port.specs.Inquiries.Gates.{GivesDue, asker_after, budget_of, given_at_once, held_of};
ghost use Rattle.station_port.specs.Inquiries.Holds.{inquiry_wait, is_inquiry_due};

use crate::inquiries::asking::{Asker, InquirySocket, asker_of, is_broadcast};
use crate::inquiries::budget::InquiryBudget;
use crate::inquiries::hold::{HeldInquiry, InquiryHold};
use cip_types::{Items, Node, OutOfMemory};
use std::alloc::Global;

/// The inquiries that a device was given in a second, those that wait, and where the one came from that the device was given
/// last, until it is answered.
#[derive(Drop)]
pub struct InquiryGate {
    alloc: Global,
    budget: InquiryBudget,
    hold: InquiryHold,
    asker: Option<Asker>,
}

impl InquiryGate {
    /// No inquiry has come. The seed draws the delays. Takes no memory.
    pub fn new(alloc: Global, seed: u64) -> InquiryGate
        ensures held { result.hold ≡ record { words = seed; waiting = [] } }
        ensures budget { result.budget ≡ record { second = 0; given = 0 } }
        ensures asker { result.asker ≡ None }
    {
        InquiryGate {
            alloc,
            budget: InquiryBudget::begin(),
            hold: InquiryHold::new(alloc, seed),
            asker: None,
        }
    }

    /// From now on this seed draws the delays. Takes no memory.
    pub fn draw_by(&mut self, seed: u64)
        ensures { self.new ≡ record self.old { hold = record self.old.hold { words = seed } } }
    {
        self.hold.draw_by(seed);
    }

    /// Takes an inquiry that arrives at a socket at this time. One that came by broadcast waits until a drawn time. Any other
    /// goes on at once, if the device may be given another one in this second, and is lost if not.
    ///
    /// OutOfMemory is the only fault. The inquiry is lost then, and those that wait are the same.
    pub fn take(
        &mut self,
        now_ms: u64,
        socket: InquirySocket,
        asker: Asker,
        request: &[u8],
    ) -> Result<Option<Items<u8>>, OutOfMemory>
        ensures given { IfOk result (λ got. got ≡ given_at_once socket self.old.budget now_ms request.now) }
        ensures held { OnOk result (self.new.hold ≡ held_of socket self.old.hold now_ms asker request.now) }
        ensures counted { OnOk result (self.new.budget ≡ budget_of socket self.old.budget now_ms) }
        ensures asker { OnOk result (self.new.asker ≡ asker_after socket self.old.budget now_ms asker self.old.asker) }
        ensures same { OnErr result (self.new.hold ≡ self.old.hold) }
    {
        if is_broadcast(socket) {
            self.hold.hold(now_ms, asker, request)?;
            return Ok(None);
        }
        if !self.budget.admits(now_ms) {
            return Ok(None);
        }
        let bytes = Items::copy_of(self.alloc, request)?;
        self.asker = Some(asker);
        Ok(Some(bytes))
    }

    /// The first inquiry that waited and is due at this time: it goes on if the device may be given another one in this second
    /// (Some of Some), and is lost if not (Some of None). Takes no memory.
    pub fn next_due(&mut self, now_ms: u64) -> Option<Option<HeldInquiry>>
        ensures none { IfNone result (position (is_inquiry_due now_ms) self.old.hold.waiting ≡ None) }
        ensures kept { IfNone result (self.new ≡ self.old) }
        ensures some { IfSome result (λ given. GivesDue now_ms self.old.budget self.old.hold given self.new.hold) }
        ensures counted { IfSome result (λ given. self.new.budget ≡ budget_after self.old.budget now_ms) }
    {
        let held = self.hold.next_due(now_ms)?;
        if !self.budget.admits(now_ms) {
            return Some(None);
        }
        self.asker = Some(held.asker);
        Some(Some(held))
    }

    /// The milliseconds until an inquiry that waits is due, at most so many.
    pub fn wait_ms(&self, now_ms: u64, most_ms: u64) -> u64
        ensures { result ≡ inquiry_wait now_ms most_ms self.now.hold.waiting }
    {
        self.hold.wait_ms(now_ms, most_ms)
    }

    /// Where the device's reply to a peer goes: to where the inquiry came from that the device was given last, if that is of
    /// this peer. No further reply goes there.
    pub fn answered(&mut self, peer: Node) -> Option<Asker>
        ensures asker { result ≡ asker_of self.old.asker peer }
        ensures done { self.new ≡ record self.old { asker = None } }
    {
        asker_of(self.asker.take(), peer)
    }
}
