//! The slots of a scanner, and their starts and stops.

ghost use Rattle.std.specs.Prelude.{◌≡◌};
ghost use Rattle.cip_events.specs.Outcomes.{Follows};
ghost use Rattle.scanner_table.specs.Points.{start, stop};
ghost use Rattle.scanner_table.specs.WellFormed.{IsWellFormed};
ghost use Rattle.scanner_slots.specs.Bounding.{IsHinted};
ghost use Rattle.scanner.specs.Allowed.{can_start};
ghost use Rattle.scanner.specs.Tables.{table_in};

use crate::answers::{commit_bounded, roll_back};
use cip_events::{Outcome, StepFault};
use scanner_slots::{Hints, ScannerState, slot_at};
use scanner_table::{ScannerProfile, Slot, SlotState};
use scanner_transactions::Transaction;
use std::alloc::Global;

/// The slots of a scanner, with its allocator and its profile: all of it but its hints.
#[derive(Drop)]
pub(crate) struct ScannerSlots {
    pub alloc: Global,
    pub profile: ScannerProfile,
    pub state: ScannerState,
}

/// Returns whether a slot can be started: it is idle, and its connection is not desired.
fn can_start(slot: &Slot) -> bool
    ensures { result ≡ can_start slot.now.desired_up slot.now.state }
{
    match slot.state {
        SlotState::Idle => !slot.desired_up,
        SlotState::Opening(_)
        | SlotState::Established(_)
        | SlotState::TimedOut(_)
        | SlotState::Closing(_) => false,
    }
}

impl ScannerSlots {
    /// Starts a slot, which opens at once if it can.
    #[tactic(auto, unfolding(scanner_table::specs::Points::start))]
    pub fn start<H: Hints>(&mut self, hints: &mut H, number: u32) -> Outcome
        requires { IsWellFormed (table_in self.old) }
        ensures step { Follows (start (table_in self.old) number) (table_in self.old) result (table_in self.new) }
        ensures hints { IsHinted (H.bounds hints.old) (table_in self.old)
            → IsHinted (H.bounds hints.new) (table_in self.new) }
    {
        let Some(indexed) = slot_at(self.profile.slots.as_slice(), &self.state.slots, number) else {
            return Err(StepFault::NoSuchSlot);
        };
        if !can_start(indexed.slot) {
            return Err(StepFault::NotAllowedNow);
        }
        let mut transaction = Transaction::begin(self.alloc, &self.profile, &mut self.state);
        match transaction.start(number) {
            Ok(()) => {
                let none = Vec::new(self.alloc);
                Ok(commit_bounded(transaction, &mut self.state, hints, none))
            }
            Err(_) => Err(roll_back(transaction, &mut self.state, StepFault::OutOfMemory)),
        }
    }

    /// Stops a slot.
    #[tactic(auto, unfolding(scanner_table::specs::Points::stop))]
    pub fn stop<H: Hints>(&mut self, hints: &mut H, number: u32) -> Outcome
        requires { IsWellFormed (table_in self.old) }
        ensures step { Follows (stop (table_in self.old) number) (table_in self.old) result (table_in self.new) }
        ensures hints { IsHinted (H.bounds hints.old) (table_in self.old)
            → IsHinted (H.bounds hints.new) (table_in self.new) }
    {
        let mut transaction = Transaction::begin(self.alloc, &self.profile, &mut self.state);
        match transaction.stop(number) {
            Ok(()) => {
                let none = Vec::new(self.alloc);
                Ok(commit_bounded(transaction, &mut self.state, hints, none))
            }
            Err(why) => Err(roll_back(transaction, &mut self.state, why)),
        }
    }
}
