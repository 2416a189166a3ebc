//! Connections that time out, in the order of their deadlines, and the part of a tick before its productions.

ghost use Rattle.scanner_table.specs.Ticks.{all_expired, advanced, expired, moved_on};
ghost use Rattle.scanner_transactions.specs.Transactions.{after_at, followed_by};
ghost use Rattle.scanner_transactions.specs.Undoing.{Performs};

use crate::Transaction;
use crate::changes::SlotChange;
use crate::running::{give_up_overdue, open_ready};
use cip_types::OutOfMemory;
use explicit_requests::ExplicitEnd;
use scanner_requests::later;
use scanner_slots::expired_numbers;
use scanner_table::SlotState;

impl Transaction<'_> {
    /// Times the connection of a slot out, if it is established. The image stays, and the slot opens again after the retry
    /// time.
    ///
    /// Volume 1, chapter 3, connection timeouts.
    pub fn expire(&mut self, number: u32) -> Result<(), OutOfMemory>
        ensures { Performs (after_at expired number) self.old result self.new }
    {
        let Some(indexed) = self.find(number) else {
            return Ok(());
        };
        let SlotState::Established(connection) = indexed.slot.state else {
            return Ok(());
        };
        let slot_change = SlotChange {
            state: SlotState::TimedOut(connection.link),
            desired_up: indexed.slot.desired_up,
            retry_at: later(self.scanner.clock, self.profile.retry),
        };
        self.change(number, slot_change, None)
    }
}

/// Times out the connections whose deadline has come, in the order of their deadlines. `OutOfMemory` is the only error.
///
/// Volume 1, chapter 3, connection timeouts.
pub fn expire_all(transaction: &mut Transaction<'_>) -> Result<(), OutOfMemory>
    ensures { Performs (followed_by all_expired) transaction.old result transaction.new }
{
    let numbers = expired_numbers(
        transaction.alloc,
        transaction.profile.slots.as_slice(),
        &transaction.scanner.slots,
        transaction.scanner.clock,
    )?;
    for number in &numbers {
        transaction.expire(*number)?;
    }
    Ok(())
}

/// Lets the connections change at a time: late ones time out, then slots give up late replies, then ready slots open.
/// `OutOfMemory` is the only error.
fn advance(transaction: &mut Transaction<'_>) -> Result<(), OutOfMemory>
    ensures { Performs (followed_by advanced) transaction.old result transaction.new }
{
    expire_all(transaction)?;
    give_up_overdue(transaction)?;
    open_ready(transaction)
}

/// Performs the part of a tick before its productions: the connections change, and then the explicit requests end whose
/// deadline has come. `OutOfMemory` is the only error.
#[tactic(auto, unfolding(scanner_table::specs::Explicit::explicit_timed_out))]
pub fn move_on(transaction: &mut Transaction<'_>) -> Result<(), OutOfMemory>
    ensures { Performs (followed_by moved_on) transaction.old result transaction.new }
{
    advance(transaction)?;
    let late = ExplicitEnd::Late(transaction.scanner.clock);
    transaction.end_explicit(late)
}
