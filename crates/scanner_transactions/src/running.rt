//! Actions on slots, one slot after another.

ghost use Rattle.std.specs.Prelude.{◌≡◌};
ghost use Rattle.scanner_table.specs.Opening.{ready_opened, target_opened};
ghost use Rattle.scanner_table.specs.Closing.{target_lost};
ghost use Rattle.scanner_table.specs.Ticks.{all_given_up};
ghost use Rattle.scanner_table.specs.Slots.{slot_at};
ghost use Rattle.scanner_slots.specs.Views.{passes};
ghost use Rattle.scanner_transactions.specs.Transactions.{view_transaction, followed_by, after_at};
ghost use Rattle.scanner_transactions.specs.Undoing.{Performs};
ghost use Rattle.scanner_transactions.specs.Runs.{effect_of, at_passes, run};

use crate::Transaction;
use cip_types::{Node, OutOfMemory};
use scanner_slots::SlotTest;

/// An action on a slot.
#[derive(Clone, Copy)]
pub enum SlotAction {
    /// The slot opens.
    Open,
    /// The slot gives up the reply that it waits for.
    GiveUp,
}

/// Returns whether there is a slot of a number, and it passes the test.
fn slot_passes(transaction: &Transaction<'_>, number: u32, test: SlotTest) -> bool
    ensures { result ≡ at_passes (passes test) (slot_at (view_transaction transaction.now).table number) }
{
    match transaction.find(number) {
        Some(indexed) => test.passes(indexed),
        None => false,
    }
}

/// Performs an action on the slot of a number.
fn act_on_slot(
    transaction: &mut Transaction<'_>,
    action: SlotAction,
    number: u32,
) -> Result<(), OutOfMemory>
    ensures { Performs (after_at (effect_of action) number) transaction.old result transaction.new }
{
    match action {
        SlotAction::Open => transaction.open(number),
        SlotAction::GiveUp => transaction.give_up(number),
    }
}

/// Performs an action on each slot that passes the test, one after another.
#[tactic(auto, using(crate::proofs::Faultless::few_slots))]
fn run(
    transaction: &mut Transaction<'_>,
    action: SlotAction,
    test: SlotTest,
) -> Result<(), OutOfMemory>
    ensures { Performs (followed_by (run action test)) transaction.old result transaction.new }
{
    let count = transaction.profile.slots.as_slice().len() as u32;
    for number in 0..count {
        if slot_passes(transaction, number, test) {
            act_on_slot(transaction, action, number)?;
        }
    }
    Ok(())
}

/// Opens all ready slots. `OutOfMemory` is the only error, here and in the functions below; the transaction must be
/// undone then.
///
/// Volume 1, chapter 3, Forward_Open service.
pub fn open_ready(transaction: &mut Transaction<'_>) -> Result<(), OutOfMemory>
    ensures { Performs (followed_by ready_opened) transaction.old result transaction.new }
{
    let ready = SlotTest::Ready(transaction.scanner.clock);
    run(transaction, SlotAction::Open, ready)
}

/// Opens the ready slots of a target.
///
/// Volume 1, chapter 3, Forward_Open service.
pub fn open_target(transaction: &mut Transaction<'_>, target: Node) -> Result<(), OutOfMemory>
    ensures { Performs (followed_by (target_opened target)) transaction.old result transaction.new }
{
    let ready = SlotTest::ReadyWith(target, transaction.scanner.clock);
    run(transaction, SlotAction::Open, ready)
}

/// Lets the slots of a target whose stream was closed give up the replies that they wait for.
#[tactic(auto, unfolding(scanner_table::specs::Closing::target_lost))]
pub fn lose_target(transaction: &mut Transaction<'_>, target: Node) -> Result<(), OutOfMemory>
    ensures { Performs (followed_by (target_lost target)) transaction.old result transaction.new }
{
    run(transaction, SlotAction::GiveUp, SlotTest::With(target))
}

/// Lets the slots whose request has its deadline give up the reply.
#[tactic(auto, unfolding(scanner_table::specs::Ticks::all_given_up))]
pub fn give_up_overdue(transaction: &mut Transaction<'_>) -> Result<(), OutOfMemory>
    ensures { Performs (followed_by all_given_up) transaction.old result transaction.new }
{
    let overdue = SlotTest::Overdue(transaction.scanner.clock);
    run(transaction, SlotAction::GiveUp, overdue)
}
