//! The messages that targets send.

ghost use Rattle.std.specs.Prelude.{find};
ghost use Rattle.cip_encap.specs.Message.{view_message};
ghost use Rattle.scanner_table.specs.declared.table.Stage.TheVariants.{Waiting};
ghost use Rattle.scanner_table.specs.Encapsulation.{answered_at, is_awaiting, replied_to, reported, unserved_at};
ghost use Rattle.scanner_table.specs.Slots.{indexed_slots};
ghost use Rattle.scanner_transactions.specs.Transactions.{IsFresh};
ghost use Rattle.scanner_transactions.specs.MessageOutcomes.{Takes};

use crate::Transaction;
use crate::sessions::{register, renew_session};
use cip_encap::MessageView;
use cip_types::{Node, OutOfMemory};
use scanner_requests::{ends_session, open_answer, service_for};
use scanner_slots::find_awaiting;
use scanner_table::{SlotState, Stage, TargetStream};

/// The outcome of a message that no explicit request waits for.
#[derive(Clone, Copy, PartialEq, Eq)]
pub enum MessageOutcome {
    /// Nothing waits for the message.
    Ignored,
    /// The message is a reply that a slot or a registration waited for. Its effect is in the transaction.
    Answered,
}

/// Takes the reply of a target to a request of one of its slots. Any reply to a Forward_Close ends the connection.
#[tactic(auto, using(crate::proofs::Faultless::few_slots))]
fn replied_to(
    transaction: &mut Transaction<'_>,
    target: Node,
    message: &MessageView<'_>,
) -> Result<MessageOutcome, OutOfMemory>
    requires { IsFresh transaction.old }
    ensures { let m = view_message message.now in Takes
        (λ t. replied_to t m (find (is_awaiting target m.context) (indexed_slots t)))
        transaction.old result transaction.new }
{
    let configs = transaction.profile.slots.as_slice();
    let slots = &transaction.scanner.slots;
    let Some(indexed) = find_awaiting(configs, slots, target, message.context) else {
        return Ok(MessageOutcome::Ignored);
    };
    let number = indexed.number;
    match indexed.slot.state {
        SlotState::Opening(opening) => {
            let reported = open_answer(service_for(indexed.config), message);
            transaction.answer(number, &opening, reported)?;
            Ok(MessageOutcome::Answered)
        }
        SlotState::Closing(_) => {
            transaction.end_close(number)?;
            Ok(MessageOutcome::Answered)
        }
        SlotState::Idle | SlotState::Established(_) | SlotState::TimedOut(_) => Ok(
            MessageOutcome::Ignored,
        ),
    }
}

/// Takes a message of a target that does not know the session of a request: if a slot waits for it, the slot is not served, and
/// the session ends.
#[tactic(auto, using(crate::proofs::Faultless::few_slots))]
fn unserved(
    transaction: &mut Transaction<'_>,
    stream: TargetStream,
    message: &MessageView<'_>,
) -> Result<MessageOutcome, OutOfMemory>
    requires { IsFresh transaction.old }
    ensures { let m = view_message message.now in Takes
        (λ t. unserved_at t stream m (find (is_awaiting stream.peer m.context) (indexed_slots t)))
        transaction.old result transaction.new }
{
    let configs = transaction.profile.slots.as_slice();
    let slots = &transaction.scanner.slots;
    let Some(indexed) = find_awaiting(configs, slots, stream.peer, message.context) else {
        return Ok(MessageOutcome::Ignored);
    };
    let number = indexed.number;
    transaction.leave_unserved(number, message.status)?;
    renew_session(transaction, stream)?;
    Ok(MessageOutcome::Answered)
}

/// Takes a message within the session of a stream.
fn answered(
    transaction: &mut Transaction<'_>,
    stream: TargetStream,
    message: &MessageView<'_>,
) -> Result<MessageOutcome, OutOfMemory>
    requires { IsFresh transaction.old }
    ensures { let m = view_message message.now in Takes
        (λ t. answered_at t stream m (find (is_awaiting stream.peer m.context) (indexed_slots t)))
        transaction.old result transaction.new }
{
    if ends_session(transaction.profile.tidy, message) {
        return unserved(transaction, stream, message);
    }
    replied_to(transaction, stream.peer, message)
}

/// Takes the reply to a registration, which has sender context 0.
fn registered(
    transaction: &mut Transaction<'_>,
    stream: TargetStream,
    message: &MessageView<'_>,
) -> Result<MessageOutcome, OutOfMemory>
    requires { IsFresh transaction.old }
    ensures { Takes (λ t. reported t stream (view_message message.now) Waiting) transaction.old result transaction.new }
{
    if message.context != 0 {
        return Ok(MessageOutcome::Ignored);
    }
    register(transaction, stream, message)?;
    Ok(MessageOutcome::Answered)
}

/// Takes a message of the target of an open stream, by the stage of the stream's session, in a transaction that has just
/// begun. `OutOfMemory` is the only error; the transaction must be undone then.
///
/// Volume 2, chapter 2, encapsulation messages.
pub fn receive_message(
    transaction: &mut Transaction<'_>,
    stream: TargetStream,
    message: &MessageView<'_>,
) -> Result<MessageOutcome, OutOfMemory>
    requires { IsFresh transaction.old }
    ensures { Takes (λ t. reported t stream (view_message message.now) stream.stage)
        transaction.old result transaction.new }
{
    match stream.stage {
        Stage::Waiting => registered(transaction, stream, message),
        Stage::Up(_) => answered(transaction, stream, message),
        Stage::Unused => Ok(MessageOutcome::Ignored),
    }
}
