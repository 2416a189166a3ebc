//! Slots at the beginning and at the end of the session with their target.

ghost use Rattle.scanner_table.specs.Encapsulation.{registered, registering_again, session_begun, session_failed, session_renewed, stream_lost};
ghost use Rattle.cip_encap.specs.Message.{view_message};
ghost use Rattle.scanner_transactions.specs.Transactions.{followed_by};
ghost use Rattle.scanner_transactions.specs.Undoing.{Performs};

use crate::Transaction;
use crate::running::{lose_target, open_target};
use cip_encap::MessageView;
use cip_types::OutOfMemory;
use explicit_requests::ExplicitEnd;
use scanner_requests::{is_registered, registration_frame};
use scanner_table::{Stage, TargetStream};

/// Records the session of a stream, and opens the target's slots that are ready.
fn begin_session(
    transaction: &mut Transaction<'_>,
    stream: TargetStream,
    handle: u32,
) -> Result<(), OutOfMemory>
    ensures { Performs (followed_by (λ t. session_begun t stream handle)) transaction.old result transaction.new }
{
    transaction.set_stage(stream.number, Stage::Up(handle))?;
    open_target(transaction, stream.peer)
}

/// Records that the registration on a stream failed.
#[tactic(auto, using(crate::proofs::Steps::adds_nothing))]
fn fail_session(transaction: &mut Transaction<'_>, stream: TargetStream) -> Result<(), OutOfMemory>
    ensures { Performs (followed_by (λ t. session_failed t stream)) transaction.old result transaction.new }
{
    transaction.set_stage(stream.number, Stage::Unused)?;
    Ok(())
}

/// Takes the reply to a registration. `OutOfMemory` is the only error; the transaction must be undone then.
///
/// Volume 2, chapter 2, RegisterSession.
pub fn register(
    transaction: &mut Transaction<'_>,
    stream: TargetStream,
    message: &MessageView<'_>,
) -> Result<(), OutOfMemory>
    ensures { Performs (followed_by (λ t. registered t stream (view_message message.now)))
        transaction.old result transaction.new }
{
    if is_registered(message) {
        return begin_session(transaction, stream, message.session);
    }
    fail_session(transaction, stream)
}

/// Removes a stream, and lets its target's slots give up the replies that they wait for. Then the explicit requests of the
/// stream end. `OutOfMemory` is the only error; the transaction must be undone then.
#[tactic(auto, unfolding(scanner_table::specs::Explicit::explicit_lost))]
pub fn cut_stream(
    transaction: &mut Transaction<'_>,
    stream: TargetStream,
) -> Result<(), OutOfMemory>
    ensures { Performs (followed_by (λ t. stream_lost t stream)) transaction.old result transaction.new }
{
    transaction.cut_stream(stream.number)?;
    lose_target(transaction, stream.peer)?;
    transaction.end_explicit(ExplicitEnd::Over(stream.number))
}

/// Registers a session on a stream again.
fn register_again(
    transaction: &mut Transaction<'_>,
    stream: TargetStream,
) -> Result<(), OutOfMemory>
    ensures { Performs (followed_by (λ t. registering_again t stream)) transaction.old result transaction.new }
{
    let frame = registration_frame(transaction.alloc, stream.number)?;
    transaction.send_frame(frame)?;
    transaction.set_stage(stream.number, Stage::Waiting)
}

/// Ends the session on a stream: the target's slots give up the replies that they wait for, the explicit requests of the stream
/// end, and a new session is registered on the stream. `OutOfMemory` is the only error; the transaction must be undone then.
///
/// Volume 2, chapter 2, RegisterSession.
#[tactic(auto, unfolding(scanner_table::specs::Explicit::explicit_lost))]
pub fn renew_session(
    transaction: &mut Transaction<'_>,
    stream: TargetStream,
) -> Result<(), OutOfMemory>
    ensures { Performs (followed_by (session_renewed stream)) transaction.old result transaction.new }
{
    register_again(transaction, stream)?;
    lose_target(transaction, stream.peer)?;
    transaction.end_explicit(ExplicitEnd::Over(stream.number))
}
