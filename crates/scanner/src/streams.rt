//! Streams to targets, and the frames that the scanner receives over them.

ghost use Rattle.std.specs.Prelude.{◌≡◌, Ok};
ghost use Rattle.std.specs.List.{list_any};
ghost use Rattle.cip_encap.specs.Message.{view_message};
ghost use Rattle.cip_events.specs.Outcomes.{Follows};
ghost use Rattle.scanner_table.specs.Encapsulation.{explicit_ends, stream_opened, stream_cut, frame, reported, session_renewed};
ghost use Rattle.scanner_table.specs.Effects.{done};
ghost use Rattle.scanner_table.specs.Sessions.{is_to, is_taken};
ghost use Rattle.scanner_table.specs.WellFormed.{IsWellFormed};
ghost use Rattle.scanner_slots.specs.Bounding.{IsHinted};
ghost use Rattle.scanner_slots.specs.Views.{table_of};
ghost use Rattle.scanner_transactions.specs.MessageOutcomes.{message_next};
ghost use Rattle.scanner_transactions.specs.Transactions.{view_transaction};
ghost use Rattle.scanner_transactions.specs.Undoing.{state_before, table_with};
ghost use Rattle.scanner.specs.Tables.{table_in};

use crate::answers::{commit_bounded, end_unchanged, roll_back};
use crate::slots::ScannerSlots;
use cip_encap::{MessageView, read_message};
use cip_events::{Answer, Outcome, StepFault, Verdict};
use cip_types::limits::MOST_STREAMS;
use cip_types::{Items, Node, OutOfMemory, add_stream, find_stream, has_stream};
use explicit_requests::find_pending;
use scanner_requests::{ends_session, registration_frame};
use scanner_slots::{Hints, ScannerState};
use scanner_table::{PendingExplicit, Stage, TargetStream};
use scanner_transactions::{
    MessageOutcome, Transaction, cut_stream, receive_message, renew_session,
};
use std::alloc::Global;

fn goes_to(streams: &[TargetStream], target: Node) -> bool
    ensures { result ≡ list_any (is_to target) streams.now }
{
    streams.iter().any(|stream| stream.peer.0 == target.0)
}

/// Returns whether the number is in use, the target has a stream already, or 16 streams are open.
fn is_taken(streams: &[TargetStream], number: u16, target: Node) -> bool
    ensures { result ≡ is_taken streams.now number target }
{
    has_stream(streams, number) || goes_to(streams, target) || streams.len() >= MOST_STREAMS
}

/// Ends the transaction of a message with this outcome. Returns the answer. Takes no memory.
fn answer_of<H: Hints>(
    alloc: Global,
    transaction: Transaction<'_>,
    scanner: &mut ScannerState,
    hints: &mut H,
    outcome: MessageOutcome,
) -> Answer
    ensures hints { let profile = transaction.entry.profile.now in
        IsHinted (H.bounds hints.old) (table_with profile (state_before transaction.entry))
        → IsHinted (H.bounds hints.new) (table_of profile scanner.new) }
    ensures next { let profile = transaction.entry.profile.now in (result, table_of profile scanner.new)
        ≡ message_next (table_with profile (state_before transaction.entry)) outcome
        (view_transaction transaction.entry) }
{
    match outcome {
        MessageOutcome::Answered => { commit_bounded(transaction, scanner, hints, Vec::new(alloc)) }
        MessageOutcome::Ignored => end_unchanged(alloc, transaction, scanner, Verdict::Ignored),
    }
}

impl ScannerSlots {
    /// Opens a stream to a target, and registers a session on it.
    #[tactic(auto, unfolding(scanner_table::specs::Encapsulation::stream_opened))]
    pub fn open_stream(&mut self, number: u16, target: Node) -> Outcome
        ensures step { Follows (stream_opened (table_in self.old) number target) (table_in self.old) result
            (table_in self.new) }
        ensures profile { self.new.profile ≡ self.old.profile }
    {
        if is_taken(&self.state.streams, number, target) {
            return Err(StepFault::NotAllowedNow);
        }
        let frame = registration_frame(self.alloc, number)?;
        let frames = Items::one(self.alloc, frame)?;
        let stream = TargetStream {
            number,
            peer: target,
            stage: Stage::Waiting,
        };
        add_stream(&mut self.state.streams, stream)?;
        Ok(Answer {
            frames,
            ..Answer::plain(self.alloc, Verdict::Done)
        })
    }

    /// Takes the cut of a stream, or its close by the target.
    #[tactic(auto, unfolding(scanner_table::specs::Encapsulation::stream_cut))]
    pub fn cut<H: Hints>(&mut self, hints: &mut H, number: u16) -> Outcome
        requires { IsWellFormed (table_in self.old) }
        ensures step { Follows (stream_cut (table_in self.old) number) (table_in self.old) result (table_in self.new) }
        ensures hints { IsHinted (H.bounds hints.old) (table_in self.old)
            → IsHinted (H.bounds hints.new) (table_in self.new) }
    {
        let Some(stream) = find_stream(&self.state.streams, number) else {
            return Err(StepFault::NotAllowedNow);
        };
        let mut transaction = Transaction::begin(self.alloc, &self.profile, &mut self.state);
        match cut_stream(&mut transaction, stream) {
            Ok(()) => {
                let none = Vec::new(self.alloc);
                Ok(commit_bounded(transaction, &mut self.state, hints, none))
            }
            Err(_) => Err(roll_back(transaction, &mut self.state, StepFault::OutOfMemory)),
        }
    }

    /// Takes a message of a stream's target that no explicit request waits for.
    fn take_message<H: Hints>(
        &mut self,
        hints: &mut H,
        stream: TargetStream,
        message: &MessageView<'_>,
    ) -> Outcome
        requires { IsWellFormed (table_in self.old) }
        ensures step { Follows (Ok (reported (table_in self.old) stream (view_message message.now) stream.stage))
            (table_in self.old) result (table_in self.new) }
        ensures hints { IsHinted (H.bounds hints.old) (table_in self.old)
            → IsHinted (H.bounds hints.new) (table_in self.new) }
    {
        let mut transaction = Transaction::begin(self.alloc, &self.profile, &mut self.state);
        match receive_message(&mut transaction, stream, message) {
            Ok(outcome) => Ok(answer_of(self.alloc, transaction, &mut self.state, hints, outcome)),
            Err(_) => Err(roll_back(transaction, &mut self.state, StepFault::OutOfMemory)),
        }
    }

    /// Ends the session of a stream, whose target does not know it, and registers a new one.
    fn end_session<H: Hints>(&mut self, hints: &mut H, stream: TargetStream) -> Outcome
        requires { IsWellFormed (table_in self.old) }
        ensures step { Follows (Ok (done (session_renewed stream (table_in self.old)))) (table_in self.old) result
            (table_in self.new) }
        ensures hints { IsHinted (H.bounds hints.old) (table_in self.old)
            → IsHinted (H.bounds hints.new) (table_in self.new) }
    {
        let mut transaction = Transaction::begin(self.alloc, &self.profile, &mut self.state);
        match renew_session(&mut transaction, stream) {
            Ok(()) => {
                let none = Vec::new(self.alloc);
                Ok(commit_bounded(transaction, &mut self.state, hints, none))
            }
            Err(_) => Err(roll_back(transaction, &mut self.state, StepFault::OutOfMemory)),
        }
    }

    /// Takes the message to an explicit request, which ends it. If the target does not know the session, the session ends with it.
    fn take_explicit<H: Hints>(
        &mut self,
        hints: &mut H,
        stream: TargetStream,
        pending: PendingExplicit,
        message: &MessageView<'_>,
    ) -> Outcome
        requires { IsWellFormed (table_in self.old) }
        ensures step { Follows (Ok (explicit_ends (table_in self.old) stream (view_message message.now) pending))
            (table_in self.old) result (table_in self.new) }
        ensures hints { IsHinted (H.bounds hints.old) (table_in self.old)
            → IsHinted (H.bounds hints.new) (table_in self.new) }
    {
        if ends_session(self.profile.tidy, message) {
            return self.end_session(hints, stream);
        }
        self.take_reply(pending, message)
    }

    /// Takes a frame of a stream: a message to an explicit request ends it, and the session judges any other.
    #[tactic(auto, unfolding(scanner_table::specs::Encapsulation::frame))]
    pub fn frame<H: Hints>(&mut self, hints: &mut H, number: u16, bytes: &[u8]) -> Outcome
        requires { IsWellFormed (table_in self.old) }
        ensures step { Follows (frame (table_in self.old) number bytes.now) (table_in self.old) result
            (table_in self.new) }
        ensures hints { IsHinted (H.bounds hints.old) (table_in self.old)
            → IsHinted (H.bounds hints.new) (table_in self.new) }
    {
        let Some(stream) = find_stream(&self.state.streams, number) else {
            return Err(StepFault::NotAllowedNow);
        };
        let Ok(message) = read_message(bytes) else {
            return Ok(Answer::plain(self.alloc, Verdict::BadFrame));
        };
        match find_pending(&self.state.explicit, stream.number, message.context) {
            Some(pending) => self.take_explicit(hints, stream, pending, &message),
            None => self.take_message(hints, stream, &message),
        }
    }
}
