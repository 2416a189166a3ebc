//! Answers.

ghost use Rattle.std.specs.Prelude.{◌≡◌, []};
ghost use Rattle.cip_events.specs.Answers.{plain_answer};
ghost use Rattle.scanner_transactions.specs.Transactions.{view_transaction, progress_answer};
ghost use Rattle.scanner_transactions.specs.Undoing.{state_of, state_before, table_with};
ghost use Rattle.scanner_slots.specs.Views.{table_of};
ghost use Rattle.scanner_slots.specs.Bounding.{IsHinted};

use cip_events::{Answer, OutgoingDatagram, StepFault, Verdict};
use cip_types::Items;
use scanner_slots::{Hints, ScannerState, bounds_are_kept_by_earlier_ones};
use scanner_transactions::Transaction;
use std::alloc::Global;

/// Makes an answer with these datagrams alone. Takes no memory.
pub fn sent_answer(alloc: Global, datagrams: Vec<OutgoingDatagram>) -> Answer
    ensures { result ≡ record { frames = []; datagrams = datagrams.items; verdict = Verdict.Done; notices = [] } }
{
    Answer {
        datagrams: Items::from_vec(datagrams),
        ..Answer::plain(alloc, Verdict::Done)
    }
}

/// Takes a transaction back: the scanner is as it was before. Returns the fault. Takes no memory.
pub fn roll_back(
    transaction: Transaction<'_>,
    scanner: &mut ScannerState,
    why: StepFault,
) -> StepFault
    ensures fault { result ≡ why }
    ensures state { state_of scanner.new ≡ state_before transaction.entry }
{
    *scanner = transaction.undo();
    why
}

/// Ends a transaction of an event that changes nothing. Returns the answer with this verdict. Takes no memory.
pub fn end_unchanged(
    alloc: Global,
    transaction: Transaction<'_>,
    scanner: &mut ScannerState,
    verdict: Verdict,
) -> Answer
    ensures answer { result ≡ plain_answer verdict }
    ensures state { state_of scanner.new ≡ state_before transaction.entry }
{
    *scanner = transaction.undo();
    Answer::plain(alloc, verdict)
}

/// Ends a transaction: its table becomes the present one. Returns its answer. Takes no memory.
pub fn commit(
    transaction: Transaction<'_>,
    scanner: &mut ScannerState,
    datagrams: Vec<OutgoingDatagram>,
) -> Answer
    ensures answer { result ≡ progress_answer (view_transaction transaction.entry) datagrams.items }
    ensures table { table_of transaction.entry.profile.now scanner.new ≡ (view_transaction transaction.entry).table }
{
    let (answer, next) = transaction.finish(datagrams);
    *scanner = next;
    answer
}

/// Ends a transaction as `commit` does. The bounds become those of its table.
pub fn commit_bounded<H: Hints>(
    transaction: Transaction<'_>,
    scanner: &mut ScannerState,
    hints: &mut H,
    datagrams: Vec<OutgoingDatagram>,
) -> Answer
    ensures answer { result ≡ progress_answer (view_transaction transaction.entry) datagrams.items }
    ensures table { table_of transaction.entry.profile.now scanner.new ≡ (view_transaction transaction.entry).table }
    ensures hints { IsHinted (H.bounds hints.old)
        (table_with transaction.entry.profile.now (state_before transaction.entry))
        → IsHinted (H.bounds hints.new) (view_transaction transaction.entry).table }
{
    // Earlier bounds hold where these do.
    bounds_are_kept_by_earlier_ones();
    hints.set_bounds(transaction.narrowed(hints.bounds()));
    commit(transaction, scanner, datagrams)
}
