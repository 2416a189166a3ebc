//! The end of a transaction.

ghost use Rattle.std.specs.Prelude.{◌≡◌};
ghost use Rattle.scanner_transactions.specs.Transactions.{view_transaction, progress_answer};

use crate::transaction::Transaction;
use cip_events::{Answer, OutgoingDatagram, Verdict};
use cip_types::Items;
use scanner_slots::ScannerState;

impl Transaction<'_> {
    /// Ends the transaction: returns the answer with its requests, its notices and these datagrams, and the next table.
    /// Takes no memory.
    pub fn finish(self, datagrams: Vec<OutgoingDatagram>) -> (Answer, ScannerState)
        ensures answer { result.0 ≡ progress_answer (view_transaction self.entry) datagrams.items }
        ensures scanner { result.1 ≡ self.entry.scanner }
    {
        let answer = Answer {
            frames: Items::from_vec(self.frames),
            datagrams: Items::from_vec(datagrams),
            verdict: Verdict::Done,
            notices: Items::from_vec(self.notices),
        };
        (answer, self.scanner)
    }
}
