//! The streams and the explicit requests of a scanner within a transaction.

ghost use Rattle.scanner_table.specs.Explicit.{explicit_ended};
ghost use Rattle.explicit_requests.specs.Endings.{ends, why_of};
ghost use Rattle.scanner_transactions.specs.Transactions.{followed_by, with_staged, without_cut};
ghost use Rattle.scanner_transactions.specs.Undoing.{Performs};

use crate::transaction::Transaction;
use crate::undo::keep_list;
use cip_types::{OutOfMemory, drop_stream};
use explicit_requests::{ExplicitEnd, ends_any, keep_others, no_end_changes_nothing, report_ended};
use scanner_slots::stage_streams;
use scanner_table::Stage;

impl Transaction<'_> {
    /// Sets the stage of a stream's session. `OutOfMemory` is the only error.
    pub fn set_stage(&mut self, number: u16, stage: Stage) -> Result<(), OutOfMemory>
        ensures { Performs (with_staged number stage) self.old result self.new }
    {
        keep_list(self.alloc, &mut self.undo.streams, &self.scanner.streams)?;
        stage_streams(&mut self.scanner.streams, number, stage);
        Ok(())
    }

    /// Removes the stream of a number. `OutOfMemory` is the only error.
    pub fn cut_stream(&mut self, number: u16) -> Result<(), OutOfMemory>
        ensures { Performs (without_cut number) self.old result self.new }
    {
        keep_list(self.alloc, &mut self.undo.streams, &self.scanner.streams)?;
        drop_stream(&mut self.scanner.streams, number);
        Ok(())
    }

    /// Ends explicit requests without a reply, with a notice for each, in their order. `OutOfMemory` is the only error.
    ///
    /// Volume 1, chapter 3, unconnected messaging.
    pub fn end_explicit(&mut self, end: ExplicitEnd) -> Result<(), OutOfMemory>
        ensures { Performs (followed_by (explicit_ended (ends end) (why_of end))) self.old result self.new }
    {
        // Where no request ends, nothing changes.
        no_end_changes_nothing();
        if !ends_any(end, &self.scanner.explicit) {
            return Ok(());
        }
        keep_list(self.alloc, &mut self.undo.explicit, &self.scanner.explicit)?;
        report_ended(end, &self.scanner.explicit, &mut self.notices)?;
        keep_others(end, &mut self.scanner.explicit);
        Ok(())
    }
}
