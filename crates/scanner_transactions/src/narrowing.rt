//! The bounds on the times of slots after a transaction.

ghost use Rattle.scanner_slots.specs.Bounding.{IsHinted};
ghost use Rattle.scanner_transactions.specs.Transactions.{view_transaction};
ghost use Rattle.scanner_transactions.specs.Undoing.{state_before, table_with};

use crate::transaction::Transaction;
use scanner_slots::{
    Bounds, bounds_are_kept_by_earlier_ones, bounds_hold_slot_by_slot, bounds_of, narrowed_at,
};

impl Transaction<'_> {
    /// Returns the bounds of the transaction's table, from those of the table at its beginning: no later than the times of
    /// each slot that it changed. After a change of a stream they are taken anew. Takes no memory.
    ///
    /// Volume 1, chapter 3, connection timeouts and class 1 transport.
    pub fn narrowed(&self, bounds: Bounds) -> Bounds
        ensures { IsHinted bounds (table_with self.now.profile.now (state_before self.now))
            → IsHinted result (view_transaction self.now).table }
    {
        // Earlier bounds hold where later ones do, and bounds hold of a table where they hold of each slot.
        bounds_are_kept_by_earlier_ones();
        bounds_hold_slot_by_slot();
        if self.undo.streams.is_some() {
            return bounds_of(self.profile, &self.scanner);
        }
        let mut narrowed = bounds;
        for before in &self.undo.slots {
            narrowed = narrowed_at(narrowed, self.profile, &self.scanner, before.number);
        }
        narrowed
    }
}
