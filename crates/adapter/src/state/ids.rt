//! A further block of connection ids.

ghost use Rattle.adapter_table.specs.Step.{take_ids};
ghost use Rattle.cip_events.specs.Outcomes.{Follows};

use super::AdapterState;
use adapter_table::laws::tables_are_whole;
use cip_tables::{Answer, Outcome, StepFault, Verdict};
use cip_types::{IdBlock, add_block, may_take};
use indexed_connections::ConnectionTable;

impl<T: ConnectionTable> AdapterState<T> {
    /// Takes a further block of connection ids, if it has none of those that the device holds.
    ///
    /// Volume 1, chapter 3, network connection ids.
    #[tactic(auto, unfolding(adapter_table::specs::Step::take_ids))]
    pub fn take_ids(&mut self, block: IdBlock) -> Outcome
        ensures { Follows (take_ids self.old block) self.old result self.new }
    {
        // The table stays whole.
        tables_are_whole();
        if !may_take(&self.ids, block) {
            return Err(StepFault::NotAllowedNow);
        }
        add_block(&mut self.ids, block)?;
        Ok(Answer::plain(self.alloc, Verdict::Done))
    }
}
