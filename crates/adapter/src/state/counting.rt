//! What is counted of requests, and what the host says of its interface.

ghost use Rattle.std.specs.Prelude.{◌≡◌, Ok, Some};
ghost use Rattle.adapter_table.specs.Counters.{refused_tally};
ghost use Rattle.adapter_table.specs.Counting.{tallied};
ghost use Rattle.adapter_table.specs.Requests.{router_refusal};
ghost use Rattle.adapter_table.specs.Step.{counters_said};
ghost use Rattle.adapter_replies.specs.Serving.{finished};
ghost use Rattle.cip_events.specs.Outcomes.{Follows};

use super::AdapterState;
use adapter_replies::{Route, reply_and_text};
use adapter_table::laws::tables_are_whole;
use adapter_table::{LINK_COUNTERS, Tally, refused_tally};
use cip_tables::{Answer, Outcome, Reply, Status, StepFault, Verdict};
use cip_types::Items;
use indexed_connections::ConnectionTable;

impl<T: ConnectionTable> AdapterState<T> {
    /// A request is counted, if it is one to open or to close a connection. Takes no memory.
    pub(super) fn count(&mut self, tally: Option<Tally>)
        ensures { self.new ≡ tallied tally self.old }
    {
        // The table stays whole.
        tables_are_whole();
        let manager = self.counters.manager.counted_if(tally);
        self.counters.manager = manager;
    }

    /// A request that the message router refuses, and that is counted, if it is one to open or to close a connection.
    pub fn refuse_counted(&mut self, route: Route, service: u8, why: Status) -> Outcome
        ensures { Follows (Ok (finished self.old route (Some (record (router_refusal self.old service why) {
          table = tallied (refused_tally service why) self.old;
        })))) self.old result self.new }
    {
        let reply = Reply::Refused(service, why.fault(), None);
        let (answer, text) = reply_and_text(self.alloc, route, &reply, Vec::new(self.alloc))?;
        let answer = self.keep(route, text, answer)?;
        self.count(refused_tally(service, why));
        Ok(answer)
    }

    /// The host says what it has counted of the interface.
    ///
    /// The faults, in order: `NotAllowedNow` if the device is not described, `WrongLength`, `OutOfMemory`.
    #[tactic(auto, unfolding(adapter_table::specs::Step::counters_said))]
    pub fn say_counters(&mut self, bytes: &[u8]) -> Outcome
        ensures { Follows (counters_said self.old bytes.now) self.old result self.new }
    {
        if self.assemblies.profile().description.is_none() {
            return Err(StepFault::NotAllowedNow);
        }
        if bytes.len() != LINK_COUNTERS {
            return Err(StepFault::WrongLength);
        }
        // The table stays whole.
        tables_are_whole();
        let link = Items::copy_of(self.alloc, bytes)?;
        self.counters.link = link;
        Ok(Answer::plain(self.alloc, Verdict::Done))
    }
}
