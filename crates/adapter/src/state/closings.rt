//! Replies without an effect, and the closing of connections.

ghost use Rattle.std.specs.Prelude.{◌≡◌, ◌≢◌, [], Ok, Some, None, IfOk};
ghost use Rattle.cip_fwdopen.specs.Close.{view_close};
ghost use Rattle.cip_router.specs.Replies.{view_reply};
ghost use Rattle.cip_router.specs.Requests.{closing};
ghost use Rattle.adapter_table.specs.Requests.{counted_by, known_close, refused_close, found_close, served_close, served_end};
ghost use Rattle.adapter_replies.specs.Routes.{peer_of, routed, routed_answer, IsWritable};
ghost use Rattle.adapter_table.specs.Closing.{closed_table, closed_values};
ghost use Rattle.adapter_table.specs.Counting.{tallied};
ghost use Rattle.adapter_table.specs.declared.counters.Tally.TheVariants as tally;
ghost use Rattle.adapter_table.specs.Ticks.{expired_values};
ghost use Rattle.cip_events.specs.Outcomes.{Follows};

use super::AdapterState;
use adapter_replies::{Route, closed_notices, reply_answer};
use adapter_table::laws::tables_are_whole;
use adapter_table::{Tally, drives};
use assembly_set::AssemblySet;
use cip_fwdopen::CloseRequest;
use cip_fwdopen::service::FORWARD_CLOSE;
use cip_tables::{Answer, Outcome, Refusal, Reply, Row, Status};
use cip_types::{Fault, OutOfMemory};
use indexed_connections::ConnectionTable;

impl<T: ConnectionTable> AdapterState<T> {
    /// A reply without an effect, on a route.
    pub(super) fn reply(&self, route: Route, reply: Reply<'_>) -> Result<Answer, OutOfMemory>
        requires { IsWritable (view_reply reply) }
        ensures { IfOk result (λ answer. answer ≡ routed_answer route (view_reply reply.entry) None []) }
    {
        reply_answer(self.alloc, route, &reply, None, Vec::new(self.alloc))
    }

    /// The close of a connection.
    #[tactic(auto, unfolding(adapter_table::specs::Closing::closed_table))]
    fn close(&mut self, route: Route, row: &Row) -> Outcome
        ensures { Follows (Ok (routed self.old route (Some (record (known_close self.old row.now) {
          table = tallied (Some tally.Closed) (closed_table self.old row.now);
        })))) self.old result self.new }
    {
        // The table stays whole.
        tables_are_whole();
        let dropped = self.table.dropped_with(self.alloc, row.triad)?;
        let notices = closed_notices(self.alloc, row.triad, &dropped)?;
        let reply = Reply::Closed(row.triad);
        let answer = reply_answer(self.alloc, route, &reply, None, notices)?;
        lose_owner(&mut self.assemblies, row);
        self.table.close(row.triad, &dropped);
        self.count(Some(Tally::Closed));
        Ok(answer)
    }

    /// A close that is refused, with its triad: nothing changes but its count.
    fn refuse_close(&mut self, route: Route, request: &CloseRequest<&[u8]>, fault: Fault) -> Outcome
        requires { fault.general ≢ 0 }
        ensures { Follows (Ok (routed self.old route (Some (counted_by (closing (view_close request.now))
            (refused_close self.old (view_close request.now) fault)))))
            self.old result self.new }
    {
        let reply = Reply::Refused(FORWARD_CLOSE, fault, Some(request.triad));
        let answer = self.reply(route, reply)?;
        self.count(Some(Tally::CloseOther));
        Ok(answer)
    }

    /// The close of a connection that is found: another node than the one that opened it is refused, if the maker
    /// says so.
    fn close_found(&mut self, route: Route, request: &CloseRequest<&[u8]>, row: &Row) -> Outcome
        ensures { Follows (Ok (routed self.old route (Some (counted_by (closing (view_close request.now))
            (found_close self.old (peer_of route)
            (view_close request.now) row.now))))) self.old result self.new }
    {
        let limits = self.assemblies.profile().limits;
        if limits.is_wrong_closer(route.peer(), row) {
            let fault = Status::PrivilegeViolation.fault();
            return self.refuse_close(route, request, fault);
        }
        self.close(route, row)
    }

    /// A Forward_Close of a connection of class 1.
    #[tactic(auto, unfolding(adapter_table::specs::Requests::served_close))]
    fn forward_close_class1(&mut self, route: Route, request: &CloseRequest<&[u8]>) -> Outcome
        ensures { Follows (Ok (routed self.old route (Some (counted_by (closing (view_close request.now))
            (served_close self.old (peer_of route)
            (view_close request.now)))))) self.old result self.new }
    {
        match self.table.find(request.triad) {
            Some(row) => self.close_found(route, request, &row),
            None => self.refuse_close(route, request, Refusal::NotFound.fault()),
        }
    }

    /// A Forward_Close: a class 3 connection of the triad is looked for first. Another node than the one that opened
    /// it is refused, if the maker says so.
    #[tactic(auto, unfolding(adapter_table::specs::Requests::served_end))]
    pub fn forward_close(&mut self, route: Route, request: &CloseRequest<&[u8]>) -> Outcome
        ensures { Follows (Ok (routed self.old route (Some (counted_by (closing (view_close request.now))
            (served_end self.old (peer_of route)
            (view_close request.now)))))) self.old result self.new }
    {
        let Some(class3) = self.messaging.find_triad(request.triad) else {
            return self.forward_close_class1(route, request);
        };
        let limits = self.assemblies.profile().limits;
        let triad = class3.triad;
        if limits.is_wrong_ender(route.peer(), class3) {
            let fault = Status::PrivilegeViolation.fault();
            return self.refuse_close(route, request, fault);
        }
        self.close_class3(route, triad)
    }
}

/// Does the fault action of the output that a connection drives, if it drives one. Takes no memory.
fn lose_owner(assemblies: &mut AssemblySet, row: &Row)
    ensures { assemblies.new
        ≡ record assemblies.old { values = closed_values assemblies.old.profile row.now assemblies.old.values } }
{
    if drives(row, row.consumed) {
        assemblies.lose(row.consumed);
    }
}

/// Does the fault action of each output that one of the connections drives. Takes no memory.
pub(super) fn lose_owners(assemblies: &mut AssemblySet, timed_out: &[Row])
    ensures { assemblies.new
        ≡ record assemblies.old { values = expired_values assemblies.old.profile timed_out.now assemblies.old.values } }
{
    for row in timed_out {
        lose_owner(assemblies, row);
    }
}
