//! The passing of time.

ghost use Rattle.std.specs.Prelude.{◌≡◌, ◌+◌, [], Ok, ◌≤◌, false, ◌^◌, length};
ghost use Rattle.cip_events.specs.Outcomes.{Follows};
ghost use Rattle.std.specs.List.{list_any};
ghost use Rattle.adapter_table.specs.Productions.{is_due};
ghost use Rattle.adapter_table.specs.Ticks.{advanced, aged_next, clocked_table, has_expired, tick};
ghost use Rattle.adapter_table.specs.Counters.{timed_out};
ghost use Rattle.messaging.specs.Times.{late_class3_connections};

use super::AdapterState;
use super::closings::lose_owners;
use adapter_replies::{late_answer, late_frames, late_notices, notices_answer};
use adapter_table::laws::tables_are_whole;
use adapter_table::{DeviceCounters, Row};
use cip_tables::{Answer, Outcome, StepFault, Verdict};
use cip_types::limits::{CLOCK_END_MS, LONGEST_TICK_MS};
use cip_types::{Ms, Triad};
use indexed_connections::{ConnectionTable, TickPlan};

impl<T: ConnectionTable> AdapterState<T> {
    /// Milliseconds pass in which no connection times out.
    #[inline(never)]
    fn produce(&mut self, ms: u32) -> Outcome
        requires time { self.old.clock.0 + ms ≤ 2 ^ 48 }
        requires unexpired { list_any (has_expired (record { 0 = self.old.clock.0 + ms })) self.old.rows ≡ false }
        requires none_late { late_class3_connections (record { 0 = self.old.clock.0 + ms }) self.old.messaging ≡ [] }
        ensures { Follows (Ok (advanced (clocked_table self.old ms))) self.old result self.new }
    {
        // The table stays whole.
        tables_are_whole();
        let clock = Ms(self.clock.0 + u64::from(ms));
        let datagrams = self
            .table
            .sent_when_due(self.alloc, &self.assemblies, clock)?;
        self.clock = clock;
        self.table.produce(clock);
        Ok(notices_answer(self.alloc, datagrams, Vec::new(self.alloc)))
    }

    /// Milliseconds pass in which no connection times out and no producer is due.
    #[inline(always)]
    fn wait(&mut self, ms: u32) -> Outcome
        requires time { self.old.clock.0 + ms ≤ 2 ^ 48 }
        requires unexpired { list_any (has_expired (record { 0 = self.old.clock.0 + ms })) self.old.rows ≡ false }
        requires none_late { late_class3_connections (record { 0 = self.old.clock.0 + ms }) self.old.messaging ≡ [] }
        requires none_due { list_any (is_due (record { 0 = self.old.clock.0 + ms })) self.old.rows ≡ false }
        ensures { Follows (Ok (advanced (clocked_table self.old ms))) self.old result self.new }
    {
        self.clock = Ms(self.clock.0 + u64::from(ms));
        Ok(Answer::plain(self.alloc, Verdict::Done))
    }

    /// Whether the deadline of a connection has been reached at a later time.
    #[inline(always)]
    fn has_expired(&mut self, clock: Ms) -> bool
        ensures expired { result ≡ list_any (has_expired clock) self.old.rows }
        ensures same { self.new ≡ self.old }
    {
        self.table.has_expired(clock)
    }

    /// Milliseconds pass in which no connection times out, and producers may be due.
    #[inline(always)]
    fn advance(&mut self, ms: u32) -> Outcome
        requires time { self.old.clock.0 + ms ≤ 2 ^ 48 }
        requires unexpired { list_any (has_expired (record { 0 = self.old.clock.0 + ms })) self.old.rows ≡ false }
        requires none_late { late_class3_connections (record { 0 = self.old.clock.0 + ms }) self.old.messaging ≡ [] }
        ensures { Follows (Ok (advanced (clocked_table self.old ms))) self.old result self.new }
    {
        if self.table.is_due(Ms(self.clock.0 + u64::from(ms))) {
            return self.produce(ms);
        }
        self.wait(ms)
    }

    /// Milliseconds pass in which connections may time out, or the device answers in place of the application.
    ///
    /// The whole answer is made, and the class 3 connections age, before anything else changes.
    #[inline(never)]
    #[tactic(auto, unfolding(adapter_table::specs::Ticks::clocked_table, adapter_table::specs::Ticks::expired_table, adapter_table::specs::Ticks::produced_table, adapter_table::specs::Messages::messages_table))]
    fn age(&mut self, ms: u32) -> Outcome
        requires { self.old.clock.0 + ms ≤ 2 ^ 48 }
        ensures { Follows (Ok (aged_next (advanced (clocked_table self.old ms)))) self.old result self.new }
    {
        // The table stays whole.
        tables_are_whole();
        let clock = Ms(self.clock.0 + u64::from(ms));
        let TickPlan {
            expired: timed_out,
            dropped,
            datagrams,
        } = self.table.tick_plan(self.alloc, &self.assemblies, clock)?;
        let ended = self.messaging.late_triads(self.alloc, clock)?;
        let notices = late_notices(self.alloc, &timed_out, &dropped, &ended)?;
        let frames = late_frames(self.alloc, &self.messaging, clock)?;
        self.messaging.age(self.alloc, clock)?;
        lose_owners(&mut self.assemblies, &timed_out);
        self.clock = clock;
        self.table.advance(clock, &timed_out, &dropped);
        count_late(&mut self.counters, &timed_out, &ended);
        Ok(late_answer(frames, datagrams, notices))
    }

    /// Milliseconds pass that do not lead past the end of the clock, and all connections age.
    #[inline(always)]
    #[tactic(auto, using(crate::proofs::Aging::idle_next))]
    fn pass(&mut self, ms: u32) -> Outcome
        requires { self.old.clock.0 + ms ≤ 2 ^ 48 }
        ensures { Follows (Ok (aged_next (advanced (clocked_table self.old ms)))) self.old result self.new }
    {
        let clock = Ms(self.clock.0 + u64::from(ms));
        if self.messaging.is_idle(clock) && !self.has_expired(clock) {
            return self.advance(ms);
        }
        self.age(ms)
    }

    /// Milliseconds pass.
    #[inline(always)]
    #[tactic(auto, unfolding(adapter_table::specs::Ticks::tick))]
    pub fn tick(&mut self, ms: u32) -> Outcome
        ensures { Follows (tick self.old ms) self.old result self.new }
    {
        if ms > LONGEST_TICK_MS {
            return Err(StepFault::TickTooLong);
        }
        if self.clock.0 + u64::from(ms) > CLOCK_END_MS {
            return Err(StepFault::ClockEnd);
        }
        self.pass(ms)
    }
}

/// Counts connections of both classes that time out. Takes no memory.
fn count_late(counters: &mut DeviceCounters, expired: &[Row], ended: &[Triad])
    ensures { counters.new ≡ record counters.old {
      manager = timed_out (length expired.now + length ended.now) counters.old.manager;
    } }
{
    let manager = counters.manager.timed_out(expired.len() + ended.len());
    counters.manager = manager;
}
