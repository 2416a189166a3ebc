//! Ticks.

ghost use Rattle.std.specs.Prelude.{IfOk, ℕ, ◌≡◌, ◌<◌, ◌≤◌, ◌+◌, ◌^◌, false, map, Ok, None};
ghost use Rattle.std.specs.List.{list_any};
ghost use Rattle.cip_events.specs.Answers.{plain_answer};
ghost use Rattle.cip_events.specs.Clock.{longest_tick, clock_end};
ghost use Rattle.cip_events.specs.Outcomes.{Follows};
ghost use Rattle.cip_tables.specs.declared.table.DeviceTable.{DeviceTable};
ghost use Rattle.cip_tables.specs.Wakes.{due_in};
ghost use Rattle.scanner_table.specs.Effects.{nothing};
ghost use Rattle.scanner_table.specs.Explicit.{is_late};
ghost use Rattle.scanner_table.specs.Opening.{later};
ghost use Rattle.scanner_table.specs.Ticks.{clocked_table, moved_on, ticked, tick};
ghost use Rattle.scanner_table.specs.Profiles.{profile_fault};
ghost use Rattle.scanner_table.specs.WellFormed.{IsWellFormed};
ghost use Rattle.scanner_slots.specs.Bounding.{IsHinted, at_time};
ghost use Rattle.cip_productions.specs.Productions.{sent};
ghost use Rattle.scanner_table.specs.Productions.{due_productions};
ghost use Rattle.scanner_transactions.specs.Transactions.{begun, followed, view_transaction, IsFresh};
ghost use Rattle.scanner_transactions.specs.Undoing.{state_before};
ghost use Rattle.scanner.specs.Tables.{table_in};

use crate::answers::{commit, roll_back, sent_answer};
use crate::slots::ScannerSlots;
use cip_events::{Answer, Outcome, OutgoingDatagram, StepFault, Verdict};
use cip_types::limits::{CLOCK_END_MS, LONGEST_TICK_MS};
use cip_types::{Ms, OutOfMemory};
use explicit_requests::{
    ExplicitEnd, ends_any, explicit_requests_rest, first_deadline, later_deadlines_end_nothing,
};
use scanner_data::{due_datagrams, produce};
use scanner_slots::{
    Bounds, Hints, bounds_are_kept_by_earlier_ones, bounds_of, connections_rest_before_bounds,
    first_due, hints_are_times, producers_rest_before_bounds,
};
use scanner_table::advancing_keeps_tables_well_formed;
use scanner_transactions::{Transaction, move_on};

/// Performs the part of a tick before its productions, in a transaction that has just begun, and makes the datagrams of the
/// slots that are due then. The clock does not pass its end.
fn moved_on(
    transaction: &mut Transaction<'_>,
    ms: u32,
) -> Result<Vec<OutgoingDatagram>, OutOfMemory>
    requires whole { IsWellFormed (view_transaction transaction.old).table }
    requires fresh { IsFresh transaction.old }
    requires time { transaction.old.scanner.clock.0 + ms ≤ 2 ^ 48 }
    ensures effect { let t = clocked_table (view_transaction transaction.old).table ms in IfOk result
        (λ _. view_transaction transaction.new ≡ followed (begun t) (moved_on t)) }
    ensures datagrams { IfOk result
        (λ datagrams. datagrams.items ≡ map sent (due_productions (view_transaction transaction.new).table)) }
    ensures whole { IfOk result (λ _. IsWellFormed (view_transaction transaction.new).table) }
    ensures profile { transaction.new.profile.now ≡ transaction.old.profile.now }
    ensures kept { state_before transaction.new ≡ state_before transaction.old }
{
    // The due slots produce from a whole table.
    advancing_keeps_tables_well_formed();
    transaction.scanner.clock = Ms(transaction.scanner.clock.0 + u64::from(ms));
    move_on(transaction)?;
    let scanner = &transaction.scanner;
    let datagrams = due_datagrams(
        transaction.alloc,
        transaction.profile,
        scanner,
        scanner.clock,
    )?;
    Ok(datagrams)
}

impl ScannerSlots {
    /// Moves the clock to a time by which no connection changes: only due slots send.
    fn pass(&mut self, clock: Ms) -> Outcome
        requires whole { IsWellFormed (table_in self.old) }
        requires time { clock.0 ≤ 2 ^ 48 }
        requires quiet { moved_on (at_time (table_in self.old) clock) ≡ nothing (at_time (table_in self.old) clock) }
        ensures step { Follows (Ok (ticked (moved_on (at_time (table_in self.old) clock))))
            (table_in self.old) result (table_in self.new) }
        ensures profile { self.new.profile ≡ self.old.profile }
    {
        let datagrams = due_datagrams(self.alloc, &self.profile, &self.state, clock)?;
        produce(&mut self.state, clock);
        Ok(sent_answer(self.alloc, datagrams))
    }

    /// Performs a tick in which connections change: then due slots send. The clock does not pass its end.
    fn advance_by(&mut self, ms: u32) -> Outcome
        requires whole { IsWellFormed (table_in self.old) }
        requires time { self.old.state.clock.0 + ms ≤ 2 ^ 48 }
        ensures step { Follows (Ok (ticked (moved_on (clocked_table (table_in self.old) ms))))
            (table_in self.old) result (table_in self.new) }
        ensures profile { self.new.profile ≡ self.old.profile }
    {
        let mut transaction = Transaction::begin(self.alloc, &self.profile, &mut self.state);
        match moved_on(&mut transaction, ms) {
            Ok(datagrams) => {
                let answer = commit(transaction, &mut self.state, datagrams);
                let clock = self.state.clock;
                produce(&mut self.state, clock);
                Ok(answer)
            }
            Err(_) => Err(roll_back(transaction, &mut self.state, StepFault::OutOfMemory)),
        }
    }

    /// Takes the bounds of the slots anew.
    pub fn renew<H: Hints>(&self, hints: &mut H)
        requires { profile_fault self.now.profile ≡ None }
        ensures { IsHinted (H.bounds hints.new) (table_in self.now) }
    {
        // Earlier bounds hold where these do.
        bounds_are_kept_by_earlier_ones();
        hints.set_bounds(bounds_of(&self.profile, &self.state));
    }

    /// Returns the bounds, taken anew if they allow a change by this time.
    fn present_bounds(&self, bounds: Bounds, clock: Ms) -> Bounds
        requires faultless { profile_fault self.now.profile ≡ None }
        requires hints { IsHinted bounds (table_in self.now) }
        ensures { IsHinted result (table_in self.now) }
    {
        if bounds.allow_changes(clock) {
            return bounds_of(&self.profile, &self.state);
        }
        bounds
    }

    /// Performs a tick by which connections may change, or slots may be due. The clock does not pass its end.
    fn advance_within(&mut self, bounds: Bounds, ms: u32) -> Outcome
        requires whole { IsWellFormed (table_in self.old) }
        requires hints { IsHinted bounds (table_in self.old) }
        requires time { self.old.state.clock.0 + ms ≤ 2 ^ 48 }
        ensures step { Follows (Ok (ticked (moved_on (clocked_table (table_in self.old) ms))))
            (table_in self.old) result (table_in self.new) }
        ensures profile { self.new.profile ≡ self.old.profile }
    {
        // Before the bounds, no connection changes, and before the deadlines no explicit request ends.
        hints_are_times();
        connections_rest_before_bounds();
        explicit_requests_rest();
        let clock = Ms(self.state.clock.0 + u64::from(ms));
        if self.present_bounds(bounds, clock).allow_changes(clock) {
            return self.advance_by(ms);
        }
        if self.is_explicit_late(clock) {
            return self.advance_by(ms);
        }
        self.pass(clock)
    }

    /// Performs a tick that reaches a bound. The clock does not pass its end.
    #[inline(never)]
    fn reach<H: Hints>(&mut self, hints: &mut H, ms: u32) -> Outcome
        requires whole { IsWellFormed (table_in self.old) }
        requires hints { IsHinted (H.bounds hints.old) (table_in self.old) }
        requires time { self.old.state.clock.0 + ms ≤ 2 ^ 48 }
        ensures step { Follows (Ok (ticked (moved_on (clocked_table (table_in self.old) ms))))
            (table_in self.old) result (table_in self.new) }
        ensures hints { IsHinted (H.bounds hints.new) (table_in self.new) }
    {
        let outcome = self.advance_within(hints.bounds(), ms);
        self.renew(hints);
        outcome
    }

    /// Returns whether the deadline of an explicit request has come at a time. Without a request that is one comparison.
    #[inline(always)]
    fn is_explicit_late(&self, clock: Ms) -> bool
        ensures { result ≡ list_any (is_late clock) (table_in self.now).explicit }
    {
        ends_any(ExplicitEnd::Late(clock), &self.state.explicit)
    }

    /// Returns in how many milliseconds a slot or an explicit request is due, at most the longest tick: each tick of fewer
    /// answers nothing, and moves the clock alone. Takes no memory.
    ///
    /// The bounds do not say it, since a datagram moves a deadline and not its bound.
    #[tactic(auto, unfolding(scanner_table::specs::Ticks::tick))]
    pub fn due_in(&self) -> Ms
        requires { IsWellFormed (table_in self.now) }
        ensures due { result.0 ≡ due_in (DeviceTable.Scanner (table_in self.now)) }
        ensures quiet { let t = table_in self.now in (ms : ℕ) → ms < result.0 → ms ≤ longest_tick
            → t.clock.0 + ms ≤ clock_end → tick t ms ≡ Ok (plain_answer Verdict.Done, clocked_table t ms) }
        ensures longest { result.0 ≤ longest_tick }
    {
        // Before the bounds, no connection changes and no slot produces; before the deadlines no explicit request ends.
        connections_rest_before_bounds();
        producers_rest_before_bounds();
        later_deadlines_end_nothing();
        explicit_requests_rest();
        let due = first_due(&self.profile, &self.state);
        let late = first_deadline(&self.state.explicit);
        let wait = due.0.min(late.0).saturating_sub(self.state.clock.0);
        Ms(wait.min(u64::from(LONGEST_TICK_MS)))
    }

    /// Performs a tick by which nothing happens: the clock moves.
    #[inline(always)]
    fn rest(&mut self, bounds: Bounds, ms: u32) -> Outcome
        requires whole { IsWellFormed (table_in self.old) }
        requires hints { IsHinted bounds (table_in self.old) }
        requires time { self.old.state.clock.0 + ms ≤ 2 ^ 48 }
        requires ends { self.old.state.clock.0 + ms < bounds.deadlines.0 }
        requires retries { self.old.state.clock.0 + ms < bounds.retries.0 }
        requires dues { self.old.state.clock.0 + ms < bounds.dues.0 }
        requires explicit { list_any (is_late (later self.old.state.clock ms)) (table_in self.old).explicit ≡ false }
        ensures step { Follows (Ok (ticked (moved_on (clocked_table (table_in self.old) ms))))
            (table_in self.old) result (table_in self.new) }
        ensures hints { IsHinted bounds (table_in self.new) }
    {
        // Before the bounds, no connection changes and no slot produces; before the deadlines no explicit request ends.
        hints_are_times();
        connections_rest_before_bounds();
        producers_rest_before_bounds();
        explicit_requests_rest();
        self.state.clock = Ms(self.state.clock.0 + u64::from(ms));
        Ok(Answer::plain(self.alloc, Verdict::Done))
    }

    /// Performs a tick. The errors, in order: `TickTooLong`, `ClockEnd`, `OutOfMemory`.
    #[inline(always)]
    #[tactic(auto, unfolding(scanner_table::specs::Ticks::tick))]
    pub fn tick<H: Hints>(&mut self, hints: &mut H, ms: u32) -> Outcome
        requires whole { IsWellFormed (table_in self.old) }
        requires hints { IsHinted (H.bounds hints.old) (table_in self.old) }
        ensures step { Follows (tick (table_in self.old) ms) (table_in self.old) result (table_in self.new) }
        ensures hints { IsHinted (H.bounds hints.new) (table_in self.new) }
    {
        if ms > LONGEST_TICK_MS {
            return Err(StepFault::TickTooLong);
        }
        let clock = Ms(self.state.clock.0 + u64::from(ms));
        if clock.0 > CLOCK_END_MS {
            return Err(StepFault::ClockEnd);
        }
        let bounds = hints.bounds();
        if bounds.are_after(clock) && !self.is_explicit_late(clock) {
            return self.rest(bounds, ms);
        }
        self.reach(hints, ms)
    }
}
