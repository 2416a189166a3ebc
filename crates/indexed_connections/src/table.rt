//! The table of connections with indexes, counts and bounds.

ghost use Rattle.std.specs.Prelude.{◌≡◌, ◌||◌, true, false};
ghost use Rattle.std.specs.List.{list_any};
ghost use Rattle.adapter_table.specs.Ticks.{has_expired};
ghost use Rattle.conn_slab.specs.Bounds.{NotDueBefore, AllNotDueBefore};
ghost use Rattle.conn_slab.specs.Connections.{is_listening, is_changing};
ghost use Rattle.indexed_connections.specs.ConsumerTables.{consumers_by_producer};

use crate::counts::{close, close_each, counted, expire, open};
use crate::expiries::{expired, has_any_run_out, has_any_timed_out, is_any_left};
use crate::from_list::{from_rows, replaced};
use crate::list::{
    ConnectionTable, ReceivedDatagram, TickPlan, dropped_with, sent_on_change, sent_when_due,
    tick_plan, written_rows,
};
use crate::queries::{
    count_consuming, first_due, first_member, first_owner, is_any_established, is_any_owning,
    is_any_running, is_any_timed_out, is_changing, is_listening, kind_count, node_count, nth,
};
use crate::{ConsumerTable, changed_datagrams, due_datagrams, remaining_datagrams};
use adapter_table::{IoState, Profile, Row, State};
use app_rules::{ConnectionsView, Rules};
use assembly_set::AssemblySet;
use cip_datagram::Datagram;
use cip_events::OutgoingDatagram;
use cip_productions::Kind;
use cip_types::limits::MOST_CONNECTIONS;
use cip_types::{Ms, Node, OutOfMemory, Triad};
use std::alloc::Global;
use std::marker::Model;

/// Connections in a slab, running counts of their owners and supporters, bounds on their times, and the consumers of
/// their producers.
///
/// A datagram finds its connection by peer and O->T id, and a tick at which nothing happens compares two times.
#[derive(Drop)]
pub struct IndexedConnections {
    connections: conn_slab::Connections,
    rules: Rules,
    /// If this is false, there is no established listen-only connection.
    listening: bool,
    /// If this is false, no producer produces at changes of state.
    changing: bool,
    /// No watchdog runs out before this.
    next_watchdog: u64,
    /// No producer is due before this.
    next_production: u64,
    /// Whether the consumer table is that of the connections.
    consumers_valid: bool,
    consumer_table: ConsumerTable,
}

impl Model for IndexedConnections {
    ghost use Rattle.std.specs.Prelude.{List};
    ghost use Rattle.adapter_table.specs.Connections.{Row};
    ghost use Rattle.indexed_connections.specs.Layout.{AreConsistent};

    ghost Value = { List Row };

    ghost view = { λ t. t.connections };

    ghost invariant = { λ t. AreConsistent t.connections t.rules t.listening t.changing t.next_watchdog t.next_production t.consumers_valid t.consumer_table };
}

/// When the producer of a connection is due; `u64::MAX` for a timed-out one.
fn due_of(row: &Row) -> u64
    ensures { NotDueBefore result row.now }
{
    match row.state {
        State::Established(production) => production.due.0,
        State::TimedOut => u64::MAX,
    }
}

/// Whether there may be a listen-only connection once this one is added.
fn listens_with(listening: bool, row: &Row) -> bool
    ensures { result ≡ (listening || is_listening row.now) }
{
    listening || is_listening(row)
}

/// Whether there may be a producer of changes of state once this connection is added.
fn changes_with(changing: bool, row: &Row) -> bool
    ensures { result ≡ (changing || is_changing row.now) }
{
    changing || is_changing(row)
}

/// A time before which no producer is due, after a write: the present bound, if none produces at changes of state.
fn next_due_after_write(
    connections: &conn_slab::Connections,
    changing: bool,
    next_production: u64,
) -> u64
    requires { changing ≡ false → AllNotDueBefore next_production connections.now }
    ensures { AllNotDueBefore result connections.now }
{
    if changing {
        return connections.first_due();
    }
    next_production
}

/// A time before which no producer is due: the present bound, until the clock reaches it.
fn next_due_from(connections: &conn_slab::Connections, clock: Ms, next_production: u64) -> u64
    requires { AllNotDueBefore next_production connections.now }
    ensures { AllNotDueBefore result connections.now }
{
    if clock.0 < next_production || connections.is_any_due(clock) {
        return next_production;
    }
    connections.first_due()
}

/// Whether the consumer table is valid. If it is needed and is not valid, it is built anew. Takes no memory.
fn refresh_consumers(
    consumer_table: &mut ConsumerTable,
    connections: &conn_slab::Connections,
    consumers_valid: bool,
    needed: bool,
) -> bool
    requires { consumers_valid ≡ true → consumer_table.old ≡ consumers_by_producer connections.now }
    ensures { result ≡ true → consumer_table.new ≡ consumers_by_producer connections.now }
{
    if consumers_valid || !needed {
        return consumers_valid;
    }
    consumer_table.rebuild(connections)
}

impl IndexedConnections {
    /// Whether the deadline of an established connection has been reached, once the clock has reached a bound. It
    /// renews the bounds, and the consumer table if a producer may be due. Takes no memory.
    #[inline(never)]
    fn look(&mut self, clock: Ms) -> bool
        ensures expired { result ≡ list_any (has_expired clock) self.old }
        ensures same { self.new ≡ self.old }
    {
        self.next_production = next_due_from(&self.connections, clock, self.next_production);
        let needed = clock.0 >= self.next_production;
        self.consumers_valid = refresh_consumers(
            &mut self.consumer_table,
            &self.connections,
            self.consumers_valid,
            needed,
        );
        if clock.0 < self.next_watchdog {
            return false;
        }
        self.next_watchdog = self.connections.next_watchdog();
        has_any_run_out(self.connections.peers(), clock)
    }
}

impl ConnectionsView for IndexedConnections {
    ghost rows = { λ t. t };

    fn is_open(&self, triad: Triad) -> bool {
        self.connections.is_open(triad)
    }

    fn has_established(&self) -> bool {
        is_any_established(self.connections.rows())
    }

    fn is_driven(&self, point: u32) -> bool {
        self.rules.owners(point) != 0
    }

    fn group_of(&self, point: u32) -> Option<Row> {
        first_member(self.connections.rows(), point)
    }

    fn is_supported(&self, point: u32) -> bool {
        self.rules.supporters(point) != 0
    }

    fn kind_count(&self, kind: Kind) -> usize {
        kind_count(self.connections.rows(), kind)
    }

    fn node_count(&self, node: Node) -> usize {
        node_count(self.connections.rows(), node)
    }

    fn is_full(&self) -> bool {
        self.connections.len() >= MOST_CONNECTIONS
    }

    fn has_timed_out(&self) -> bool {
        has_any_timed_out(self.connections.peers())
    }
}

impl ConnectionTable for IndexedConnections {
    fn new(alloc: Global) -> Result<Self, OutOfMemory> {
        Ok(IndexedConnections {
            connections: conn_slab::Connections::new(alloc)?,
            rules: Rules::new(alloc)?,
            listening: false,
            changing: false,
            next_watchdog: u64::MAX,
            next_production: u64::MAX,
            consumers_valid: false,
            consumer_table: ConsumerTable::new(alloc)?,
        })
    }

    fn holding(alloc: Global, rows: &[Row]) -> Result<Self, OutOfMemory> {
        let connections = from_rows(alloc, rows)?;
        let rules = counted(alloc, rows)?;
        let listening = connections.has_listeners();
        let changing = connections.has_changing();
        let next_watchdog = connections.next_watchdog();
        let next_production = connections.first_due();
        Ok(IndexedConnections {
            connections,
            rules,
            listening,
            changing,
            next_watchdog,
            next_production,
            consumers_valid: false,
            consumer_table: ConsumerTable::new(alloc)?,
        })
    }

    fn to_vec(&self, alloc: Global) -> Result<Vec<Row>, OutOfMemory> {
        self.connections.to_vec(alloc)
    }

    fn len(&self) -> usize {
        self.connections.len()
    }

    fn nth(&self, place: usize) -> Option<Row> {
        nth(self.connections.rows(), place)
    }

    fn owner(&self, point: u32) -> Option<Row> {
        first_owner(self.connections.rows(), point)
    }

    fn count_consuming(&self, kind: Kind, point: u32) -> usize {
        count_consuming(self.connections.rows(), kind, point)
    }

    fn io_state(&self) -> IoState {
        IoState {
            owned: is_any_owning(self.connections.rows()),
            running: is_any_running(self.connections.rows()),
            established: is_any_established(self.connections.rows()),
            timed_out: is_any_timed_out(self.connections.rows()),
        }
    }

    fn find(&self, triad: Triad) -> Option<Row> {
        self.connections.of(triad)
    }

    fn replaced(&self, triad: Triad) -> Option<Triad> {
        replaced(&self.connections, triad)
    }

    fn open(&mut self, replaced: Option<Triad>, row: Row) -> Result<(), OutOfMemory> {
        open(&mut self.connections, &mut self.rules, replaced, row)?;
        self.next_watchdog = self.next_watchdog.min(row.deadline.0);
        self.next_production = self.next_production.min(due_of(&row));
        self.listening = listens_with(self.listening, &row);
        self.changing = changes_with(self.changing, &row);
        self.consumers_valid = false;
        Ok(())
    }

    fn dropped_with(&self, alloc: Global, triad: Triad) -> Result<Vec<Triad>, OutOfMemory> {
        if !self.listening {
            return Ok(Vec::new(alloc));
        }
        dropped_with(alloc, self.connections.to_vec(alloc)?, triad)
    }

    fn close(&mut self, triad: Triad, dropped: &[Triad]) {
        self.consumers_valid = false;
        close(&mut self.connections, &mut self.rules, triad);
        close_each(&mut self.connections, &mut self.rules, dropped);
    }

    fn receive<'a>(
        &mut self,
        profile: &Profile,
        clock: Ms,
        peer: Node,
        datagram: &Datagram<'a>,
    ) -> Option<ReceivedDatagram<'a>> {
        let received = self.connections.receive(profile, clock, peer, datagram)?;
        self.next_watchdog = self.next_watchdog.min(received.deadline.0);
        Some(ReceivedDatagram {
            judgement: received.judgement,
            consumed: received.consumed,
        })
    }

    #[inline(always)]
    fn has_expired(&mut self, clock: Ms) -> bool {
        if clock.0 < self.next_production && clock.0 < self.next_watchdog {
            return false;
        }
        self.look(clock)
    }

    #[inline(always)]
    fn is_due(&self, clock: Ms) -> bool {
        if clock.0 < self.next_production {
            return false;
        }
        self.connections.is_any_due(clock)
    }

    fn first_due(&self) -> Ms {
        // A datagram moves a deadline and not the bound, so the connections say it.
        Ms(first_due(self.connections.rows()))
    }

    fn sent_when_due(
        &self,
        alloc: Global,
        assemblies: &AssemblySet,
        clock: Ms,
    ) -> Result<Vec<OutgoingDatagram>, OutOfMemory> {
        if self.consumers_valid {
            return due_datagrams(
                alloc,
                &self.consumer_table,
                &self.connections,
                assemblies,
                clock,
            );
        }
        let rows = self.connections.to_vec(alloc)?;
        sent_when_due(alloc, &rows, assemblies, clock)
    }

    fn produce(&mut self, clock: Ms) {
        self.connections.produce(clock);
        self.next_production = self.connections.first_due();
    }

    fn tick_plan(
        &self,
        alloc: Global,
        assemblies: &AssemblySet,
        clock: Ms,
    ) -> Result<TickPlan, OutOfMemory> {
        if self.listening || !self.consumers_valid {
            return tick_plan(alloc, self.connections.to_vec(alloc)?, assemblies, clock);
        }
        let expired = expired(alloc, self.connections.rows(), clock)?;
        if is_any_left(self.connections.peers(), &expired, clock) {
            return tick_plan(alloc, self.connections.to_vec(alloc)?, assemblies, clock);
        }
        let datagrams = remaining_datagrams(
            alloc,
            &self.consumer_table,
            &self.connections,
            assemblies,
            clock,
            &expired,
        )?;
        Ok(TickPlan {
            expired,
            dropped: Vec::new(alloc),
            datagrams,
        })
    }

    fn advance(&mut self, clock: Ms, timed_out: &[Row], dropped: &[Triad]) {
        self.consumers_valid = false;
        expire(&mut self.connections, &mut self.rules, timed_out);
        close_each(&mut self.connections, &mut self.rules, dropped);
        self.listening = self.connections.has_listeners();
        self.changing = self.connections.has_changing();
        self.connections.produce(clock);
        self.next_watchdog = self.connections.next_watchdog();
        self.next_production = self.connections.first_due();
    }

    fn produces_at_once(&self, clock: Ms, point: u32) -> bool {
        if !self.changing {
            return false;
        }
        self.connections.is_any_at_once(clock, point)
    }

    fn sent_on_change(
        &self,
        alloc: Global,
        clock: Ms,
        point: u32,
        input: &[u8],
    ) -> Result<Vec<OutgoingDatagram>, OutOfMemory> {
        if self.consumers_valid {
            return changed_datagrams(
                alloc,
                &self.consumer_table,
                &self.connections,
                clock,
                point,
                input,
            );
        }
        let rows = self.connections.to_vec(alloc)?;
        let written = written_rows(alloc, &rows, point)?;
        sent_on_change(alloc, &written, clock, point, input)
    }

    fn write(&mut self, clock: Ms, point: u32) {
        self.connections.write(point, clock);
        self.next_production = next_due_after_write(
            &self.connections,
            self.changing,
            self.next_production,
        );
    }
}
