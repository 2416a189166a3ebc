//! The connections of an adapter.

ghost use Rattle.std.specs.Prelude.{◌≡◌, ◌≤◌, ◌<◌, ◌==◌, ◌^◌, ◌++◌, ◌∷◌, [], Some, true, OnOk, OnErr, IfOk, find, map, length};
ghost use Rattle.std.specs.List.{list_any};
ghost use Rattle.slab.specs.Slab.{HasRoomFor};
ghost use Rattle.indexmap.specs.IndexMap.{spare};
ghost use Rattle.adapter_table.specs.Rows.{has_triad, holds_triad, written_row};
ghost use Rattle.adapter_table.specs.Productions.{is_due, is_produced_by, group, produced_row, produces_on_change, changed_row};
ghost use Rattle.adapter_table.specs.Closing.{without_triad};
ghost use Rattle.adapter_table.specs.Datagrams.{is_for};
ghost use Rattle.adapter_table.specs.Whole.{RowsFit};
ghost use Rattle.cip_datagram.specs.Datagram.{view_datagram};
ghost use Rattle.conn_slab.specs.Index.{items_of};
ghost use Rattle.conn_slab.specs.Records.{row_of};
ghost use Rattle.conn_slab.specs.Layout.{IsConsistent};
ghost use Rattle.conn_slab.specs.Reception.{IsReceived, reception};
ghost use Rattle.conn_slab.specs.Bounds.{next_watchdog, AllNotDueBefore};
ghost use Rattle.conn_slab.specs.Producing.{producer_by, peer_in};
ghost use Rattle.conn_slab.specs.Connections.{without, AreConnections, timed_out_if, accepting_if, is_opened_at, is_listening, is_changing};

use crate::bounds::next_watchdog;
use crate::index::{
    Sources, Triads, find_at_position, has_listeners, hint_among, put_last, reserve_record,
    running, take_record,
};
use crate::peers::Peers;
use crate::producers::{enter, has_at_once, has_changing, has_due, leave, row_of};
use crate::reception::{Received, receive_record};
use crate::record::{Record, Source, key_for, record_of};
use crate::rows::Rows;
use adapter_table::{Profile, Row};
use cip_datagram::Datagram;
use cip_productions::{Accepted, Producer};
use cip_types::limits::MOST_CONNECTIONS;
use cip_types::{ConnId, Ms, Node, OutOfMemory, Triad};
use mcast_pool::Pool;
use slab::Slab;
use std::alloc::Global;
use std::marker::Model;

/// How many last positions in the index of sources are kept, each for the O->T ids of one remainder.
const POSITIONS: usize = 64;

/// The connections of an adapter, which contracts see as their list in opening order.
///
/// The search for the connection of a datagram tries first the position at which an id of the same remainder was
/// found last.
#[derive(Drop)]
pub struct Connections {
    records: Slab<Record>,
    by_triad: Triads,
    by_source: Sources,
    pool: Pool,
    last_positions: [usize; POSITIONS],
}

impl Model for Connections {
    ghost use Rattle.std.specs.Prelude.{List, map};
    ghost use Rattle.adapter_table.specs.Connections.{Row};
    ghost use Rattle.conn_slab.specs.Index.{items_of};
    ghost use Rattle.conn_slab.specs.Records.{row_of};
    ghost use Rattle.conn_slab.specs.Layout.{IsConsistent};

    ghost Value = { List Row };

    ghost view = { λ c. map (row_of c.pool) (items_of c.records c.by_triad.entries) };

    ghost invariant = { λ c. IsConsistent c.records c.by_triad.entries c.by_source.entries c.pool };
}

/// Removes the connection of a triad. Takes no memory.
fn take_out(
    records: &mut Slab<Record>,
    by_triad: &mut Triads,
    by_source: &mut Sources,
    pool: &mut Pool,
    triad: Triad,
) -> Option<Row>
    requires { IsConsistent records.old by_triad.old.entries by_source.old.entries pool.old }
    ensures consistent { IsConsistent records.new by_triad.new.entries by_source.new.entries pool.new }
    ensures taken { result
        ≡ find (has_triad triad) (map (row_of pool.old) (items_of records.old by_triad.old.entries)) }
    ensures rest { map (row_of pool.new) (items_of records.new by_triad.new.entries)
        ≡ without_triad triad (map (row_of pool.old) (items_of records.old by_triad.old.entries)) }
    ensures records_space { HasRoomFor records.old 1 → HasRoomFor records.new 1 }
    ensures triad_space { spare by_triad.old ≤ spare by_triad.new }
    ensures source_space { spare by_source.old ≤ spare by_source.new }
{
    // Gives the prover the invariant of the pool.
    let _groups = pool.len();
    let hint = hint_among(by_triad, triad);
    let record = take_record(records, by_triad, by_source, key_for(triad))?;
    let row = row_of(pool, &record, hint);
    leave(pool, record.state, hint);
    Some(row)
}

/// Appends a connection, within the capacity that is reserved. Takes no memory.
fn append(
    records: &mut Slab<Record>,
    by_triad: &mut Triads,
    by_source: &mut Sources,
    pool: &mut Pool,
    row: &Row,
)
    requires consistent { IsConsistent records.old by_triad.old.entries by_source.old.entries pool.old }
    requires fits { AreConnections (map (row_of pool.old) (items_of records.old by_triad.old.entries) ++ row.now ∷ []) }
    requires records_space { HasRoomFor records.old 1 }
    requires triad_space { 0 < spare by_triad.old }
    requires source_space { 0 < spare by_source.old }
    ensures consistent { IsConsistent records.new by_triad.new.entries by_source.new.entries pool.new }
    ensures rows { map (row_of pool.new) (items_of records.new by_triad.new.entries)
        ≡ map (row_of pool.old) (items_of records.old by_triad.old.entries) ++ row.now ∷ [] }
{
    // Gives the prover the invariant of the pool.
    let _groups = pool.len();
    enter(pool, row);
    put_last(records, by_triad, by_source, record_of(row));
}

impl Connections {
    /// No connections, with capacity for the most that there can be. Out of memory is the only fault.
    pub fn new(alloc: Global) -> Result<Self, OutOfMemory>
        ensures { IfOk result (λ connections. connections ≡ []) }
    {
        Ok(Connections {
            records: Slab::with_capacity(alloc, MOST_CONNECTIONS)?,
            by_triad: Triads::with_capacity(alloc, MOST_CONNECTIONS)?,
            by_source: Sources::with_capacity(alloc, MOST_CONNECTIONS)?,
            pool: Pool::new(alloc)?,
            last_positions: [0; POSITIONS],
        })
    }

    /// How many connections there are. Takes no memory.
    pub fn len(&self) -> usize
        ensures len { result ≡ length self.now }
        ensures few { result ≤ 64 }
    {
        self.by_triad.len()
    }

    /// The connections, in opening order. Takes no memory.
    pub fn rows(&self) -> Rows<'_>
        ensures rows { result ≡ self.now }
        ensures few { length result ≤ 64 }
    {
        Rows {
            records: &self.records,
            keys: self.by_triad.values(),
            pool: &self.pool,
            hint: 0,
        }
    }

    /// The peers of the connections, in opening order. Takes no memory.
    ///
    /// Volume 2, chapter 3, multicast connections.
    pub fn peers(&self) -> Peers<'_>
        ensures { result ≡ map peer_in self.now }
    {
        Peers {
            records: &self.records,
            keys: self.by_triad.values(),
        }
    }

    /// A copy of the connections, in opening order. Out of memory is the only fault.
    pub fn to_vec(&self, alloc: Global) -> Result<Vec<Row>, OutOfMemory>
        ensures { IfOk result (λ rows. rows.items ≡ self.now) }
    {
        let mut rows = Vec::with_capacity(alloc, self.by_triad.len())?;
        for row in self.rows() {
            rows.push(row)?;
        }
        Ok(rows)
    }

    /// The connection of a triad, in any state. Takes no memory.
    ///
    /// Volume 1, chapter 3, connection triad.
    pub fn of(&self, triad: Triad) -> Option<Row>
        ensures { result ≡ find (has_triad triad) self.now }
    {
        let key = self.by_triad.get(&key_for(triad))?;
        let record = self.records.get(*key)?;
        // As long as no connection was removed before another, the index of its producer is its key.
        Some(row_of(&self.pool, record, *key))
    }

    /// Whether the triad is that of an established connection. Takes no memory.
    ///
    /// Volume 1, chapter 3, connection triad.
    pub fn is_open(&self, triad: Triad) -> bool
        ensures { result ≡ list_any (holds_triad triad) self.now }
    {
        running(&self.records, self.by_triad.get(&key_for(triad))).is_some()
    }

    /// Whether some connection is an established listen-only one. Takes no memory.
    ///
    /// Volume 1, chapter 3, listen-only application connections.
    pub fn has_listeners(&self) -> bool
        ensures { result ≡ list_any is_listening self.now }
    {
        has_listeners(&self.records, &self.by_triad)
    }

    /// The established connection of a peer that has this O->T id. Takes no memory.
    ///
    /// Volume 2, chapter 2, sequenced address item.
    pub fn find(&self, peer: Node, id: ConnId) -> Option<Row>
        ensures { result ≡ find (is_for peer id.0) self.now }
    {
        let source = Source {
            peer: peer.0,
            id: id.0,
        };
        let (key, _) = running(&self.records, self.by_source.get(&source))?;
        let record = self.records.get(key)?;
        Some(row_of(&self.pool, record, 0))
    }

    /// The connection of an opening number. Takes no memory.
    pub fn numbered(&self, opening: u32) -> Option<Row>
        ensures { result ≡ find (is_opened_at opening) self.now }
    {
        for row in self.rows() {
            if row.opening == opening {
                return Some(row);
            }
        }
        None
    }

    /// Appends a connection, and removes the one of the named triad. Out of memory is the only fault, and then
    /// nothing is changed.
    ///
    /// Volume 1, chapter 3, Forward_Open.
    pub fn open(&mut self, removed: Option<Triad>, row: Row) -> Result<(), OutOfMemory>
        requires { AreConnections (without removed self.old ++ row ∷ []) }
        ensures rows { OnOk result (self.new ≡ without removed self.old ++ row ∷ []) }
        ensures unchanged { OnErr result (self.new ≡ self.old) }
    {
        reserve_record(&mut self.records, &mut self.by_triad, &mut self.by_source)?;
        if let Some(triad) = removed {
            take_out(
                &mut self.records,
                &mut self.by_triad,
                &mut self.by_source,
                &mut self.pool,
                triad,
            );
        }
        append(
            &mut self.records,
            &mut self.by_triad,
            &mut self.by_source,
            &mut self.pool,
            &row,
        );
        Ok(())
    }

    /// Removes the connection of a triad, in any state. Takes no memory.
    ///
    /// Volume 1, chapter 3, Forward_Close.
    pub fn close(&mut self, triad: Triad) -> Option<Row>
        ensures taken { result ≡ find (has_triad triad) self.old }
        ensures rest { self.new ≡ without_triad triad self.old }
    {
        take_out(
            &mut self.records,
            &mut self.by_triad,
            &mut self.by_source,
            &mut self.pool,
            triad,
        )
    }

    /// The established connection of a triad times out, and leaves its producer. False if there is none. Takes no
    /// memory.
    ///
    /// Volume 1, chapter 3, inactivity watchdog.
    pub fn expire(&mut self, triad: Triad) -> bool
        ensures found { result ≡ list_any (holds_triad triad) self.old }
        ensures rows { self.new ≡ map (timed_out_if triad) self.old }
    {
        // Gives the prover the invariant of the pool.
        let _groups = self.pool.len();
        let Some((key, number)) = running(&self.records, self.by_triad.get(&key_for(triad))) else {
            return false;
        };
        let record = &mut self.records[key];
        record.state = None;
        self.pool.leave(number);
        true
    }

    /// The established connection of a peer that has this O->T id accepts a datagram of this number and count, and
    /// has this deadline. False if there is no such connection. Takes no memory.
    ///
    /// Volume 1, chapter 3, inactivity watchdog.
    pub fn accept(&mut self, peer: Node, id: ConnId, accepted: Accepted, deadline: Ms) -> bool
        ensures found { result ≡ list_any (is_for peer id.0) self.old }
        ensures rows { self.new ≡ map (accepting_if peer id.0 accepted.number accepted.count deadline) self.old }
    {
        let source = Source {
            peer: peer.0,
            id: id.0,
        };
        let Some((key, _)) = running(&self.records, self.by_source.get(&source)) else {
            return false;
        };
        let record = &mut self.records[key];
        record.last = Some(accepted);
        record.deadline = deadline;
        true
    }

    /// The established connection that a datagram of a peer is for judges it, and accepts it if it is judged so.
    /// None if there is no such connection. Takes no memory.
    ///
    /// Volume 1, chapter 3, class 1 transport and inactivity watchdog; Volume 2, chapter 2, sequenced address item.
    pub fn receive<'a>(
        &mut self,
        profile: &Profile,
        clock: Ms,
        peer: Node,
        datagram: &Datagram<'a>,
    ) -> Option<Received<'a>>
        requires fit { RowsFit self.old }
        requires time { clock.0 ≤ 2 ^ 48 }
        ensures received { IsReceived profile.now clock (view_datagram datagram.now)
            (find (is_for peer datagram.now.connection.0) self.old) result }
        ensures rows { self.new
            ≡ reception profile.now clock peer (view_datagram datagram.now)
            (find (is_for peer datagram.now.connection.0) self.old) self.old }
    {
        let source = Source {
            peer: peer.0,
            id: datagram.connection.0,
        };
        let slot = source.id as usize % POSITIONS;
        let (position, filed) = find_at_position(
            &self.by_source,
            self.last_positions[slot],
            source,
        )?;
        self.last_positions[slot] = position;
        let (key, _) = running(&self.records, Some(&filed))?;
        let record = &mut self.records[key];
        Some(receive_record(record, profile, clock, datagram))
    }

    /// When the first watchdog of an established connection runs out; `u64::MAX` if there is none. Takes no memory.
    ///
    /// Volume 1, chapter 3, inactivity watchdog.
    pub fn next_watchdog(&self) -> u64
        ensures { result ≡ next_watchdog self.now }
    {
        next_watchdog(self.peers())
    }

    /// A time before which no producer is due. Takes no memory.
    ///
    /// Volume 1, chapter 3, production triggers.
    pub fn first_due(&self) -> u64
        ensures { AllNotDueBefore result self.now }
    {
        self.pool.first_due()
    }

    /// Whether some producer is due. Takes no memory.
    ///
    /// Volume 1, chapter 3, production triggers.
    pub fn is_any_due(&self, clock: Ms) -> bool
        ensures { result ≡ list_any (is_due clock) self.now }
    {
        has_due(self.pool.as_slice(), clock)
    }

    /// Whether a write of a point makes some producer produce at once. Takes no memory.
    ///
    /// Volume 1, chapter 3, production triggers and production inhibit time.
    pub fn is_any_at_once(&self, clock: Ms, point: u32) -> bool
        requires { clock.0 ≤ 2 ^ 48 }
        ensures { result ≡ list_any (produces_on_change clock point) self.now }
    {
        has_at_once(self.pool.as_slice(), clock, point)
    }

    /// Whether some connection's producer produces at changes of state. Takes no memory.
    ///
    /// Volume 1, chapter 3, production triggers.
    pub fn has_changing(&self) -> bool
        ensures { result ≡ list_any is_changing self.now }
    {
        has_changing(self.pool.as_slice())
    }

    /// The producer of a number, which some connection has. The search tries one index first. Takes no memory.
    ///
    /// Volume 1, chapter 3, class 1 transport; Volume 2, chapter 3, multicast connections.
    #[inline(always)]
    pub fn producer_with_hint(&self, number: u32, hint: usize) -> Producer
        requires { list_any (is_produced_by number) self.now ≡ true }
        ensures { Some result ≡ producer_by number self.now }
    {
        self.pool.producer_with_hint(number, hint)
    }

    /// Whether one connection alone has the producer of a number. The search tries one index first. Takes no memory.
    ///
    /// Volume 2, chapter 3, multicast connections.
    pub fn is_single(&self, number: u32, hint: usize) -> bool
        ensures { result ≡ (length (group number self.now) == 1) }
    {
        match self.pool.group_with_hint(number, hint) {
            Some(group) => group.subscribers == 1,
            None => false,
        }
    }

    /// The producers that are due have produced. Takes no memory.
    ///
    /// Volume 1, chapter 3, production triggers.
    pub fn produce(&mut self, clock: Ms)
        requires { clock.0 ≤ 2 ^ 48 }
        ensures { self.new ≡ map (produced_row clock) self.old }
    {
        self.pool.produce_due(clock);
    }

    /// The producers of a point have new data and have acted on the write. Takes no memory.
    ///
    /// Volume 1, chapter 3, production triggers and production inhibit time.
    pub fn write(&mut self, point: u32, clock: Ms)
        requires { clock.0 ≤ 2 ^ 48 }
        ensures { self.new ≡ map (changed_row clock point) (map (written_row point) self.old) }
    {
        self.pool.write(point, clock);
    }
}
