//! A table that is a plain list of connections.

use crate::list::changes::{produces_at_once, sent_on_change, write_and_change_rows, written_rows};
use crate::list::deliveries::{accept_rows, find_target};
use crate::list::expiries::{expire_rows, tick_plan};
use crate::list::first_due::first_due;
use crate::list::io::io_state;
use crate::list::productions::{produce_rows, sent_when_due};
use crate::list::rows::{append_row, copied, find_row, remove_triad, replaced};
use crate::list::support::{dropped_with, remove_each};
use crate::list::table::{ConnectionTable, ReceivedDatagram, TickPlan};
use adapter_table::{IoState, Profile, Row, consumes, drives, has_expired, is_due, judge};
use app_rules::{ConnectionsView, ListView};
use assembly_set::AssemblySet;
use cip_datagram::Datagram;
use cip_events::OutgoingDatagram;
use cip_productions::Kind;
use cip_types::{Ms, Node, OutOfMemory, Triad};
use std::alloc::Global;

/// Connections in a list, in opening order, which each call searches.
#[derive(Drop)]
pub struct ConnectionList(Vec<Row>);

impl ConnectionsView for ConnectionList {
    ghost rows = { λ t. t.0.items };

    fn is_open(&self, triad: Triad) -> bool {
        ListView(&self.0).is_open(triad)
    }

    fn has_established(&self) -> bool {
        ListView(&self.0).has_established()
    }

    fn is_driven(&self, point: u32) -> bool {
        ListView(&self.0).is_driven(point)
    }

    fn group_of(&self, point: u32) -> Option<Row> {
        ListView(&self.0).group_of(point)
    }

    fn is_supported(&self, point: u32) -> bool {
        ListView(&self.0).is_supported(point)
    }

    fn kind_count(&self, kind: Kind) -> usize {
        ListView(&self.0).kind_count(kind)
    }

    fn node_count(&self, node: Node) -> usize {
        ListView(&self.0).node_count(node)
    }

    fn is_full(&self) -> bool {
        ListView(&self.0).is_full()
    }

    fn has_timed_out(&self) -> bool {
        ListView(&self.0).has_timed_out()
    }
}

impl ConnectionTable for ConnectionList {
    fn new(alloc: Global) -> Result<Self, OutOfMemory> {
        Ok(ConnectionList(Vec::new(alloc)))
    }

    fn holding(alloc: Global, rows: &[Row]) -> Result<Self, OutOfMemory> {
        Ok(ConnectionList(copied(alloc, rows)?))
    }

    fn to_vec(&self, alloc: Global) -> Result<Vec<Row>, OutOfMemory> {
        copied(alloc, &self.0)
    }

    fn len(&self) -> usize {
        self.0.len()
    }

    fn nth(&self, place: usize) -> Option<Row> {
        self.0.get(place).copied()
    }

    fn owner(&self, point: u32) -> Option<Row> {
        self.0.iter().copied().find(|row| drives(row, point))
    }

    fn count_consuming(&self, kind: Kind, point: u32) -> usize {
        self.0
            .iter()
            .filter(|row| consumes(row, kind, point))
            .count()
    }

    fn io_state(&self) -> IoState {
        io_state(&self.0)
    }

    fn find(&self, triad: Triad) -> Option<Row> {
        find_row(&self.0, triad)
    }

    fn replaced(&self, triad: Triad) -> Option<Triad> {
        replaced(&self.0, triad)
    }

    fn open(&mut self, replaced: Option<Triad>, row: Row) -> Result<(), OutOfMemory> {
        append_row(&mut self.0, replaced, row)
    }

    fn dropped_with(&self, alloc: Global, triad: Triad) -> Result<Vec<Triad>, OutOfMemory> {
        dropped_with(alloc, copied(alloc, &self.0)?, triad)
    }

    fn close(&mut self, triad: Triad, dropped: &[Triad]) {
        remove_triad(&mut self.0, triad);
        remove_each(&mut self.0, dropped);
    }

    fn receive<'a>(
        &mut self,
        profile: &Profile,
        clock: Ms,
        peer: Node,
        datagram: &Datagram<'a>,
    ) -> Option<ReceivedDatagram<'a>> {
        let row = find_target(&self.0, peer, datagram.connection)?;
        let judgement = judge(profile, clock, &row, datagram);
        if judgement.delivery().is_accepted() {
            accept_rows(&mut self.0, clock, peer, datagram);
        }
        let consumed = row.consumed;
        Some(ReceivedDatagram {
            judgement,
            consumed,
        })
    }

    fn has_expired(&mut self, clock: Ms) -> bool {
        self.0.iter().any(|row| has_expired(row, clock))
    }

    fn is_due(&self, clock: Ms) -> bool {
        self.0.iter().any(|row| is_due(row, clock))
    }

    fn first_due(&self) -> Ms {
        first_due(&self.0)
    }

    fn sent_when_due(
        &self,
        alloc: Global,
        assemblies: &AssemblySet,
        clock: Ms,
    ) -> Result<Vec<OutgoingDatagram>, OutOfMemory> {
        sent_when_due(alloc, &self.0, assemblies, clock)
    }

    fn produce(&mut self, clock: Ms) {
        produce_rows(&mut self.0, clock);
    }

    fn tick_plan(
        &self,
        alloc: Global,
        assemblies: &AssemblySet,
        clock: Ms,
    ) -> Result<TickPlan, OutOfMemory> {
        tick_plan(alloc, copied(alloc, &self.0)?, assemblies, clock)
    }

    fn advance(&mut self, clock: Ms, _timed_out: &[Row], dropped: &[Triad]) {
        expire_rows(&mut self.0, clock);
        remove_each(&mut self.0, dropped);
        produce_rows(&mut self.0, clock);
    }

    fn produces_at_once(&self, clock: Ms, point: u32) -> bool {
        produces_at_once(&self.0, clock, point)
    }

    fn sent_on_change(
        &self,
        alloc: Global,
        clock: Ms,
        point: u32,
        input: &[u8],
    ) -> Result<Vec<OutgoingDatagram>, OutOfMemory> {
        let written = written_rows(alloc, &self.0, point)?;
        sent_on_change(alloc, &written, clock, point, input)
    }

    fn write(&mut self, clock: Ms, point: u32) {
        write_and_change_rows(&mut self.0, clock, point);
    }
}
