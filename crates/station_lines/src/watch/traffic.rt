//! What a station counts of its datagrams: those of each connection, and all.

ghost use Rattle.std.specs.Prelude.{◌≡◌, ◌++◌, find, map, IfOk, OnOk};
ghost use Rattle.station_lines.specs.Watch.Traffic.{accepted_at, after_datagram, after_event, after_notice, after_notices, applied_by, arrived, begun, counted_at_place, counted_in, counted_of, counted_one, current, ended_note, entry_of, entry_or, fresh_slot, fresh_traffic, goes_to, has_id, id_of_slot, is_for, is_from, is_id, is_sent_as, lost_by, lost_of, marked, noted, opened_by, opened_slot, received_datagram, refused_slot, reported, sends_of, sends_of_slot, sent_each, sent_one, sent_through, sent_totals, slot_changed, slot_id, totals_after, with_refusal, with_slot};

use crate::watch::datagram_counts::{
    DatagramCounts, GapMeter, counted, is_accepted, missed, sent_counts,
};
use crate::watch::groups::{datagram_id, datagram_sequence};
use crate::watch::notes::{StateNote, StreamRefusal, stream_after};
use crate::watch::peers::{changes_connections, is_node};
use adapter_table::ConnectionReport;
use cip_events::{Answer, Delivery, Event, Notice, OutgoingDatagram, Reason, SlotPhase, Verdict};
use cip_tables::{Config, Device, SlotConfig, SlotReport};
use cip_types::limits::MOST_CONNECTIONS;
use cip_types::{Node, OutOfMemory};
use std::alloc::Global;
use std::marker::Model;
use udp_runner::PortReport;

/// How a device's own datagrams of a connection are known: by one of the nodes that consume them, and their connection id.
#[derive(Clone, Copy, PartialEq, Eq)]
pub struct SentAs {
    pub to: Node,
    pub id: u32,
}

/// A connection of an adapter or the slot of a scanner, with the counts of its datagrams.
#[derive(Clone, Copy)]
pub struct CountedConnection {
    /// The target of a slot, which sends them. None of a connection of an adapter: its id alone names it.
    pub sender: Option<Node>,
    /// The connection id of its datagrams; None of a slot without an open connection.
    pub id: Option<u32>,
    /// The datagrams that the device produces for it; None of a slot without an open connection.
    pub sends: Option<SentAs>,
    /// Of a slot the counts of the connection that it has, or had last.
    pub counts: DatagramCounts,
    /// The gaps between its accepted datagrams.
    pub gaps: GapMeter,
    /// Its state.
    pub note: StateNote,
}

/// All datagrams of a device. Each count ends at 2^64 - 1.
#[derive(Clone, Copy, PartialEq, Eq)]
pub struct TrafficTotals {
    /// Those that arrived, those that no connection can take included.
    pub received: u64,
    /// Those that the device produced. One for several consumers is counted once.
    pub sent: u64,
    /// Those that arrived and whose data were applied.
    pub applied: u64,
    /// The sequence numbers that were skipped, of all connections.
    pub lost: u64,
}

/// What is counted of a device's datagrams: those of each connection, and all.
///
/// Of an adapter there is an entry for each connection of class 1, which the device names: as many as it has, timed-out
/// ones included. The slots of a scanner are in the order of their numbers.
#[derive(Drop)]
pub struct StationTraffic {
    alloc: Global,
    connections: Vec<CountedConnection>,
    totals: TrafficTotals,
}

impl Model for StationTraffic {
    ghost use Rattle.station_lines.specs.Watch.Traffic.{TrafficSeen};

    ghost Value = { TrafficSeen };

    ghost view = { λ t. record { connections = t.connections.items; totals = t.totals } };
}

/// A datagram that arrived: its peer, its connection id and sequence number, its result, and when it came, in milliseconds.
#[derive(Clone, Copy, PartialEq, Eq)]
pub struct ArrivedDatagram {
    pub peer: Node,
    pub id: u32,
    pub number: u32,
    pub delivery: Delivery,
    pub ms: u64,
}

impl StationTraffic {
    /// Nothing was counted of a device of this configuration. The only fault is a refused allocation.
    pub fn of(alloc: Global, config: &Config) -> Result<StationTraffic, OutOfMemory>
        ensures { IfOk result (λ traffic. traffic ≡ fresh_traffic config.now) }
    {
        let totals = TrafficTotals {
            received: 0,
            sent: 0,
            applied: 0,
            lost: 0,
        };
        match config {
            Config::Adapter(_) => Ok(StationTraffic {
                alloc,
                connections: Vec::new(alloc),
                totals,
            }),
            Config::Scanner(profile) => Ok(StationTraffic {
                alloc,
                connections: fresh_slots(alloc, profile.slots.as_slice())?,
                totals,
            }),
        }
    }

    /// Counts an event and its answer at a device, which is as the event left it at this time in milliseconds. The fault: an
    /// allocation was refused, and a connection that the answer opened is not counted.
    pub fn note<D: Device>(
        &mut self,
        ms: u64,
        device: &D,
        event: &Event,
        answer: &Answer,
    ) -> Result<(), OutOfMemory>
        ensures { OnOk result (self.new ≡ noted ms (D.table device.now) event.now answer.now self.old) }
    {
        let (notices, datagrams) = (answer.notices.as_slice(), answer.datagrams.as_slice());
        self.totals = sent_totals(self.totals, datagrams.len());
        self.note_event(ms, event, &answer.verdict);
        bring_up(self.alloc, ms, &mut self.connections, device, notices)?;
        note_all(&mut self.connections, ms, device, notices);
        count_sent(&mut self.connections, datagrams);
        Ok(())
    }

    /// Notes at this time, in milliseconds, what a port reports of the streams to a scanner's targets.
    pub fn note_report(&mut self, ms: u64, report: &PortReport)
        ensures { self.new ≡ record self.old { connections = map (reported ms report.now) self.old.connections } }
    {
        report_each(&mut self.connections, ms, report);
    }

    /// The connections of an adapter or the slots of a scanner.
    pub fn connections(&self) -> &[CountedConnection]
        ensures { result.now ≡ self.now.connections }
    {
        self.connections.as_slice()
    }

    /// All datagrams.
    pub fn totals(&self) -> TrafficTotals
        ensures { result ≡ self.now.totals }
    {
        self.totals
    }

    /// Counts the datagram of an event with this verdict, if it has one.
    fn note_event(&mut self, ms: u64, event: &Event, verdict: &Verdict)
        ensures { self.new ≡ after_event ms event.now verdict.now self.old }
    {
        if let Event::Datagram { peer, bytes } = event {
            if let Verdict::Delivered(delivery) = verdict {
                self.note_arrival(ms, *peer, bytes.as_slice(), *delivery);
            }
        }
    }

    /// Counts a datagram with this result.
    fn note_arrival(&mut self, ms: u64, peer: Node, bytes: &[u8], delivery: Delivery)
        ensures { self.new ≡ arrived ms peer bytes.now delivery self.old }
    {
        self.totals = totals_after(self.totals, delivery);
        if let Some(datagram) = received_datagram(ms, peer, bytes, delivery) {
            self.note_datagram(datagram);
        }
    }

    /// Counts a datagram at its connection.
    fn note_datagram(&mut self, datagram: ArrivedDatagram)
        ensures { self.new ≡ after_datagram datagram self.old }
    {
        let lost = lost_of(
            connection_of(self.connections.as_slice(), datagram),
            datagram,
        );
        self.totals = TrafficTotals {
            lost: self.totals.lost.saturating_add(lost),
            ..self.totals
        };
        count_each(&mut self.connections, datagram);
    }
}

/// Notes what a port reports of a stream at each slot.
fn report_each(connections: &mut [CountedConnection], ms: u64, report: &PortReport)
    ensures { connections.new ≡ map (reported ms report.now) connections.old }
{
    for connection in connections.iter_mut() {
        *connection = reported(*connection, ms, report);
    }
}

/// A slot after its port's report of a stream.
fn reported(slot: CountedConnection, ms: u64, report: &PortReport) -> CountedConnection
    ensures { result ≡ reported ms report.now slot }
{
    CountedConnection {
        note: with_stream(
            slot.note,
            stream_after(slot.note.stream, slot.sender, ms, report),
        ),
        ..slot
    }
}

/// A note with what is known of the stream to its target.
fn with_stream(note: StateNote, stream: Option<StreamRefusal>) -> StateNote
    ensures { result ≡ record note { stream = stream } }
{
    StateNote { stream, ..note }
}

/// The slots of a scanner, of which nothing was counted. The only fault is a refused allocation.
fn fresh_slots(alloc: Global, slots: &[SlotConfig]) -> Result<Vec<CountedConnection>, OutOfMemory>
    ensures { IfOk result (λ list. list.items ≡ map fresh_slot slots.now) }
{
    Ok(slots.iter().map(fresh_slot).collect(alloc)?)
}

/// A slot of which nothing was counted.
fn fresh_slot(config: &SlotConfig) -> CountedConnection
    ensures { result ≡ fresh_slot config.now }
{
    begun(Some(config.target), None, None, StateNote::since(0))
}

/// A connection whose counts begin.
fn begun(
    sender: Option<Node>,
    id: Option<u32>,
    sends: Option<SentAs>,
    note: StateNote,
) -> CountedConnection
    ensures { result ≡ begun sender id sends note }
{
    CountedConnection {
        sender,
        id,
        sends,
        counts: DatagramCounts::none(),
        gaps: GapMeter::fresh(),
        note,
    }
}

/// The totals after so many datagrams were produced.
fn sent_totals(totals: TrafficTotals, sent: usize) -> TrafficTotals
    ensures { result ≡ sent_totals totals sent }
{
    TrafficTotals {
        sent: totals.sent.saturating_add(sent as u64),
        ..totals
    }
}

/// The totals after a datagram with this result arrived.
fn totals_after(totals: TrafficTotals, delivery: Delivery) -> TrafficTotals
    ensures { result ≡ totals_after totals delivery }
{
    TrafficTotals {
        received: totals.received.saturating_add(1),
        applied: totals.applied.saturating_add(applied_by(delivery)),
        ..totals
    }
}

/// How many datagrams a datagram with this result adds to the applied ones.
fn applied_by(delivery: Delivery) -> u64
    ensures { result ≡ applied_by delivery }
{
    match delivery {
        Delivery::Applied => 1,
        _ => 0,
    }
}

/// A datagram that arrived, if its bytes have a connection id and a sequence number.
fn received_datagram(
    ms: u64,
    peer: Node,
    bytes: &[u8],
    delivery: Delivery,
) -> Option<ArrivedDatagram>
    ensures { result ≡ received_datagram ms peer bytes.now delivery }
{
    let id = datagram_id(bytes)?;
    let number = datagram_sequence(bytes)?;
    Some(ArrivedDatagram {
        peer,
        id,
        number,
        delivery,
        ms,
    })
}

/// Whether a datagram of this peer may be of this sender. Of an adapter's connections no two have one id, so the id alone
/// names one.
fn is_from(sender: Option<Node>, peer: Node) -> bool
    ensures { result ≡ is_from peer sender }
{
    match sender {
        Some(target) => target == peer,
        None => true,
    }
}

/// Whether this is the id.
fn is_id(id: Option<u32>, expected: u32) -> bool
    ensures { result ≡ is_id id expected }
{
    match id {
        Some(id) => id == expected,
        None => false,
    }
}

/// Whether a datagram is for a connection.
fn is_for(connection: &CountedConnection, datagram: ArrivedDatagram) -> bool
    ensures { result ≡ is_for datagram connection.now }
{
    is_from(connection.sender, datagram.peer) && is_id(connection.id, datagram.id)
}

/// The connection that a datagram is for.
fn connection_of(
    connections: &[CountedConnection],
    datagram: ArrivedDatagram,
) -> Option<CountedConnection>
    ensures { result ≡ find (is_for datagram) connections.now }
{
    connections
        .iter()
        .copied()
        .find(|other| is_for(other, datagram))
}

/// The sequence numbers that a datagram skipped, if there is a connection that it is for.
fn lost_of(connection: Option<CountedConnection>, datagram: ArrivedDatagram) -> u64
    ensures { result ≡ lost_of datagram connection }
{
    match connection {
        Some(connection) => lost_by(connection, datagram),
        None => 0,
    }
}

/// The sequence numbers that a datagram skipped at its connection.
fn lost_by(connection: CountedConnection, datagram: ArrivedDatagram) -> u64
    ensures { result ≡ lost_by datagram connection }
{
    if !is_accepted(datagram.delivery) {
        return 0;
    }
    missed(connection.counts.newest, datagram.number)
}

/// Counts a datagram at the connections that it is for.
fn count_each(connections: &mut [CountedConnection], datagram: ArrivedDatagram)
    ensures { connections.new ≡ map (counted_one datagram) connections.old }
{
    for connection in connections.iter_mut() {
        *connection = counted_one(*connection, datagram);
    }
}

/// A connection after a datagram, which is counted if it is for this one.
fn counted_one(connection: CountedConnection, datagram: ArrivedDatagram) -> CountedConnection
    ensures { result ≡ counted_one datagram connection }
{
    if !is_for(&connection, datagram) {
        return connection;
    }
    CountedConnection {
        counts: counted(connection.counts, datagram.delivery, datagram.number),
        gaps: accepted_at(connection.gaps, datagram),
        ..connection
    }
}

/// The gaps of a connection after a datagram, if that was accepted.
fn accepted_at(gaps: GapMeter, datagram: ArrivedDatagram) -> GapMeter
    ensures { result ≡ accepted_at datagram gaps }
{
    if is_accepted(datagram.delivery) {
        gaps.came(datagram.ms)
    } else {
        gaps
    }
}

/// Counts the datagrams that the device produced at the connections that they are for.
fn count_sent(connections: &mut [CountedConnection], datagrams: &[OutgoingDatagram])
    ensures { connections.new ≡ sent_through datagrams.now connections.old }
{
    for outgoing in datagrams {
        count_outgoing(connections, outgoing);
    }
}

/// Counts a datagram that the device produced at the connections that it is for.
fn count_outgoing(connections: &mut [CountedConnection], outgoing: &OutgoingDatagram)
    ensures { connections.new ≡ sent_each outgoing.now connections.old }
{
    if let Some(id) = datagram_id(outgoing.bytes.as_slice()) {
        count_nodes(connections, outgoing.nodes.as_slice(), id);
    }
}

/// Counts a datagram of this connection id, which these nodes consume, at the connections that it is for.
fn count_nodes(connections: &mut [CountedConnection], nodes: &[Node], id: u32)
    ensures { connections.new ≡ map (sent_one nodes.now id) connections.old }
{
    for connection in connections.iter_mut() {
        *connection = sent_one(*connection, nodes, id);
    }
}

/// A connection after a datagram that the device produced, which is counted if it is for this one.
fn sent_one(connection: CountedConnection, nodes: &[Node], id: u32) -> CountedConnection
    ensures { result ≡ sent_one nodes.now id connection }
{
    if !is_sent_as(connection.sends, nodes, id) {
        return connection;
    }
    CountedConnection {
        counts: sent_counts(connection.counts),
        ..connection
    }
}

/// Whether a datagram of this connection id, which these nodes consume, is one of a connection.
fn is_sent_as(sends: Option<SentAs>, nodes: &[Node], id: u32) -> bool
    ensures { result ≡ is_sent_as nodes.now id sends }
{
    match sends {
        Some(sends) => sends.id == id && goes_to(nodes, sends.to),
        None => false,
    }
}

/// Whether a node is among these.
fn goes_to(nodes: &[Node], to: Node) -> bool
    ensures { result ≡ goes_to nodes.now to }
{
    nodes.iter().any(|node| is_node(node, to))
}

/// An entry for each connection that an adapter has, if notices say that one was opened or has ended. The fault: an allocation
/// was refused, and the entries are as they were.
fn bring_up<D: Device>(
    alloc: Global,
    ms: u64,
    connections: &mut Vec<CountedConnection>,
    device: &D,
    notices: &[Notice],
) -> Result<(), OutOfMemory>
    ensures { OnOk result
        (connections.new.items ≡ current ms (D.table device.now) notices.now connections.old.items) }
{
    if changes_connections(notices) {
        *connections = counted_in(alloc, ms, device, connections.as_slice())?;
    }
    Ok(())
}

/// An entry for each connection that an adapter has, in the order of the openings, with what was counted of it. The fault: an
/// allocation was refused.
fn counted_in<D: Device>(
    alloc: Global,
    ms: u64,
    device: &D,
    connections: &[CountedConnection],
) -> Result<Vec<CountedConnection>, OutOfMemory>
    ensures { IfOk result (λ list. list.items ≡ counted_in ms (D.table device.now) connections.now) }
{
    let mut list = Vec::new(alloc);
    for place in 0..MOST_CONNECTIONS as u32 {
        add(&mut list, ms, connections, device.connection(place))?;
    }
    Ok(list)
}

/// Adds the entry of a connection, if there is one. The fault: an allocation was refused, and none is added.
fn add(
    list: &mut Vec<CountedConnection>,
    ms: u64,
    connections: &[CountedConnection],
    report: Option<ConnectionReport>,
) -> Result<(), OutOfMemory>
    ensures { OnOk result (list.new.items ≡ list.old.items ++ counted_at_place ms connections.now report) }
{
    if let Some(report) = report {
        list.push(counted_of(ms, connections, &report))?;
    }
    Ok(())
}

/// What was counted of a connection of an adapter until this time: nothing, if there is no entry of it.
pub fn counted_of(
    ms: u64,
    connections: &[CountedConnection],
    report: &ConnectionReport,
) -> CountedConnection
    ensures { result ≡ counted_of ms connections.now report.now }
{
    let entry = entry_of(ms, connections, report);
    marked(entry, ms, report.established)
}

/// The entry of a connection of an adapter.
fn entry_of(
    ms: u64,
    connections: &[CountedConnection],
    report: &ConnectionReport,
) -> CountedConnection
    ensures { result ≡ entry_of ms connections.now report.now }
{
    entry_or(ms, report, entry_with(connections, report.o_t_id.0))
}

/// A connection of an adapter that has timed out, if it is not established any more.
fn marked(entry: CountedConnection, ms: u64, established: bool) -> CountedConnection
    ensures { result ≡ marked ms established entry }
{
    if established || entry.note.time_outs != 0 {
        return entry;
    }
    CountedConnection {
        note: entry.note.timed_out(ms),
        ..entry
    }
}

/// The entry of a connection id.
fn entry_with(connections: &[CountedConnection], id: u32) -> Option<CountedConnection>
    ensures { result ≡ find (has_id id) connections.now }
{
    connections.iter().copied().find(|other| has_id(other, id))
}

/// The entry of a connection of an adapter, or one whose counts begin.
fn entry_or(
    ms: u64,
    report: &ConnectionReport,
    found: Option<CountedConnection>,
) -> CountedConnection
    ensures { result ≡ entry_or ms report.now found }
{
    match found {
        Some(found) => found,
        None => opened_by(ms, report),
    }
}

/// A connection of an adapter whose counts begin.
fn opened_by(ms: u64, report: &ConnectionReport) -> CountedConnection
    ensures { result ≡ opened_by ms report.now }
{
    let sends = SentAs {
        to: report.peer,
        id: report.t_o_id.0,
    };
    begun(
        None,
        Some(report.o_t_id.0),
        Some(sends),
        StateNote::since(ms),
    )
}

/// Whether an entry has this connection id.
fn has_id(connection: &CountedConnection, id: u32) -> bool
    ensures { result ≡ has_id id connection.now }
{
    is_id(connection.id, id)
}

/// Notes what notices say of slots.
fn note_all<D: Device>(
    connections: &mut [CountedConnection],
    ms: u64,
    device: &D,
    notices: &[Notice],
)
    ensures { connections.new ≡ after_notices ms (D.table device.now) notices.now connections.old }
{
    for notice in notices {
        note_one(connections, ms, device, notice);
    }
}

/// Notes what a notice says of a slot.
fn note_one<D: Device>(connections: &mut [CountedConnection], ms: u64, device: &D, notice: &Notice)
    ensures { connections.new ≡ after_notice ms (D.table device.now) notice.now connections.old }
{
    match notice {
        Notice::Slot(slot, state) => {
            change_slot(connections, *slot, ms, *state, device.slot(*slot));
        }
        Notice::Refused(slot, reason) => refuse_slot(connections, *slot, *reason),
        _ => {}
    }
}

/// The connection id of the datagrams that a slot receives, if its connection is open.
pub(crate) fn slot_id<D: Device>(device: &D, slot: u32) -> Option<u32>
    ensures { result ≡ slot_id (D.table device.now) slot }
{
    id_of_slot(device.slot(slot))
}

/// The connection id of the datagrams that a slot in this state receives.
fn id_of_slot(report: Option<SlotReport>) -> Option<u32>
    ensures { result ≡ id_of_slot report }
{
    match report {
        Some(SlotReport::Established(target)) => Some(target.t_o_id.0),
        _ => None,
    }
}

/// The datagrams that a slot in this state sends to its target.
fn sends_of_slot(report: Option<SlotReport>, target: Option<Node>) -> Option<SentAs>
    ensures { result ≡ sends_of_slot target report }
{
    match report {
        Some(SlotReport::Established(reported)) => sends_of(target, reported.o_t_id.0),
        _ => None,
    }
}

/// Datagrams of this connection id to a target.
fn sends_of(target: Option<Node>, id: u32) -> Option<SentAs>
    ensures { result ≡ sends_of id target }
{
    match target {
        Some(to) => Some(SentAs { to, id }),
        None => None,
    }
}

/// Changes a slot to the state of this number, if there is such a slot.
fn change_slot(
    connections: &mut [CountedConnection],
    slot: u32,
    ms: u64,
    state: u8,
    report: Option<SlotReport>,
)
    ensures { connections.new ≡ with_slot ms slot state report connections.old }
{
    let index = slot as usize;
    if index < connections.len() {
        connections[index] = slot_changed(connections[index], ms, state, report);
    }
}

/// A slot after it changed to the state of this number: the counts of a connection begin as it is established, with the ids of its
/// datagrams, and stay as it ends. An opening that is not answered is no time-out of a connection.
fn slot_changed(
    slot: CountedConnection,
    ms: u64,
    state: u8,
    report: Option<SlotReport>,
) -> CountedConnection
    ensures { result ≡ slot_changed ms state report slot }
{
    if state == SlotPhase::Established.number() {
        return opened_slot(slot, ms, report);
    }
    CountedConnection {
        id: None,
        sends: None,
        note: ended_note(slot.note, slot.id, ms, state),
        ..slot
    }
}

/// The note of a slot that changes to the state of this number, and whose connection had this id, if it was established.
fn ended_note(note: StateNote, id: Option<u32>, ms: u64, state: u8) -> StateNote
    ensures { result ≡ ended_note ms state id note }
{
    match id {
        Some(_) => note.changed(ms, state),
        None => StateNote {
            since_ms: ms,
            ..note
        },
    }
}

/// A slot after its connection was established.
fn opened_slot(slot: CountedConnection, ms: u64, report: Option<SlotReport>) -> CountedConnection
    ensures { result ≡ opened_slot ms report slot }
{
    begun(
        slot.sender,
        id_of_slot(report),
        sends_of_slot(report, slot.sender),
        slot.note.opened(ms),
    )
}

/// Notes why a slot was not opened, if there is such a slot.
fn refuse_slot(connections: &mut [CountedConnection], slot: u32, reason: Reason)
    ensures { connections.new ≡ with_refusal slot reason connections.old }
{
    let index = slot as usize;
    if index < connections.len() {
        connections[index] = refused_slot(connections[index], reason);
    }
}

/// A slot that was not opened, for this reason.
fn refused_slot(slot: CountedConnection, reason: Reason) -> CountedConnection
    ensures { result ≡ refused_slot reason slot }
{
    CountedConnection {
        note: slot.note.refused(reason),
        ..slot
    }
}
