//! Tables of connections, which contracts see as lists.

ghost use Rattle.std.specs.Prelude.{◌≡◌, ◌≤◌, ◌^◌, ◌∷◌, ◌++◌, [], find, map, length, slice_get, IfOk, OnOk, OnErr};
ghost use Rattle.std.specs.List.{list_any};
ghost use Rattle.cip_datagram.specs.Datagram.{view_datagram};
ghost use Rattle.cip_productions.specs.Productions.{sent};
ghost use Rattle.adapter_table.specs.Rows.{has_triad, drives, written_row, others};
ghost use Rattle.adapter_table.specs.States.{count_consuming};
ghost use Rattle.adapter_table.specs.Objects.{io_state_of};
ghost use Rattle.adapter_table.specs.Opening.{is_replaced, replaced_triad, triad_of};
ghost use Rattle.adapter_table.specs.Closing.{without_triad, staying, unsupported};
ghost use Rattle.adapter_table.specs.Datagrams.{is_for};
ghost use Rattle.adapter_table.specs.Productions.{is_due, due_productions, produced_row, produces_on_change, productions_on_change, changed_row};
ghost use Rattle.adapter_table.specs.Ticks.{has_expired, expired, expired_rows};
ghost use Rattle.cip_tables.specs.Wakes.{connections_due};
ghost use Rattle.indexed_connections.specs.List.Tables.{AreWhole, IsTickPlan, advanced_rows};
ghost use Rattle.indexed_connections.specs.List.Receiving.{IsReceived, receiving};

use adapter_table::{IoState, Judgement, Profile, Row};
use app_rules::ConnectionsView;
use assembly_set::AssemblySet;
use cip_datagram::Datagram;
use cip_events::OutgoingDatagram;
use cip_productions::Kind;
use cip_types::{Ms, Node, OutOfMemory, Triad};
use std::alloc::Global;

/// The judgement of a datagram that was for a connection, and the point that the connection consumes.
#[derive(Clone, Copy)]
pub struct ReceivedDatagram<'a> {
    pub judgement: Judgement<'a>,
    pub consumed: u32,
}

/// What happens when time passes, decided before anything changes.
#[derive(Drop)]
pub struct TickPlan {
    /// The connections that time out, by their deadlines and then in opening order.
    pub expired: Vec<Row>,
    /// The listen-only connections that lose their support with them, in opening order.
    pub dropped: Vec<Triad>,
    /// The datagrams of the producers that are due afterwards, one each.
    pub datagrams: Vec<OutgoingDatagram>,
}

/// The connections of an adapter, which contracts see as their list in opening order.
///
/// A table may answer the calls at each datagram and each tick by indexes and bounds; each answer is that of the
/// list. A call that fails leaves the connections unchanged. The calls that change connections require those of a
/// whole table of an adapter; opening, closing and the passing of time lead to such connections again.
pub trait ConnectionTable: ConnectionsView + Drop {
    /// No connections. Out of memory is the only fault.
    fn new(alloc: Global) -> Result<Self, OutOfMemory>
        ensures { IfOk result (λ table. Self.rows table ≡ []) };

    /// These connections. Out of memory is the only fault.
    fn holding(alloc: Global, rows: &[Row]) -> Result<Self, OutOfMemory>
        requires { AreWhole rows.now }
        ensures { IfOk result (λ table. Self.rows table ≡ rows.now) };

    /// A copy of the connections. Out of memory is the only fault.
    fn to_vec(&self, alloc: Global) -> Result<Vec<Row>, OutOfMemory>
        ensures { IfOk result (λ copy. copy.items ≡ Self.rows self.now) };

    // STATES

    /// How many connections there are, timed-out ones included. Takes no memory.
    fn len(&self) -> usize
        ensures { result ≡ length (Self.rows self.now) };

    /// The connection at a place of the opening order. Takes no memory.
    fn nth(&self, place: usize) -> Option<Row>
        ensures { result ≡ slice_get (Self.rows self.now) place };

    /// The established exclusive owner of an output. Takes no memory.
    fn owner(&self, point: u32) -> Option<Row>
        ensures { result ≡ find (drives point) (Self.rows self.now) };

    /// How many established connections of a kind consume an input. Takes no memory.
    fn count_consuming(&self, kind: Kind, point: u32) -> usize
        ensures { result ≡ count_consuming (Self.rows self.now) kind point };

    /// What the connections tell of the device. Takes no memory.
    ///
    /// Volume 1, chapter 5, Identity object, attribute 5.
    fn io_state(&self) -> IoState
        ensures { result ≡ io_state_of (Self.rows self.now) };

    // OPENING AND CLOSING

    /// The connection of a triad, in any state. Takes no memory.
    fn find(&self, triad: Triad) -> Option<Row>
        ensures { result ≡ find (has_triad triad) (Self.rows self.now) };

    /// The triad of the connection that a new one replaces. Takes no memory.
    fn replaced(&self, triad: Triad) -> Option<Triad>
        ensures { result ≡ replaced_triad (Self.rows self.now) triad };

    /// Appends a connection, and removes the one that it replaces, which `replaced` names. Out of memory is the only
    /// fault.
    fn open(&mut self, replaced: Option<Triad>, row: Row) -> Result<(), OutOfMemory>
        requires whole { AreWhole (Self.rows self.old) }
        requires replaced { replaced ≡ replaced_triad (Self.rows self.old) row.triad }
        requires next { AreWhole (others (is_replaced (Self.rows self.old) row.triad) (Self.rows self.old)
            ++ row ∷ []) }
        ensures ok { OnOk result (Self.rows self.new
            ≡ others (is_replaced (Self.rows self.old) row.triad) (Self.rows self.old) ++ row ∷ []) }
        ensures err { OnErr result (Self.rows self.new ≡ Self.rows self.old) };

    /// The triads of the listen-only connections that lose their support with the connection of a triad, in opening
    /// order. Out of memory is the only fault.
    fn dropped_with(&self, alloc: Global, triad: Triad) -> Result<Vec<Triad>, OutOfMemory>
        ensures { IfOk result (λ dropped. dropped.items
            ≡ map triad_of (unsupported (without_triad triad (Self.rows self.now)))) };

    /// Removes the connection of a triad, and these, which lose their support with it. Takes no memory.
    fn close(&mut self, triad: Triad, dropped: &[Triad])
        requires whole { AreWhole (Self.rows self.old) }
        requires dropped { dropped.now ≡ map triad_of (unsupported (without_triad triad (Self.rows self.old))) }
        requires next { AreWhole (staying (without_triad triad (Self.rows self.old))) }
        ensures { Self.rows self.new ≡ staying (without_triad triad (Self.rows self.old)) };

    // DATAGRAMS

    /// The connection that a datagram is for judges it, and accepts it if it is judged so. Takes no memory.
    ///
    /// Volume 1, chapter 3, class 1 transport and inactivity watchdog.
    fn receive<'a>(
        &mut self,
        profile: &Profile,
        clock: Ms,
        peer: Node,
        datagram: &Datagram<'a>,
    ) -> Option<ReceivedDatagram<'a>>
        requires whole { AreWhole (Self.rows self.old) }
        requires time { clock.0 ≤ 2 ^ 48 }
        ensures received { IsReceived profile.now clock (view_datagram datagram.now)
            (find (is_for peer datagram.now.connection.0) (Self.rows self.old)) result }
        ensures rows { Self.rows self.new
            ≡ receiving profile.now clock peer (view_datagram datagram.now)
            (find (is_for peer datagram.now.connection.0) (Self.rows self.old)) (Self.rows self.old) };

    // TIME

    /// Whether the deadline of an established connection has been reached. Takes no memory.
    ///
    /// Volume 1, chapter 3, inactivity watchdog.
    fn has_expired(&mut self, clock: Ms) -> bool
        ensures expired { result ≡ list_any (has_expired clock) (Self.rows self.old) }
        ensures same { Self.rows self.new ≡ Self.rows self.old };

    /// Whether a producer is due. Takes no memory.
    fn is_due(&self, clock: Ms) -> bool
        ensures { result ≡ list_any (is_due clock) (Self.rows self.now) };

    /// When the first deadline of an established connection is reached or the first producer is due; `u64::MAX` if
    /// there is neither. Takes no memory.
    ///
    /// Volume 1, chapter 3, inactivity watchdog and production triggers.
    fn first_due(&self) -> Ms
        ensures { result.0 ≡ connections_due (Self.rows self.now) };

    /// The datagrams of the producers that are due, one each. Out of memory is the only fault.
    ///
    /// Volume 1, chapter 3, class 1 transport; Volume 2, chapter 3, multicast connections.
    fn sent_when_due(
        &self,
        alloc: Global,
        assemblies: &AssemblySet,
        clock: Ms,
    ) -> Result<Vec<OutgoingDatagram>, OutOfMemory>
        requires { AreWhole (Self.rows self.now) }
        ensures { IfOk result (λ datagrams. datagrams.items
            ≡ map sent (due_productions clock (Self.rows self.now) assemblies.now.values)) };

    /// The producers that are due have produced. Takes no memory.
    ///
    /// Volume 1, chapter 3, production triggers.
    fn produce(&mut self, clock: Ms)
        requires whole { AreWhole (Self.rows self.old) }
        requires time { clock.0 ≤ 2 ^ 48 }
        ensures { Self.rows self.new ≡ map (produced_row clock) (Self.rows self.old) };

    /// What happens when time passes up to this clock. Out of memory is the only fault.
    ///
    /// Volume 1, chapter 3, inactivity watchdog, listen-only application connections and production triggers.
    fn tick_plan(
        &self,
        alloc: Global,
        assemblies: &AssemblySet,
        clock: Ms,
    ) -> Result<TickPlan, OutOfMemory>
        requires { AreWhole (Self.rows self.now) }
        ensures { IfOk result (λ tick_plan.
            IsTickPlan clock (Self.rows self.now) assemblies.now.values tick_plan) };

    /// The connections that expire time out, those that lose their support are dropped, and the producers that are
    /// due have produced. Takes no memory.
    fn advance(&mut self, clock: Ms, timed_out: &[Row], dropped: &[Triad])
        requires whole { AreWhole (Self.rows self.old) }
        requires expired { timed_out.now ≡ expired clock (Self.rows self.old) }
        requires dropped { dropped.now ≡ map triad_of (unsupported (expired_rows clock (Self.rows self.old))) }
        requires next { AreWhole (advanced_rows clock (Self.rows self.old)) }
        requires time { clock.0 ≤ 2 ^ 48 }
        ensures { Self.rows self.new ≡ advanced_rows clock (Self.rows self.old) };

    // WRITES

    /// Whether a write of an input makes a producer produce at once. Takes no memory.
    ///
    /// Volume 1, chapter 3, production triggers and production inhibit time.
    fn produces_at_once(&self, clock: Ms, point: u32) -> bool
        requires { clock.0 ≤ 2 ^ 48 }
        ensures { result ≡ list_any (produces_on_change clock point) (Self.rows self.now) };

    /// The datagrams that the producers of an input send at once when these bytes are written there. Out of memory is
    /// the only fault.
    fn sent_on_change(
        &self,
        alloc: Global,
        clock: Ms,
        point: u32,
        input: &[u8],
    ) -> Result<Vec<OutgoingDatagram>, OutOfMemory>
        requires whole { AreWhole (Self.rows self.now) }
        requires time { clock.0 ≤ 2 ^ 48 }
        requires short { length input.now ≤ 65533 }
        ensures { IfOk result (λ datagrams. datagrams.items
            ≡ map sent (productions_on_change clock point input.now (map (written_row point) (Self.rows self.now)))) };

    /// The producers of an input have new data, and its change-of-state producers have acted on the write. Takes no
    /// memory.
    fn write(&mut self, clock: Ms, point: u32)
        requires whole { AreWhole (Self.rows self.old) }
        requires time { clock.0 ≤ 2 ^ 48 }
        ensures { Self.rows self.new ≡ map (changed_row clock point) (map (written_row point) (Self.rows self.old)) };
}
