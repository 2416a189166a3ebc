//! What an adapter holds.

mod class3_connections;
mod closings;
mod counting;
mod datagrams;
mod ids;
mod messages;
mod openings;
mod own;
mod points;
mod reports;
mod streams;
mod time;

ghost use Rattle.std.specs.Prelude.{◌≡◌, ◌≤◌, ◌^◌, IfOk};
ghost use Rattle.adapter_table.specs.Profiles.{profile_fault};
ghost use Rattle.adapter_table.specs.Rates.{counted_at, has_opened_enough_at};
ghost use Rattle.adapter_table.specs.Step.{adapter_table};
ghost use Rattle.adapter_table.specs.Whole.{IsWhole};

use adapter_table::laws::tables_are_whole;
use adapter_table::{
    AdapterTable, DeviceCounters, NodeOpenings, Profile, Stream, counted_openings,
    has_opened_enough,
};
use assembly_set::AssemblySet;
use cip_types::{IdBlock, Items, Ms, Node, OutOfMemory, copied_streams, one_block};
use indexed_connections::ConnectionTable;
use messaging::MessagingState;
use std::alloc::Global;
use std::marker::Model;

/// What an adapter over a table of connections holds, which contracts see as its table.
///
/// It keeps the allocator that it was made with. The kind of the table shows in no outcome: the contract of
/// `ConnectionTable` says each call's result.
#[derive(Drop)]
pub struct AdapterState<T: ConnectionTable> {
    alloc: Global,
    assemblies: AssemblySet,
    table: T,
    clock: Ms,
    ids: Vec<IdBlock>,
    next_id: u32,
    streams: Vec<Stream>,
    messaging: MessagingState,
    openings: Vec<NodeOpenings>,
    counters: DeviceCounters,
}

impl<T: ConnectionTable> Model for AdapterState<T> {
    ghost use Rattle.adapter_table.specs.declared.table.AdapterTable.{AdapterTable};
    ghost use Rattle.adapter_table.specs.Whole.{IsWhole};

    ghost Value = { AdapterTable };

    ghost view = { λ a. record { profile = a.assemblies.profile; rows = T.rows a.table; values = a.assemblies.values; clock = a.clock; ids = a.ids.items; next_id = a.next_id; streams = a.streams.items; messaging = a.messaging; openings = a.openings.items; counters = a.counters } };

    ghost invariant = { λ a. IsWhole (record { profile = a.assemblies.profile; rows = T.rows a.table; values = a.assemblies.values; clock = a.clock; ids = a.ids.items; next_id = a.next_id; streams = a.streams.items; messaging = a.messaging; openings = a.openings.items; counters = a.counters }) };
}

impl<T: ConnectionTable> AdapterState<T> {
    /// A fresh adapter of a profile that passes its check. `OutOfMemory` is the only error.
    pub fn new(alloc: Global, profile: &Profile) -> Result<Self, OutOfMemory>
        requires { profile_fault profile.now ≡ None }
        ensures { IfOk result (λ state. state ≡ adapter_table profile.now) }
    {
        // The table of a fresh adapter is whole.
        tables_are_whole();
        let assemblies = AssemblySet::new(alloc, profile)?;
        Ok(AdapterState {
            alloc,
            assemblies,
            table: T::new(alloc)?,
            clock: Ms(0),
            ids: one_block(alloc, profile.first_ids())?,
            next_id: 1,
            streams: Vec::new(alloc),
            messaging: MessagingState::new(alloc, profile.first_request()),
            openings: Vec::new(alloc),
            counters: DeviceCounters::new(alloc),
        })
    }

    /// An adapter that goes on from a table. `OutOfMemory` is the only error.
    pub fn holding(alloc: Global, table: &AdapterTable) -> Result<Self, OutOfMemory>
        requires { IsWhole table.now }
        ensures { IfOk result (λ state. state ≡ table.now) }
    {
        let assemblies = AssemblySet::holding(alloc, &table.profile, table.values.as_slice())?;
        Ok(AdapterState {
            alloc,
            assemblies,
            table: T::holding(alloc, table.rows.as_slice())?,
            clock: table.clock,
            ids: Vec::from_slice(alloc, table.ids.as_slice())?,
            next_id: table.next_id,
            streams: copied_streams(alloc, table.streams.as_slice())?,
            messaging: MessagingState::holding(alloc, &table.messaging)?,
            openings: Vec::from_slice(alloc, table.openings.as_slice())?,
            counters: table.counters.copy(alloc)?,
        })
    }

    /// A copy of the table. `OutOfMemory` is the only error.
    pub fn copy(&self) -> Result<AdapterTable, OutOfMemory>
        ensures { IfOk result (λ table. table ≡ self.now) }
    {
        Ok(AdapterTable {
            profile: self.assemblies.profile().copy(self.alloc)?,
            rows: Items::from_vec(self.table.to_vec(self.alloc)?),
            values: self.assemblies.copy_values(self.alloc)?,
            clock: self.clock,
            ids: Items::copy_of(self.alloc, &self.ids)?,
            next_id: self.next_id,
            streams: Items::copy_of(self.alloc, &self.streams)?,
            messaging: self.messaging.copy(self.alloc)?,
            openings: Items::copy_of(self.alloc, &self.openings)?,
            counters: self.counters.copy(self.alloc)?,
        })
    }
}

impl<T: ConnectionTable> AdapterState<T> {
    /// The openings once a node has opened a connection. `OutOfMemory` is the only error.
    fn counted_openings(&self, node: Node) -> Result<Vec<NodeOpenings>, OutOfMemory>
        ensures { IfOk result (λ openings. openings.items ≡ counted_at self.now node) }
    {
        let most = self.assemblies.profile().limits.most_openings();
        counted_openings(self.alloc, most, self.clock, node, &self.openings)
    }

    /// Gives the prover that the table is whole.
    pub fn is_whole(&self)
        ensures { IsWhole self.now }
    {
        let _clock = self.clock;
    }

    /// The allocator that the adapter was made with.
    pub fn alloc(&self) -> Global {
        self.alloc
    }

    /// The points, and the bytes that they hold.
    pub fn assemblies(&self) -> &AssemblySet
        ensures profile { result.now.profile ≡ self.now.profile }
        ensures values { result.now.values ≡ self.now.values }
    {
        &self.assemblies
    }

    /// The profile, which passes its check.
    pub fn profile(&self) -> &Profile
        ensures { result.now ≡ self.now.profile }
    {
        self.assemblies.profile()
    }

    /// The connections of class 1.
    pub fn connections(&self) -> &T
        ensures { T.rows result.now ≡ self.now.rows }
    {
        &self.table
    }

    /// The connections of class 3, and the requests that wait for the application.
    pub fn messaging(&self) -> &MessagingState
        ensures { result.now ≡ self.now.messaging }
    {
        &self.messaging
    }

    /// What was counted.
    pub fn counters(&self) -> &DeviceCounters
        ensures { result.now ≡ self.now.counters }
    {
        &self.counters
    }

    /// The open streams.
    pub fn streams(&self) -> &[Stream]
        ensures { result.now ≡ self.now.streams }
    {
        &self.streams
    }

    /// Whether a node has opened as many connections in its second as the maker states. Takes no memory.
    ///
    /// Volume 1, chapter 3, Connection Manager object.
    pub fn has_opened_enough(&self, node: Node) -> bool
        ensures { result ≡ has_opened_enough_at self.now node }
    {
        let most = self.assemblies.profile().limits.most_openings();
        has_opened_enough(most, self.clock, node, &self.openings)
    }

    /// The milliseconds that have passed.
    #[inline(always)]
    pub fn clock(&self) -> Ms
        ensures value { result ≡ self.now.clock }
        ensures fits { result.0 ≤ 2 ^ 48 }
    {
        self.clock
    }

    /// The blocks of connection ids.
    pub fn ids(&self) -> &[IdBlock]
        ensures { result.now ≡ self.now.ids }
    {
        &self.ids
    }

    /// The number of the next connection id.
    pub fn next_id(&self) -> u32
        ensures { result ≡ self.now.next_id }
    {
        self.next_id
    }
}
