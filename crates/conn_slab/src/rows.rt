//! The connections, one after another.

ghost use Rattle.std.specs.Iterator.{YieldsFirst, item_count};

use crate::producers::{hint_after, row_of};
use crate::record::{Record, TriadKey};
use adapter_table::Row;
use indexmap::map::Values;
use mcast_pool::Pool;
use slab::Slab;
use std::marker::Model;

/// The connections in opening order, which contracts see as the list of those still to come.
#[derive(Drop)]
pub struct Rows<'a> {
    pub(crate) records: &'a Slab<Record>,
    pub(crate) keys: Values<'a, TriadKey, usize>,
    pub(crate) pool: &'a Pool,
    /// The index to try first for the next producer.
    pub(crate) hint: usize,
}

impl<'a> Model for Rows<'a> {
    ghost use Rattle.std.specs.Prelude.{List, map};
    ghost use Rattle.adapter_table.specs.Connections.{Row};

    ghost Value = { List Row };

    ghost use Rattle.std.specs.List.{filter_map, AllByRecursion};
    ghost use Rattle.slab.specs.Slab.{get};
    ghost use Rattle.conn_slab.specs.Records.{row_of};
    ghost use Rattle.conn_slab.specs.Layout.{Leads};

    ghost view = { λ it. map (row_of it.pool.now) (filter_map (get it.records.now) it.keys) };

    ghost invariant = { λ it. AllByRecursion (Leads it.records.now it.pool.now) it.keys };
}

impl<'a> Iterator for Rows<'a> {
    type Item = Row;

    ghost next_gives = { YieldsFirst (λ rest. rest) };

    ghost remaining = { item_count (λ rest. rest) };

    #[inline(always)]
    fn next(&mut self) -> Option<Row> {
        let key = self.keys.next()?;
        let record = self.records.get(*key)?;
        let row = row_of(self.pool, record, self.hint);
        self.hint = hint_after(self.pool, record, self.hint);
        Some(row)
    }
}
