//! Running counts of owners and supporters.

ghost use Rattle.std.specs.Prelude.{◌≡◌, ◌<◌, ◌++◌, ◌∷◌, [], List, IfOk};
ghost use Rattle.adapter_table.specs.Connections.{Row};
ghost use Rattle.adapter_table.specs.Rows.{drives, supports};
ghost use Rattle.cip_productions.specs.declared.kind.Kind.{Kind};
ghost use Rattle.app_rules.specs.Counts.{number_at, total, AreCounted, HasJoined};

use crate::counts::{Count, count_in_if, count_out_if, number_at};
use adapter_table::{Row, drives, supports};
use cip_productions::Kind;
use cip_types::OutOfMemory;
use cip_types::limits::MOST_CONNECTIONS;
use std::alloc::Global;
use std::marker::Model;

/// How many established exclusive owners each output has, and how many established connections support the
/// listen-only ones of each input, as connections join and leave. Only `new` takes memory.
///
/// Volume 1, chapter 3, application connection types.
#[derive(Drop)]
pub struct Rules {
    owners: Vec<Count>,
    supporters: Vec<Count>,
}

impl Model for Rules {
    ghost use Rattle.std.specs.Prelude.{vec_capacity};
    ghost use Rattle.app_rules.specs.Counts.{Counts, AreRules};

    ghost Value = { Counts };

    ghost view = { λ r. record { owners = r.owners.items; supporters = r.supporters.items } };

    ghost invariant = { λ r. AreRules r.owners.items (vec_capacity r.owners) r.supporters.items (vec_capacity r.supporters) };
}

/// Whether a connection drives an output.
fn is_driver(row: &Row) -> bool
    ensures { result ≡ drives row.now.consumed row.now }
{
    drives(row, row.consumed)
}

/// Whether a connection supports the listen-only ones of its input.
fn is_supporter(row: &Row) -> bool
    ensures { result ≡ supports Kind.ListenOnly row.now.produced row.now }
{
    supports(row, Kind::ListenOnly, row.produced)
}

impl Rules {
    /// Counts of no connections, with capacity for the most that there can be. Out of memory is the only fault.
    pub fn new(alloc: Global) -> Result<Self, OutOfMemory>
        ensures { IfOk result (λ rules. AreCounted rules []) }
    {
        Ok(Rules {
            owners: Vec::with_capacity(alloc, MOST_CONNECTIONS)?,
            supporters: Vec::with_capacity(alloc, MOST_CONNECTIONS)?,
        })
    }

    /// How many established exclusive owners an output has. Takes no memory.
    pub fn owners(&self, point: u32) -> u32
        ensures { result ≡ number_at point self.now.owners }
    {
        number_at(&self.owners, point)
    }

    /// How many established connections support the listen-only ones of an input. Takes no memory.
    pub fn supporters(&self, point: u32) -> u32
        ensures { result ≡ number_at point self.now.supporters }
    {
        number_at(&self.supporters, point)
    }

    /// Counts a connection that joined. Fewer than 64 were counted before. Takes no memory.
    pub fn joined(&mut self, row: &Row)
        requires owners { total self.old.owners < 64 }
        requires supporters { total self.old.supporters < 64 }
        ensures { (rows : List Row) → AreCounted self.old rows → AreCounted self.new (rows ++ row.now ∷ []) }
    {
        count_in_if(&mut self.owners, is_driver(row), row.consumed);
        count_in_if(&mut self.supporters, is_supporter(row), row.produced);
    }

    /// No longer counts a connection that had joined and left. Takes no memory.
    pub fn left(&mut self, row: &Row)
        requires { HasJoined row.now self.old }
        ensures { (front back : List Row) → AreCounted self.old (front ++ row.now ∷ back)
            → AreCounted self.new (front ++ back) }
    {
        count_out_if(&mut self.owners, is_driver(row), row.consumed);
        count_out_if(&mut self.supporters, is_supporter(row), row.produced);
    }
}
