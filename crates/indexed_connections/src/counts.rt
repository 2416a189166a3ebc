//! Opening, closing and time-out of connections, with running counts of their owners and supporters.

ghost use Rattle.std.specs.Prelude.{◌≡◌, ◌≤◌, ◌++◌, ◌∷◌, [], OnOk, OnErr, IfOk, map, length};
ghost use Rattle.adapter_table.specs.Closing.{without_triad};
ghost use Rattle.adapter_table.specs.Sound.{TriadsDiffer};
ghost use Rattle.conn_slab.specs.Connections.{AreConnections, without, timed_out_if};
ghost use Rattle.app_rules.specs.Counts.{AreCounted};
ghost use Rattle.indexed_connections.specs.List.Removals.{without_each};
ghost use Rattle.indexed_connections.specs.CountChanges.{named, HaveJoined, AreLess, timed_out_each};

use adapter_table::Row;
use app_rules::Rules;
use cip_types::{OutOfMemory, Triad};
use conn_slab::Connections;
use std::alloc::Global;

/// Counts of these connections. Out of memory is the only fault.
pub fn counted(alloc: Global, rows: &[Row]) -> Result<Rules, OutOfMemory>
    requires { length rows.now ≤ 64 }
    ensures { IfOk result (λ rules. AreCounted rules rows.now) }
{
    let mut rules = Rules::new(alloc)?;
    for row in rows {
        rules.joined(row);
    }
    Ok(rules)
}

/// No longer counts a connection that had joined, if there is one. Takes no memory.
fn forget(rules: &mut Rules, removed: Option<Row>)
    requires { HaveJoined removed rules.old }
    ensures { AreLess removed rules.old rules.new }
{
    if let Some(row) = removed {
        rules.left(&row);
    }
}

/// The connection of the triad, if one is named.
fn named(connections: &Connections, triad: Option<Triad>) -> Option<Row>
    ensures { result ≡ named triad connections.now }
{
    match triad {
        Some(triad) => connections.of(triad),
        None => None,
    }
}

/// Appends a connection, and removes the one of the named triad. Out of memory is the only fault, and then nothing is
/// changed.
///
/// Volume 1, chapter 3, Forward_Open.
pub fn open(
    connections: &mut Connections,
    rules: &mut Rules,
    removed: Option<Triad>,
    row: Row,
) -> Result<(), OutOfMemory>
    requires counted { AreCounted rules.old connections.old }
    requires differ { TriadsDiffer connections.old }
    requires next { AreConnections (without removed connections.old ++ row ∷ []) }
    ensures rows { OnOk result (connections.new ≡ without removed connections.old ++ row ∷ []) }
    ensures unchanged { OnErr result (connections.new ≡ connections.old) }
    ensures counted { AreCounted rules.new connections.new }
{
    let replaced_row = named(connections, removed);
    connections.open(removed, row)?;
    forget(rules, replaced_row);
    rules.joined(&row);
    Ok(())
}

/// Removes the connection of a triad, in any state. Takes no memory.
///
/// Volume 1, chapter 3, Forward_Close.
pub fn close(connections: &mut Connections, rules: &mut Rules, triad: Triad)
    requires counted { AreCounted rules.old connections.old }
    requires differ { TriadsDiffer connections.old }
    ensures rows { connections.new ≡ without_triad triad connections.old }
    ensures counted { AreCounted rules.new connections.new }
{
    let removed = connections.close(triad);
    forget(rules, removed);
}

/// The established connection of a triad times out. Takes no memory.
fn time_out(connections: &mut Connections, rules: &mut Rules, triad: Triad)
    requires counted { AreCounted rules.old connections.old }
    requires differ { TriadsDiffer connections.old }
    ensures rows { connections.new ≡ map (timed_out_if triad) connections.old }
    ensures counted { AreCounted rules.new connections.new }
{
    let removed = connections.of(triad);
    connections.expire(triad);
    forget(rules, removed);
}

/// These connections time out. Takes no memory.
///
/// Volume 1, chapter 3, inactivity watchdog.
pub fn expire(connections: &mut Connections, rules: &mut Rules, timed_out: &[Row])
    requires counted { AreCounted rules.old connections.old }
    requires differ { TriadsDiffer connections.old }
    ensures rows { connections.new ≡ timed_out_each timed_out.now connections.old }
    ensures counted { AreCounted rules.new connections.new }
{
    for row in timed_out {
        time_out(connections, rules, row.triad);
    }
}

/// Removes the connections of triads. Takes no memory.
///
/// Volume 1, chapter 3, listen-only application connections.
pub fn close_each(connections: &mut Connections, rules: &mut Rules, triads: &[Triad])
    requires counted { AreCounted rules.old connections.old }
    requires differ { TriadsDiffer connections.old }
    ensures rows { connections.new ≡ without_each triads.now connections.old }
    ensures counted { AreCounted rules.new connections.new }
{
    for triad in triads {
        close(connections, rules, *triad);
    }
}
