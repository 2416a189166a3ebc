//! Productions that are due.

ghost use Rattle.std.specs.Prelude.{◌≡◌, ◌≤◌, ◌^◌, map, IfOk};
ghost use Rattle.std.specs.List.{filter_map};
ghost use Rattle.cip_productions.specs.Productions.{sent};
ghost use Rattle.adapter_table.specs.Productions.{is_due, due_producers, due_production, due_productions, produced_row};
ghost use Rattle.adapter_table.specs.Whole.{RowsFit};
ghost use Rattle.indexed_connections.specs.List.Orders.{picked};

use crate::list::order::ProducerOrder;
use crate::list::producers::{datagram, each_producer};
use adapter_table::{Row, is_due, produced_row, producer_in};
use assembly_set::AssemblySet;
use cip_events::OutgoingDatagram;
use cip_productions::Producer;
use cip_types::{Ms, OutOfMemory, sorted};
use std::alloc::Global;

/// The producer of a connection, if it is due.
fn due_in(row: &Row, clock: Ms) -> Option<Producer>
    ensures { result ≡ picked (is_due clock) row.now }
{
    if !is_due(row, clock) {
        return None;
    }
    producer_in(row)
}

/// The producers of the connections whose producer is due.
fn all_due(alloc: Global, rows: &[Row], clock: Ms) -> Result<Vec<Producer>, OutOfMemory>
    ensures { IfOk result (λ all. all.items ≡ filter_map (picked (is_due clock)) rows.now) }
{
    Ok(
        rows.iter()
            .filter_map(|row| due_in(row, clock))
            .collect(alloc)?,
    )
}

/// The producers that are due, by the time at which they are, and then by their numbers.
fn due_producers(alloc: Global, rows: &[Row], clock: Ms) -> Result<Vec<Producer>, OutOfMemory>
    ensures { IfOk result (λ due. due.items ≡ due_producers clock rows.now) }
{
    let all = all_due(alloc, rows, clock)?;
    let each = each_producer(alloc, &all)?;
    sorted(alloc, &each, &ProducerOrder::Due)
}

/// The datagram of a producer that is due.
fn due_datagram(
    alloc: Global,
    rows: &[Row],
    assemblies: &AssemblySet,
    producer: &Producer,
) -> Result<OutgoingDatagram, OutOfMemory>
    ensures { IfOk result (λ datagram. datagram ≡ sent (due_production rows.now assemblies.now.values producer.now)) }
{
    datagram(alloc, rows, assemblies.input_of(producer), producer)
}

/// The datagrams of these producers.
fn datagrams(
    alloc: Global,
    rows: &[Row],
    assemblies: &AssemblySet,
    due: &[Producer],
) -> Result<Vec<OutgoingDatagram>, OutOfMemory>
    ensures { IfOk result (λ datagrams. datagrams.items
        ≡ map sent (map (due_production rows.now assemblies.now.values) due.now)) }
{
    let mut datagrams = Vec::new(alloc);
    for producer in due {
        datagrams.push(due_datagram(alloc, rows, assemblies, producer)?)?;
    }
    Ok(datagrams)
}

/// The datagrams of the producers that are due, one each.
///
/// Volume 1, chapter 3, class 1 transport; Volume 2, chapter 3, multicast connections.
pub fn sent_when_due(
    alloc: Global,
    rows: &[Row],
    assemblies: &AssemblySet,
    clock: Ms,
) -> Result<Vec<OutgoingDatagram>, OutOfMemory>
    ensures { IfOk result (λ datagrams. datagrams.items
        ≡ map sent (due_productions clock rows.now assemblies.now.values)) }
{
    let due = due_producers(alloc, rows, clock)?;
    datagrams(alloc, rows, assemblies, &due)
}

/// The producers that are due have produced. Takes no memory.
///
/// Volume 1, chapter 3, production triggers.
pub fn produce_rows(rows: &mut [Row], clock: Ms)
    requires fit { RowsFit rows.old }
    requires time { clock.0 ≤ 2 ^ 48 }
    ensures { rows.new ≡ map (produced_row clock) rows.old }
{
    for row in rows.iter_mut() {
        *row = produced_row(*row, clock);
    }
}
