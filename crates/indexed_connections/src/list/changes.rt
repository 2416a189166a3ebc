//! Changes of state: the producers of an input after a write.

ghost use Rattle.std.specs.Prelude.{◌≡◌, ◌≤◌, ◌^◌, map, length, IfOk};
ghost use Rattle.std.specs.List.{list_any, filter_map};
ghost use Rattle.cip_productions.specs.Productions.{sent};
ghost use Rattle.adapter_table.specs.Productions.{produces_on_change, producers_on_change, production_of, productions_on_change, changed_row};
ghost use Rattle.adapter_table.specs.Rows.{written_row};
ghost use Rattle.adapter_table.specs.Whole.{RowsFit};
ghost use Rattle.indexed_connections.specs.List.Orders.{picked};

use crate::list::order::ProducerOrder;
use crate::list::producers::{datagram, each_producer};
use crate::list::rows::{copied, write_rows};
use adapter_table::{Row, changed_row, producer_in, produces_on_change};
use cip_events::OutgoingDatagram;
use cip_productions::Producer;
use cip_types::{Ms, OutOfMemory, sorted};
use std::alloc::Global;

/// Whether a write of the input makes a producer produce at once. Takes no memory.
///
/// Volume 1, chapter 3, production triggers and production inhibit time.
pub fn produces_at_once(rows: &[Row], clock: Ms, point: u32) -> bool
    requires { clock.0 ≤ 2 ^ 48 }
    ensures { result ≡ list_any (produces_on_change clock point) rows.now }
{
    rows.iter().any(|row| produces_on_change(row, clock, point))
}

/// The producer of a connection, if a write of the input makes it produce at once.
fn changing_in(row: &Row, clock: Ms, point: u32) -> Option<Producer>
    requires { clock.0 ≤ 2 ^ 48 }
    ensures { result ≡ picked (produces_on_change clock point) row.now }
{
    if !produces_on_change(row, clock, point) {
        return None;
    }
    producer_in(row)
}

/// The producers of the connections whose producer does.
fn all_changing(
    alloc: Global,
    rows: &[Row],
    clock: Ms,
    point: u32,
) -> Result<Vec<Producer>, OutOfMemory>
    requires { clock.0 ≤ 2 ^ 48 }
    ensures { IfOk result (λ all. all.items ≡ filter_map (picked (produces_on_change clock point)) rows.now) }
{
    Ok(
        rows.iter()
            .filter_map(|row| changing_in(row, clock, point))
            .collect(alloc)?,
    )
}

/// The producers of an input that produce at once when it is written, by their numbers.
fn producers_on_change(
    alloc: Global,
    rows: &[Row],
    clock: Ms,
    point: u32,
) -> Result<Vec<Producer>, OutOfMemory>
    requires { clock.0 ≤ 2 ^ 48 }
    ensures { IfOk result (λ changing. changing.items ≡ producers_on_change clock point rows.now) }
{
    let all = all_changing(alloc, rows, clock, point)?;
    let each = each_producer(alloc, &all)?;
    sorted(alloc, &each, &ProducerOrder::Number)
}

/// The datagrams of these producers, if their input holds these bytes.
fn datagrams(
    alloc: Global,
    rows: &[Row],
    input: &[u8],
    changing: &[Producer],
) -> Result<Vec<OutgoingDatagram>, OutOfMemory>
    requires { length input.now ≤ 65533 }
    ensures { IfOk result (λ datagrams. datagrams.items
        ≡ map sent (map (production_of rows.now input.now) changing.now)) }
{
    let mut datagrams = Vec::new(alloc);
    for producer in changing {
        datagrams.push(datagram(alloc, rows, input, producer)?)?;
    }
    Ok(datagrams)
}

/// The datagrams that the change-of-state producers of an input send at once, if it holds these bytes.
///
/// Volume 1, chapter 3, production triggers and production inhibit time.
pub fn sent_on_change(
    alloc: Global,
    rows: &[Row],
    clock: Ms,
    point: u32,
    input: &[u8],
) -> Result<Vec<OutgoingDatagram>, OutOfMemory>
    requires time { clock.0 ≤ 2 ^ 48 }
    requires short { length input.now ≤ 65533 }
    ensures { IfOk result (λ datagrams. datagrams.items
        ≡ map sent (productions_on_change clock point input.now rows.now)) }
{
    let changing = producers_on_change(alloc, rows, clock, point)?;
    datagrams(alloc, rows, input, &changing)
}

/// The change-of-state producers of an input have acted on a write.
fn change_rows(rows: &mut [Row], clock: Ms, point: u32)
    requires fit { RowsFit rows.old }
    requires time { clock.0 ≤ 2 ^ 48 }
    ensures { rows.new ≡ map (changed_row clock point) rows.old }
{
    for row in rows.iter_mut() {
        *row = changed_row(*row, clock, point);
    }
}

/// The connections once the producers of an input have new data.
pub fn written_rows(alloc: Global, rows: &[Row], point: u32) -> Result<Vec<Row>, OutOfMemory>
    ensures { IfOk result (λ written. written.items ≡ map (written_row point) rows.now) }
{
    let mut written = copied(alloc, rows)?;
    write_rows(&mut written, point);
    Ok(written)
}

/// The producers of an input have new data, and its change-of-state producers have acted on the write. Takes no
/// memory.
pub fn write_and_change_rows(rows: &mut [Row], clock: Ms, point: u32)
    requires fit { RowsFit rows.old }
    requires time { clock.0 ≤ 2 ^ 48 }
    ensures { rows.new ≡ map (changed_row clock point) (map (written_row point) rows.old) }
{
    write_rows(rows, point);
    change_rows(rows, clock, point);
}
