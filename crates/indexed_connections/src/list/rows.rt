//! Lists of connections.

ghost use Rattle.std.specs.Prelude.{◌≡◌, ◌≤◌, vec_len, vec_capacity, ◌∷◌, ◌++◌, [], find, OnOk, OnErr, IfOk, map};
ghost use Rattle.adapter_table.specs.Rows.{has_triad, is_timed_out, written_row};
ghost use Rattle.adapter_table.specs.Closing.{without_triad};
ghost use Rattle.adapter_table.specs.Opening.{is_replaced, replaced_triad};
ghost use Rattle.indexed_connections.specs.List.Replacing.{is_opened_at, left_by};

use adapter_table::{Row, has_triad, is_timed_out, written_row};
use cip_types::limits::MOST_CONNECTIONS;
use cip_types::{OutOfMemory, Triad};
use std::alloc::Global;

/// The connection of a triad, in any state.
pub fn find_row(rows: &[Row], triad: Triad) -> Option<Row>
    ensures { result ≡ find (has_triad triad) rows.now }
{
    rows.iter().copied().find(|row| has_triad(row, triad))
}

/// The timed-out connection that was opened first.
fn first_timed_out(rows: &[Row]) -> Option<Row>
    ensures { result ≡ find is_timed_out rows.now }
{
    rows.iter().copied().find(|row| is_timed_out(row))
}

fn find_opening(rows: &[Row], opening: u32) -> Option<Row>
    ensures { result ≡ find (is_opened_at opening) rows.now }
{
    rows.iter().copied().find(|row| row.opening == opening)
}

/// The connection that a new one of a triad replaces.
fn replaced_row(rows: &[Row], triad: Triad) -> Option<Row>
    ensures { result ≡ find (is_replaced rows.now triad) rows.now }
{
    if let Some(row) = find_row(rows, triad) {
        return Some(row);
    }
    if rows.len() < MOST_CONNECTIONS {
        return None;
    }
    let first = first_timed_out(rows)?;
    find_opening(rows, first.opening)
}

/// The triad of the connection that a new one replaces. Takes no memory.
pub fn replaced(rows: &[Row], triad: Triad) -> Option<Triad>
    ensures { result ≡ replaced_triad rows.now triad }
{
    match replaced_row(rows, triad) {
        Some(row) => Some(row.triad),
        None => None,
    }
}

/// Removes the connection of a triad, if there is one. Takes no memory.
pub fn remove_triad(rows: &mut Vec<Row>, triad: Triad)
    ensures items { rows.new.items ≡ without_triad triad rows.old.items }
    ensures len { vec_len rows.new ≤ vec_len rows.old }
    ensures capacity { vec_capacity rows.new ≡ vec_capacity rows.old }
{
    rows.retain(|row| !has_triad(row, triad));
}

/// Appends a connection, and removes the one that it replaces. Out of memory is the only fault.
pub fn append_row(rows: &mut Vec<Row>, replaced: Option<Triad>, row: Row) -> Result<(), OutOfMemory>
    ensures ok { OnOk result (rows.new.items ≡ left_by replaced rows.old.items ++ row ∷ []) }
    ensures err { OnErr result (rows.new.items ≡ rows.old.items) }
{
    rows.reserve(1)?;
    if let Some(triad) = replaced {
        remove_triad(rows, triad);
    }
    rows.push_reserved(row);
    Ok(())
}

/// A copy of the connections.
pub fn copied(alloc: Global, rows: &[Row]) -> Result<Vec<Row>, OutOfMemory>
    ensures { IfOk result (λ copy. copy.items ≡ rows.now) }
{
    Ok(Vec::from_slice(alloc, rows)?)
}

/// The producers of an input have new data. Takes no memory.
pub fn write_rows(rows: &mut [Row], point: u32)
    ensures { rows.new ≡ map (written_row point) rows.old }
{
    for row in rows.iter_mut() {
        *row = written_row(*row, point);
    }
}
