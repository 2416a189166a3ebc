//! Listen-only connections that lose their support.

ghost use Rattle.std.specs.Prelude.{◌≡◌, map, IfOk};
ghost use Rattle.adapter_table.specs.Opening.{triad_of};
ghost use Rattle.adapter_table.specs.Rows.{is_unsupported};
ghost use Rattle.adapter_table.specs.Closing.{without_triad, unsupported};
ghost use Rattle.indexed_connections.specs.List.Removals.{without_each};

use crate::list::rows::remove_triad;
use adapter_table::{Row, is_established, is_supported};
use cip_productions::Kind;
use cip_types::{OutOfMemory, Triad};
use std::alloc::Global;

/// Whether a connection is an established listen-only one without support.
fn is_unsupported(rows: &[Row], row: &Row) -> bool
    ensures { result ≡ is_unsupported rows.now row.now }
{
    is_established(row)
        && row.kind == Kind::ListenOnly
        && !is_supported(rows, row.kind, row.produced)
}

/// The triads of the listen-only connections without support, in opening order.
///
/// Volume 1, chapter 3, listen-only application connections.
pub fn unsupported(alloc: Global, rows: &[Row]) -> Result<Vec<Triad>, OutOfMemory>
    ensures { IfOk result (λ triads. triads.items ≡ map triad_of (unsupported rows.now)) }
{
    let mut triads = Vec::new(alloc);
    for row in rows {
        if is_unsupported(rows, row) {
            triads.push(row.triad)?;
        }
    }
    Ok(triads)
}

/// The triads of the listen-only connections that lose their support with the connection of a triad, in opening
/// order. Out of memory is the only fault.
pub fn dropped_with(
    alloc: Global,
    mut rows: Vec<Row>,
    triad: Triad,
) -> Result<Vec<Triad>, OutOfMemory>
    ensures { IfOk result (λ dropped. dropped.items ≡ map triad_of (unsupported (without_triad triad rows.items))) }
{
    remove_triad(&mut rows, triad);
    unsupported(alloc, &rows)
}

/// Removes the connections of triads. Takes no memory.
pub fn remove_each(rows: &mut Vec<Row>, triads: &[Triad])
    ensures { rows.new.items ≡ without_each triads.now rows.old.items }
{
    for triad in triads {
        remove_triad(rows, *triad);
    }
}
