//! Connections that time out, and what happens when time passes.

ghost use Rattle.std.specs.Prelude.{◌≡◌, filter, IfOk};
ghost use Rattle.adapter_table.specs.Sound.{TriadsDiffer};
ghost use Rattle.adapter_table.specs.Ticks.{has_expired, expired, expired_rows};
ghost use Rattle.indexed_connections.specs.List.Tables.{IsTickPlan};

use crate::list::order::ByDeadline;
use crate::list::productions::sent_when_due;
use crate::list::support::{remove_each, unsupported};
use crate::list::table::TickPlan;
use adapter_table::{Row, expired_row, has_expired};
use assembly_set::AssemblySet;
use cip_types::{Ms, OutOfMemory, sorted};
use std::alloc::Global;

/// The connections whose deadline has been reached, by their deadlines and then in the order of openings.
///
/// Volume 1, chapter 3, inactivity watchdog.
pub fn expired(alloc: Global, rows: &[Row], clock: Ms) -> Result<Vec<Row>, OutOfMemory>
    ensures { IfOk result (λ timed_out. timed_out.items ≡ expired clock rows.now) }
{
    let timed_out = expiring(alloc, rows, clock)?;
    sorted(alloc, &timed_out, &ByDeadline)
}

fn expiring(alloc: Global, rows: &[Row], clock: Ms) -> Result<Vec<Row>, OutOfMemory>
    ensures { IfOk result (λ timed_out. timed_out.items ≡ filter (has_expired clock) rows.now) }
{
    Ok(
        rows.iter()
            .copied()
            .filter(|row| has_expired(row, clock))
            .collect(alloc)?,
    )
}

/// The connections whose deadline has been reached time out. Takes no memory.
///
/// Volume 1, chapter 3, inactivity watchdog.
pub fn expire_rows(rows: &mut [Row], clock: Ms)
    ensures { rows.new ≡ expired_rows clock rows.old }
{
    for row in rows.iter_mut() {
        *row = expired_row(*row, clock);
    }
}

/// What happens to these connections when time passes up to this clock. Out of memory is the only fault.
pub fn tick_plan(
    alloc: Global,
    mut rows: Vec<Row>,
    assemblies: &AssemblySet,
    clock: Ms,
) -> Result<TickPlan, OutOfMemory>
    requires { TriadsDiffer rows.items }
    ensures { IfOk result (λ tick_plan. IsTickPlan clock rows.items assemblies.now.values tick_plan) }
{
    let expired = expired(alloc, &rows, clock)?;
    expire_rows(&mut rows, clock);
    let dropped = unsupported(alloc, &rows)?;
    remove_each(&mut rows, &dropped);
    let datagrams = sent_when_due(alloc, &rows, assemblies, clock)?;
    Ok(TickPlan {
        expired,
        dropped,
        datagrams,
    })
}
