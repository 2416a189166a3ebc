//! When connections are due, if only time passes.

ghost use Rattle.std.specs.Prelude.{◌≡◌};
ghost use Rattle.cip_tables.specs.Wakes.{connection_due, connections_due};

use adapter_table::{Row, State};
use cip_types::Ms;

/// When a connection reaches its deadline or its producer is due; `u64::MAX` for a timed-out one. Takes no memory.
pub fn connection_due(row: &Row) -> u64
    ensures { result ≡ connection_due row.now.deadline.0 row.now.state }
{
    match row.state {
        State::Established(production) => row.deadline.0.min(production.due.0),
        State::TimedOut => u64::MAX,
    }
}

/// When the first deadline of an established connection is reached or the first producer is due; `u64::MAX` if there
/// is neither. Takes no memory.
pub(crate) fn first_due(rows: &[Row]) -> Ms
    ensures { result.0 ≡ connections_due rows.now }
{
    let mut first = u64::MAX;
    for at in (0..rows.len()).rev() {
        first = first.min(connection_due(&rows[at]));
    }
    Ms(first)
}
