//! The time-out of one connection.

ghost use Rattle.std.specs.Prelude.{◌≡◌};
ghost use Rattle.adapter_table.specs.Ticks.{has_expired, expired_row, by_deadline};

use crate::row::{Row, State};
use crate::rows::is_established;
use cip_types::Ms;

/// Whether a connection is established, and its deadline has been reached.
///
/// Volume 1, chapter 3, inactivity watchdog.
pub fn has_expired(row: &Row, clock: Ms) -> bool
    ensures { result ≡ has_expired clock row.now }
{
    is_established(row) && row.deadline.0 <= clock.0
}

/// A connection that has timed out if its deadline has been reached; any other stays.
///
/// Volume 1, chapter 3, inactivity watchdog.
pub fn expired_row(row: Row, clock: Ms) -> Row
    ensures { result ≡ expired_row clock row }
{
    if !has_expired(&row, clock) {
        return row;
    }
    Row {
        state: State::TimedOut,
        ..row
    }
}

/// Whether a connection's deadline comes before another's, or with it and the connection was opened before.
pub fn by_deadline(row: &Row, other: &Row) -> bool
    ensures { result ≡ by_deadline row.now other.now }
{
    let (deadline, later) = (row.deadline.0, other.deadline.0);
    deadline < later || (deadline == later && row.opening < other.opening)
}
