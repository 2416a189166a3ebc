//! Tests of one connection, and whether a list of them supports one.

ghost use Rattle.std.specs.Prelude.{◌≡◌};
ghost use Rattle.adapter_table.specs.Rows.{is_established, is_timed_out, has_triad, holds_triad, drives, is_member, supports, is_supported, is_of_kind, is_of_node};

use crate::row::{Row, State};
use cip_productions::Kind;
use cip_types::{Node, Triad};

/// Whether a connection is established: its deadline has not passed.
///
/// Volume 1, chapter 3, connection instance states.
pub fn is_established(row: &Row) -> bool
    ensures { result ≡ is_established row.now }
{
    match row.state {
        State::Established(_) => true,
        State::TimedOut => false,
    }
}

/// Whether a connection has timed out: it drives nothing, holds no triad, and can be replaced.
///
/// Volume 1, chapter 3, connection instance states.
pub fn is_timed_out(row: &Row) -> bool
    ensures { result ≡ is_timed_out row.now }
{
    !is_established(row)
}

/// Whether a connection has the triad: its serial number, and its originator's vendor and serial number.
///
/// Volume 1, chapter 3, connection triad.
pub fn has_triad(row: &Row, triad: Triad) -> bool
    ensures { result ≡ has_triad triad row.now }
{
    row.triad == triad
}

/// Whether the triad is that of an established connection.
///
/// Volume 1, chapter 3, connection triad.
pub fn holds_triad(row: &Row, triad: Triad) -> bool
    ensures { result ≡ holds_triad triad row.now }
{
    is_established(row) && has_triad(row, triad)
}

/// Whether a connection is the established exclusive owner of an output.
///
/// Volume 1, chapter 3, application connection types.
pub fn drives(row: &Row, point: u32) -> bool
    ensures { result ≡ drives point row.now }
{
    is_established(row) && row.kind == Kind::ExclusiveOwner && row.consumed == point
}

/// Whether a connection is established, and shares the multicast producer of the input.
///
/// Volume 1, chapter 3, multicast connections.
pub fn is_member(row: &Row, point: u32) -> bool
    ensures { result ≡ is_member point row.now }
{
    is_established(row) && row.multicast && row.produced == point
}

/// Whether a connection supports one of the kind on the input: it is of another kind, and shares the
/// producer.
///
/// Volume 1, chapter 3, listen-only application connections.
pub fn supports(row: &Row, kind: Kind, point: u32) -> bool
    ensures { result ≡ supports kind point row.now }
{
    is_member(row, point) && row.kind != kind
}

/// Whether one of the connections supports one of the kind on the input.
///
/// Volume 1, chapter 3, listen-only application connections.
pub fn is_supported(rows: &[Row], kind: Kind, point: u32) -> bool
    ensures { result ≡ is_supported rows.now kind point }
{
    rows.iter().any(|row| supports(row, kind, point))
}

/// Whether a connection is established, and of this application type.
///
/// Volume 1, chapter 3, application connection types.
pub fn is_of_kind(row: &Row, kind: Kind) -> bool
    ensures { result ≡ is_of_kind kind row.now }
{
    is_established(row) && row.kind == kind
}

/// Whether a connection is established, and this node opened it.
///
/// Volume 1, chapter 3, connection triad.
pub fn is_of_node(row: &Row, node: Node) -> bool
    ensures { result ≡ is_of_node node row.now }
{
    is_established(row) && row.peer.0 == node.0
}
