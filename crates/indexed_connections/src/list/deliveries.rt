//! Datagrams that connections receive.

ghost use Rattle.std.specs.Prelude.{◌≡◌, ◌≤◌, ◌^◌, find, map};
ghost use Rattle.cip_datagram.specs.Datagram.{view_datagram};
ghost use Rattle.adapter_table.specs.Datagrams.{is_for, accepted_if_for};
ghost use Rattle.adapter_table.specs.Whole.{RowsFit};

use adapter_table::{Row, accept_if_for, is_for};
use cip_datagram::Datagram;
use cip_types::{ConnId, Ms, Node};

/// The established connection of a peer that has this O->T id. Takes no memory.
///
/// Volume 2, chapter 2, sequenced address item.
pub fn find_target(rows: &[Row], peer: Node, id: ConnId) -> Option<Row>
    ensures { result ≡ find (is_for peer id.0) rows.now }
{
    rows.iter().copied().find(|row| is_for(row, peer, id))
}

/// The connection that a datagram is for accepts it. Takes no memory.
///
/// Volume 1, chapter 3, inactivity watchdog.
pub fn accept_rows(rows: &mut [Row], clock: Ms, peer: Node, datagram: &Datagram<'_>)
    requires fit { RowsFit rows.old }
    requires time { clock.0 ≤ 2 ^ 48 }
    ensures { rows.new ≡ map (accepted_if_for clock peer (view_datagram datagram.now)) rows.old }
{
    for row in rows.iter_mut() {
        accept_if_for(row, clock, peer, datagram);
    }
}
