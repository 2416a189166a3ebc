//! The bytes of the datagrams that slots send.

ghost use Rattle.std.specs.Prelude.{◌≡◌, ◌≤◌, ◌++◌, ℕ, List, [], IfOk, length};
ghost use Rattle.std.specs.Int.{w32, to_le_bytes};
ghost use Rattle.cip_datagram.specs.Datagram.{datagram_text};
ghost use Rattle.cip_datagram.specs.Header.{mode_header};
ghost use Rattle.cip_productions.specs.Productions.{production_datagram};
ghost use Rattle.scanner_table.specs.Productions.{slot_data};
ghost use Rattle.scanner_slots.specs.Views.{view_slot};

use cip_datagram::item::{CONNECTED_DATA, SEQUENCED_ADDRESS};
use cip_datagram::{Datagram, fixed_part, header};
use cip_events::SmallBytes;
use cip_productions::{Kind, Production, next_count};
use cip_types::{ConnId, OutOfMemory};
use scanner_slots::SlotView;
use scanner_table::SlotConnection;
use std::alloc::Global;

/// The bytes of an owner's datagram before an output of this length: the fixed part and the run/idle header. They are
/// written at once, so that the header and the output need no buffer of their own.
///
/// Volume 1, chapter 3, real time formats; Volume 2, chapter 2, common packet format.
fn owned_front(run: bool, id: ConnId, production: &Production, len: usize) -> [u8; 24]
    requires { len ≤ 65529 }
    ensures { (output : List ℕ) → length output ≡ len
        → result ++ output
        ≡ datagram_text (production_datagram id production.now (to_le_bytes w32 (mode_header run) ++ output)) }
{
    let [a, b, c, d] = id.0.to_le_bytes();
    let [e, f, g, h] = production.sequence.to_le_bytes();
    let [i, j] = (len as u16 + 6).to_le_bytes();
    let [k, l] = next_count(production).to_le_bytes();
    let [m, n] = SEQUENCED_ADDRESS.to_le_bytes();
    let [o, p] = CONNECTED_DATA.to_le_bytes();
    let [q, r, s, t] = header(run).to_le_bytes();
    [
        2, 0, m, n, 8, 0, a, b, c, d, e, f, g, h, o, p, i, j, k, l, q, r, s, t,
    ]
}

/// The bytes of a datagram without data.
///
/// Volume 2, chapter 2, common packet format.
fn heartbeat(id: ConnId, production: &Production) -> [u8; 20]
    ensures { result ++ [] ≡ datagram_text (production_datagram id production.now []) }
{
    let datagram = Datagram {
        connection: id,
        sequence: production.sequence,
        count: next_count(production),
        data: &[],
    };
    fixed_part(&datagram)
}

/// Writes the next datagram of a slot's connection: an exclusive owner sends the run/idle header and its output, another
/// kind no data. Up to 56 bytes take no memory. `OutOfMemory` is the only error.
///
/// Volume 1, chapter 3, real time formats.
pub fn written(
    alloc: Global,
    run: bool,
    indexed: SlotView<'_>,
    connection: &SlotConnection,
) -> Result<SmallBytes, OutOfMemory>
    requires { length indexed.slot.now.output ≤ 65529 }
    ensures { IfOk result
        (λ bytes. bytes ≡ datagram_text
        (production_datagram connection.now.link.o_t_id connection.now.production
        (slot_data run (view_slot indexed.entry)))) }
{
    let id = connection.link.o_t_id;
    let production = &connection.production;
    match indexed.config.kind {
        Kind::ExclusiveOwner => {
            let output = indexed.slot.output.as_slice();
            let front = owned_front(run, id, production, output.len());
            SmallBytes::joined(alloc, &front, output)
        }
        Kind::InputOnly | Kind::ListenOnly => {
            SmallBytes::joined(alloc, &heartbeat(id, production), &[])
        }
    }
}
