//! The numbers of a scanner's next request: its request number, and the triad and the id of an opening.

ghost use Rattle.std.specs.Prelude.{◌≡◌, ◌≤◌, ◌+◌, ◌-◌, ◌^◌, ◌&&◌, ◌||◌, nat_le, nat_lt, true, None, Some, IsTrue, if◌then◌else◌};
ghost use Rattle.cip_types.specs.Ids.{are_blocks, end_number, id_at};
ghost use Rattle.scanner_table.specs.Requests.{next_requested};
ghost use Rattle.scanner_table.specs.Opening.{serial_after};
ghost use Rattle.scanner_slots.specs.Views.{table_of};

use cip_types::{ConnId, IdBlock, Triad, end_number, id_at};
use conn_state::Requested;
use scanner_slots::ScannerState;
use scanner_table::{ScannerProfile, SlotConfig};

/// The last serial number. Serial number 1 follows it.
const LAST_SERIAL: u16 = u16::MAX;

/// The last request number.
pub const LAST_REQUEST: u64 = 1 << 48;

/// Returns whether a request number is left and, for a point to point slot, a connection id.
pub fn can_open(scanner: &ScannerState, multicast: bool) -> bool
    ensures { result ≡ (nat_le scanner.now.next_request (2 ^ 48) &&
        (multicast || nat_lt scanner.now.next_id (end_number scanner.now.ids.items))) }
{
    scanner.next_request <= LAST_REQUEST
        && (multicast || scanner.next_id < end_number(&scanner.ids))
}

/// Returns the next serial number, which is never 0.
pub fn serial_after(serial: u16) -> u16
    ensures { result ≡ serial_after serial }
{
    if serial == LAST_SERIAL { 1 } else { serial + 1 }
}

/// Returns the number of the next id after an opening. A multicast opening uses no id.
pub fn id_after(multicast: bool, number: u32) -> u32
    requires { IsTrue (multicast || nat_lt number (2 ^ 32 - 1)) }
    ensures { result ≡ (if multicast then number else number + 1) }
{
    if multicast { number } else { number + 1 }
}

/// Returns the T->O id that an opening requests: none for a multicast connection, whose target chooses it.
fn next_t_o_id(ids: &[IdBlock], number: u32, multicast: bool) -> Option<ConnId>
    requires blocks { are_blocks ids.now ≡ true }
    requires begins { 1 ≤ number }
    ensures { result ≡ (if multicast then None else Some (id_at ids.now number)) }
{
    if multicast {
        None
    } else {
        Some(id_at(ids, number))
    }
}

/// Returns the triad and the id that the next opening of a slot requests.
pub fn next_requested(
    profile: &ScannerProfile,
    scanner: &ScannerState,
    config: &SlotConfig,
) -> Requested
    requires blocks { are_blocks scanner.now.ids.items ≡ true }
    requires begins { 1 ≤ scanner.now.next_id }
    ensures { result ≡ next_requested (table_of profile.now scanner.now) config.now }
{
    Requested {
        triad: Triad {
            serial: scanner.next_serial,
            vendor: profile.vendor,
            originator: profile.serial,
        },
        t_o_id: next_t_o_id(&scanner.ids, scanner.next_id, config.multicast),
    }
}
