//! Reading datagrams.

ghost use Rattle.std.specs.Prelude.{◌≡◌, Result};
ghost use Rattle.cip_datagram.specs.declared.datagram.DatagramFault.{DatagramFault};
ghost use Rattle.cip_datagram.specs.Datagram.{DatagramFields, view_datagram, IsDatagramReading};
ghost use Rattle.cip_datagram.specs.Reading.{seen, datagram_reading};

use crate::datagram::{Datagram, DatagramFault};
use crate::fixed::DatagramFront;
use cip_types::ConnId;

/// The datagram of the fixed part and the bytes after it.
#[tactic(auto, unfolding(crate::specs::Reading::datagram_reading))]
fn parsed(bytes: &[u8]) -> Result<Datagram<'_>, DatagramFault>
    ensures { seen view_datagram result ≡ datagram_reading bytes.now }
{
    let Some((fixed, data)) = DatagramFront::at(bytes) else {
        return Err(DatagramFault::Truncated);
    };
    if !fixed.has_items() {
        return Err(DatagramFault::Items);
    }
    let len = fixed.len as usize - 2;
    if data.len() < len {
        return Err(DatagramFault::Truncated);
    }
    if data.len() > len {
        return Err(DatagramFault::Trailing);
    }
    Ok(Datagram {
        connection: ConnId(fixed.connection),
        sequence: fixed.sequence,
        count: fixed.count,
        data,
    })
}

/// Reads a datagram. Its data borrows from the bytes.
///
/// The faults, in this order: `Truncated` for fewer than 20 bytes; `Items` where the item count, a
/// type or the first length is not that of a datagram, or the second length is below 2; `Truncated`
/// where the second length exceeds the bytes; `Trailing` where bytes follow the data.
///
/// Volume 2, chapter 2, common packet format.
pub fn read_datagram(bytes: &[u8]) -> Result<Datagram<'_>, DatagramFault>
    // The result is a reading of the bytes.
    ensures reading { IsDatagramReading bytes.now (seen view_datagram result) }
    // The bytes have no other reading.
    ensures only { (other : Result DatagramFields DatagramFault) → IsDatagramReading bytes.now other
        → seen view_datagram result ≡ other }
    // The same as a function of the bytes.
    ensures value { seen view_datagram result ≡ datagram_reading bytes.now }
{
    parsed(bytes)
}
