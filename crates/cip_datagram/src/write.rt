//! Writing datagrams.

ghost use Rattle.std.specs.Prelude.{◌≡◌, ◌+◌, ◌≤◌, ◌++◌, length, Ok};
ghost use Rattle.std.specs.Vec.{vec_len, vec_capacity};
ghost use Rattle.cip_datagram.specs.Datagram.{view_datagram, datagram_text, IsDatagramText};
ghost use Rattle.cip_datagram.specs.Reading.{datagram_reading};

use crate::datagram::Datagram;
use crate::item::{CONNECTED_DATA, SEQUENCED_ADDRESS};

/// The bytes of a datagram before its data. Takes no memory.
///
/// Volume 2, chapter 2, common packet format.
#[inline(always)]
pub fn fixed_part(datagram: &Datagram<'_>) -> [u8; 20]
    // The second length counts the sequence count and the data.
    requires short { length datagram.now.«data».now ≤ 65533 }
    ensures text { result ++ datagram.now.«data».now ≡ datagram_text (view_datagram datagram.now) }
    ensures is_text { IsDatagramText (datagram_text (view_datagram datagram.now)) (view_datagram datagram.now) }
{
    let [a, b, c, d] = datagram.connection.0.to_le_bytes();
    let [e, f, g, h] = datagram.sequence.to_le_bytes();
    let [i, j] = (datagram.data.len() as u16 + 2).to_le_bytes();
    let [k, l] = datagram.count.to_le_bytes();
    let [m, n] = SEQUENCED_ADDRESS.to_le_bytes();
    let [o, p] = CONNECTED_DATA.to_le_bytes();
    [2, 0, m, n, 8, 0, a, b, c, d, e, f, g, h, o, p, i, j, k, l]
}

/// Appends bytes within the vector's spare capacity. Takes no memory.
fn put(out: &mut Vec<u8>, bytes: &[u8])
    requires { vec_len out.old + length bytes.now ≤ vec_capacity out.old }
    ensures items { out.new.items ≡ out.old.items ++ bytes.now }
    ensures len { vec_len out.new ≡ vec_len out.old + length bytes.now }
    ensures capacity { vec_capacity out.new ≡ vec_capacity out.old }
{
    for byte in bytes {
        out.push_reserved(*byte);
    }
}

/// Appends the bytes of the datagram, within the vector's spare capacity. Takes no memory.
///
/// Volume 2, chapter 2, common packet format.
pub fn write_datagram(datagram: &Datagram<'_>, out: &mut Vec<u8>)
    requires spare { vec_len out.old + length (datagram_text (view_datagram datagram.now)) ≤ vec_capacity out.old }
    // The second length counts the sequence count and the data.
    requires short { length datagram.now.«data».now ≤ 65533 }
    ensures text { out.new.items ≡ out.old.items ++ datagram_text (view_datagram datagram.now) }
    ensures is_text { IsDatagramText (datagram_text (view_datagram datagram.now)) (view_datagram datagram.now) }
    ensures read_back { datagram_reading (datagram_text (view_datagram datagram.now))
        ≡ Ok (view_datagram datagram.now) }
    ensures capacity { vec_capacity out.new ≡ vec_capacity out.old }
{
    put(out, &fixed_part(datagram));
    put(out, datagram.data);
}
