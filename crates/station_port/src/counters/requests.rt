//! Frames that may read what the host has counted.

ghost use Rattle.std.specs.Prelude.{◌≡◌};
ghost use Rattle.station_port.specs.Counters.Requests.{begins_link, names_link};

/// The class of the Ethernet Link object.
///
/// Volume 2, chapter 5, Ethernet Link object.
const LINK: u8 = 0xF6;

/// Whether the bytes begin with a logical segment of the class of the Ethernet Link object, in any of its formats.
///
/// Volume 1, appendix C, logical segments.
fn begins_link(bytes: &[u8]) -> bool
    ensures { result ≡ begins_link bytes.now }
{
    match bytes {
        [0x20, second, ..] => *second == LINK,
        [0x21 | 0x22, _pad, third, fourth, ..] => *third == LINK && *fourth == 0,
        _ => false,
    }
}

/// Whether a frame names the class of the Ethernet Link object anywhere: each one that reads its counters does, by whatever route.
/// Takes no memory.
///
/// Volume 2, chapter 5, Ethernet Link object.
pub fn names_link(bytes: &[u8]) -> bool
    ensures { result ≡ names_link bytes.now }
{
    for at in 0..bytes.len() {
        let (_, rest) = bytes.split_at(at);
        if begins_link(rest) {
            return true;
        }
    }
    false
}
