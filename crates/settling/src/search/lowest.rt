//! The find at the device with the lowest incarnation byte.

ghost use Rattle.std.specs.Prelude.{◌≡◌};
ghost use Rattle.settling.specs.Search.Histories.{bytes_of};
ghost use Rattle.settling.specs.Search.Lowest.{lower_of};

use crate::search::histories::byte_at;
use device_lock::History;

/// Of the best find so far and another one, each a device and a place in its history, the one whose device has the
/// lower byte.
pub fn lower_of(
    histories: &[History],
    best: Option<(usize, usize)>,
    other: (usize, usize),
) -> (usize, usize)
    ensures { result ≡ lower_of (bytes_of histories.now) best other }
{
    match best {
        None => other,
        Some(known) => {
            if byte_at(histories, other.0) < byte_at(histories, known.0) {
                other
            } else {
                known
            }
        }
    }
}
