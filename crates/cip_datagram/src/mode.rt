//! The run/idle header.

ghost use Rattle.std.specs.Prelude.{◌≡◌};
ghost use Rattle.std.specs.Option.{option_map};
ghost use Rattle.cip_datagram.specs.Header.{mode_header, header_at};

use cip_types::fields::u32_at;

/// The run/idle header of a mode: 1 for run, 0 for idle.
///
/// Volume 1, chapter 3, real time formats.
pub fn header(run: bool) -> u32
    ensures { result ≡ mode_header run }
{
    u32::from(run)
}

/// Whether the run/idle header at the front of data says run, and the data after it. Only bit 0 is judged.
/// None where there are fewer than four bytes.
///
/// Volume 1, chapter 3, real time formats.
pub fn read_header(data: &[u8]) -> Option<(bool, &[u8])>
    ensures { option_map (λ x. (x.0, x.1.now)) result ≡ header_at «data».now }
{
    let (word, rest) = u32_at(data)?;
    Some((word % 2 == 1, rest))
}
