//! Deadlines.

ghost use Rattle.std.specs.Prelude.{◌≡◌, ◌≤◌, ◌^◌};
ghost use Rattle.scanner_table.specs.Opening.{later};

use cip_types::Ms;

/// Returns the time this many milliseconds later.
pub fn later(clock: Ms, ms: u64) -> Ms
    requires time { clock.0 ≤ 2 ^ 48 }
    requires wait { ms ≤ 60000 }
    ensures { result ≡ later clock ms }
{
    Ms(clock.0 + ms)
}
