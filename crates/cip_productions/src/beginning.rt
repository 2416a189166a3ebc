//! How the production and the watchdog of a new connection begin.

ghost use Rattle.std.specs.Prelude.{◌≡◌, ◌≤◌, ◌^◌};
ghost use Rattle.cip_productions.specs.Productions.{first_production};
ghost use Rattle.cip_productions.specs.Watchdog.{first_deadline};

use crate::production::Production;
use cip_netparams::Trigger;
use cip_types::limits::FIRST_WATCHDOG_MS;
use cip_types::{Ms, Node};

/// The production that a new connection starts: its data are new, and it is due at once.
///
/// Volume 1, chapter 3, class 1 transport and production triggers.
pub fn first_production(
    clock: Ms,
    producer: u32,
    address: Node,
    trigger: Trigger,
    inhibit: u8,
) -> Production
    ensures { result ≡ first_production clock producer address trigger inhibit }
{
    Production {
        producer,
        sequence: 1,
        count: 0,
        written: true,
        due: clock,
        address,
        trigger,
        inhibit,
        last: None,
    }
}

/// The deadline of the first datagram of a new connection with this watchdog.
///
/// Volume 1, chapter 3, inactivity watchdog.
pub fn first_deadline(clock: Ms, watchdog: Ms) -> Ms
    requires time { clock.0 ≤ 2 ^ 48 }
    requires wait { watchdog.0 ≤ 5120000 }
    ensures { result ≡ first_deadline clock watchdog.0 }
{
    Ms(clock.0 + FIRST_WATCHDOG_MS.max(watchdog.0))
}
