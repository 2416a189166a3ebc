//! The port of a device.

ghost use Rattle.std.specs.Prelude.{◌≡◌, IfOk};
ghost use Rattle.station_setup.specs.Opening.Devices.{slots_of};
ghost use Rattle.station_setup.specs.Settings.{own_place};

use crate::opening::devices::slots_of;
use crate::{adapter_place, scanner_place, targets_of};
use cip_tables::Config;
use command_lines::Options;
use station_port::{StationFault, StationPlace, StationPort};
use std::net::Net;
use std::rt::Clock;

/// A port, the place at which it is open, and the slots of its device.
#[derive(Drop)]
pub struct OpenedPort<R: Clock + Drop> {
    pub port: StationPort<R>,
    pub place: StationPlace,
    /// The slots of a scanner; none of an adapter.
    pub slots: u32,
}

/// Opens the port of a device with these options. A scanner's opens a stream to each target of its slots.
pub fn open_port<R>(
    rt: R,
    options: &Options,
    config: &Config,
) -> Result<OpenedPort<R>, StationFault>
where
    R: AllocGlobal + Net + Clock + Copy + Drop,
    ensures place { IfOk result (λ opened. opened.place ≡ own_place options.now config.now) }
    ensures slots { IfOk result (λ opened. opened.slots ≡ slots_of config.now) }
{
    let (alloc, slots) = (rt.alloc(), slots_of(config));
    match config {
        Config::Adapter(profile) => {
            let place = adapter_place(options, profile);
            let port = StationPort::adapter(alloc, rt, &place)?;
            Ok(OpenedPort { port, place, slots })
        }
        Config::Scanner(profile) => {
            let place = scanner_place(options, profile);
            let targets = targets_of(alloc, profile, place.tcp)?;
            let open_ms = profile.open_timeout;
            let port = StationPort::scanner(alloc, rt, &place, targets.as_slice(), open_ms)?;
            Ok(OpenedPort { port, place, slots })
        }
    }
}
