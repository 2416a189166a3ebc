//! The profile of a station, and what is reported of one that is bad.

ghost use Rattle.std.specs.Prelude.{◌≡◌};
ghost use Rattle.eip_station.specs.Failures.{profile_failure};

use crate::failure::Failure;
use cip_tables::Config;
use cip_types::OutOfMemory;
use command_lines::Options;
use station_rim::{Rim, report_line};
use station_setup::{UnusableProfile, is_scanner, profile_in};
use std::rt::Files;
use std::sync::Wait;

/// The profile of a file, which is to have no events, and to be that of a scanner or not. A bad profile is reported with its
/// file, its line and its word.
pub fn profile_of<R: Files + AllocGlobal + Wait + Copy + Drop>(
    rt: R,
    rim: &Rim,
    path: &str,
    options: &Options,
    scanner: bool,
) -> Result<Config, Failure> {
    match profile_in(&rt, path, options.address) {
        Ok(config) if is_scanner(&config) == scanner => Ok(config),
        Ok(_) => Err(Failure::WrongKind),
        Err(fault) => {
            if let UnusableProfile::Bad(_, sentence)
            | UnusableProfile::Unserved(sentence) = &fault
            {
                report_fault(rt, rim, path, sentence.as_str())?;
            }
            Err(profile_failure(&fault))
        }
    }
}

/// The failure of a station whose file gives no profile.
fn profile_failure(fault: &UnusableProfile) -> Failure
    ensures { result ≡ profile_failure fault.now }
{
    match fault {
        UnusableProfile::Unread(why) => Failure::Unread(*why),
        UnusableProfile::Bad(why, _) => Failure::from(*why),
        UnusableProfile::Events => Failure::Events,
        UnusableProfile::Unserved(_) => Failure::Unserved,
        UnusableProfile::OutOfMemory => Failure::OutOfMemory,
    }
}

/// Reports why a file holds no profile.
fn report_fault<R: AllocGlobal + Wait + Copy + Drop>(
    rt: R,
    rim: &Rim,
    path: &str,
    sentence: &str,
) -> Result<(), OutOfMemory> {
    let line = format!(in rt.alloc(); "eip_station: {path}: {sentence}")?;
    report_line(rt, rim, line.as_bytes());
    Ok(())
}
