//! The device of a profile.

ghost use Rattle.std.specs.Prelude.{◌≡◌};
ghost use Rattle.station_setup.specs.Opening.Devices.{incarnation_of, is_scanner, own_serial, slots_of, with_block, with_incarnation, with_serials};

use cip_tables::Config;
use cip_types::IdBlock;

/// Whether a configuration is that of a scanner.
pub fn is_scanner(config: &Config) -> bool
    ensures { result ≡ is_scanner config.now }
{
    match config {
        Config::Adapter(_) => false,
        Config::Scanner(_) => true,
    }
}

/// The incarnation of a profile.
pub fn incarnation_of(config: &Config) -> u8
    ensures { result ≡ incarnation_of config.now }
{
    match config {
        Config::Adapter(profile) => profile.incarnation,
        Config::Scanner(profile) => profile.incarnation,
    }
}

/// The slots of a scanner; none of an adapter.
pub(crate) fn slots_of(config: &Config) -> u32
    ensures { result ≡ slots_of config.now }
{
    match config {
        Config::Adapter(_) => 0,
        Config::Scanner(profile) => {
            u32::try_from(profile.slots.as_slice().len()).unwrap_or(u32::MAX)
        }
    }
}

/// A profile with this incarnation in place of its own. That of a scanner is tidy: the scanner closes what its targets may have
/// opened for it, whether the profile says so or not.
pub fn with_incarnation(config: Config, incarnation: u8) -> Config
    ensures { result ≡ with_incarnation config incarnation }
{
    match config {
        Config::Adapter(mut profile) => {
            profile.incarnation = incarnation;
            Config::Adapter(profile)
        }
        Config::Scanner(mut profile) => {
            profile.incarnation = incarnation;
            profile.tidy = true;
            Config::Scanner(profile)
        }
    }
}

/// The serial number of a scanner: that of its station, if its profile has 0.
fn own_serial(kept: u32, serial: u32) -> u32
    ensures { result ≡ own_serial kept serial }
{
    if serial == 0 { kept } else { serial }
}

/// A profile with the serial numbers of a start: a scanner whose profile has the serial number 0 has that of its station, and its
/// connections are numbered from the start's first connection serial number on.
pub fn with_serials(config: Config, kept: u32, serials: Option<u16>) -> Config
    ensures { result ≡ with_serials config kept serials }
{
    match config {
        Config::Adapter(profile) => Config::Adapter(profile),
        Config::Scanner(mut profile) => {
            profile.serial = own_serial(kept, profile.serial);
            profile.serials = serials;
            Config::Scanner(profile)
        }
    }
}

/// A profile with the block of connection ids of a start in place of its own; with its own one where the start has none.
pub fn with_block(config: Config, block: Option<IdBlock>) -> Config
    ensures { result ≡ with_block config block }
{
    match block {
        Some(block) => config.with_ids(Some(block)),
        None => config,
    }
}
