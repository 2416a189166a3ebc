//! What an adapter station says of itself: its address and its description.

ghost use Rattle.std.specs.Prelude.{◌≡◌, IfOk};
ghost use Rattle.list_identity.specs.Names.{name_front};
ghost use Rattle.station_setup.specs.Settings.{described, described_as, description_of, node_of, with_description};

use adapter_table::{Description, Profile};
use cip_tables::Config;
use cip_types::limits::TCP_PORT;
use cip_types::{Items, Node, OutOfMemory};
use command_lines::Options;
use list_identity::LONGEST_NAME;
use std::alloc::Global;

/// The speed of a link that no profile describes, in Mbit/s.
const USUAL_SPEED: u32 = 100;

/// The flags of such a link: it is up, full duplex, and its speed was not negotiated.
///
/// Volume 2, chapter 5, Ethernet Link object, attribute 2.
const USUAL_FLAGS: u32 = 0x0F;

/// The physical address of such a link.
const NO_ADDRESS: [u8; 6] = [0; 6];

/// The seconds for which a stream may be silent, if nothing says it.
///
/// Volume 2, chapter 5, encapsulation inactivity timeout of the TCP/IP Interface object.
const USUAL_INACTIVITY_S: u16 = 120;

/// The configuration of a station, in which an adapter has a description, so that inquiries find it: without one of its own it has
/// this serial number and this name. OutOfMemory is the only fault.
pub fn described(
    alloc: Global,
    config: Config,
    options: &Options,
    serial: u32,
    name: &[u8],
) -> Result<Config, OutOfMemory>
    ensures { IfOk result (λ given. given ≡ described config options.now serial name.now) }
{
    match config {
        Config::Adapter(profile) => {
            let profile = with_description(alloc, profile, options, serial, name)?;
            Ok(Config::Adapter(profile))
        }
        Config::Scanner(profile) => Ok(Config::Scanner(profile)),
    }
}

/// The profile of an adapter station: at the address of its options, and with a description. What the options say comes
/// first, then the description that the profile has, then the station's own serial number and name and the usual values.
/// The only fault is a refused allocation.
fn with_description(
    alloc: Global,
    profile: Profile,
    options: &Options,
    serial: u32,
    name: &[u8],
) -> Result<Profile, OutOfMemory>
    ensures { IfOk result (λ p. p ≡ with_description profile options.now serial name.now) }
{
    let mut profile = profile;
    let given = profile.description.take();
    profile.node = node_of(options.address, profile.node);
    profile.description = Some(description_of(alloc, given, options, serial, name)?);
    Ok(profile)
}

/// The description of a station.
fn description_of(
    alloc: Global,
    given: Option<Description>,
    options: &Options,
    serial: u32,
    name: &[u8],
) -> Result<Description, OutOfMemory>
    ensures { IfOk result (λ d. d ≡ description_of given options.now serial name.now) }
{
    match given {
        Some(given) => described_as(alloc, given, options, name),
        None => {
            let own = Description {
                serial,
                name: Items::copy_of(alloc, front(name))?,
                port: TCP_PORT,
                speed: USUAL_SPEED,
                flags: USUAL_FLAGS,
                mac: Items::copy_of(alloc, &NO_ADDRESS)?,
                inactivity: USUAL_INACTIVITY_S,
            };
            described_as(alloc, own, options, name)
        }
    }
}

/// A description with what the options say in its place.
fn described_as(
    alloc: Global,
    given: Description,
    options: &Options,
    name: &[u8],
) -> Result<Description, OutOfMemory>
    ensures { IfOk result (λ d. d ≡ described_as given options.now name.now) }
{
    let mut given = given;
    if options.name_from_end.is_some() {
        given.name = Items::copy_of(alloc, front(name))?;
    }
    given.serial = options.serial.unwrap_or(given.serial);
    given.port = options.tcp.unwrap_or(given.port);
    given.inactivity = options.inactivity_s.unwrap_or(given.inactivity);
    Ok(given)
}

/// The address of a station: that of its options, unless that is each address of the host, or that of its profile.
pub(crate) fn node_of(address: Option<Node>, node: Node) -> Node
    ensures { result ≡ node_of address node }
{
    match address {
        Some(address) if address.0 != 0 => address,
        _ => node,
    }
}

/// At most 32 bytes of a name, from its front.
fn front(name: &[u8]) -> &[u8]
    ensures { result.now ≡ name_front name.now }
{
    if name.len() < LONGEST_NAME {
        return name;
    }
    &name[..LONGEST_NAME]
}
