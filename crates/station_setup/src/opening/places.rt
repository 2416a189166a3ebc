//! Where the socket is that cannot be made.

ghost use Rattle.std.specs.Prelude.{◌≡◌};
ghost use Rattle.station_setup.specs.Opening.Places.{place_at, place_of_socket, socket_place};

use crate::place::own_place;
use cip_tables::Config;
use cip_types::Node;
use command_lines::Options;
use station_port::{StationFault, StationPlace, StationSocket};
use std::fmt::{self, Display, Formatter, Write};

/// The address and the port of a socket, as they are printed behind its name. Port 0 is none.
#[derive(Clone, Copy, Debug, PartialEq, Eq)]
pub struct SocketPlace {
    address: u32,
    port: u16,
}

impl SocketPlace {
    /// The place of what is bound nowhere.
    pub const NONE: SocketPlace = SocketPlace {
        address: 0,
        port: 0,
    };

    /// A place.
    pub fn new(address: Node, port: u16) -> SocketPlace
        ensures { result ≡ place_at address port }
    {
        SocketPlace {
            address: address.0,
            port,
        }
    }
}

impl Display for SocketPlace {
    fn fmt<W: Write>(&self, f: &mut Formatter<W>) -> fmt::Result {
        if self.port == 0 {
            return Ok(());
        }
        let [a, b, c, d] = self.address.to_be_bytes();
        write!(f, " {} of {a}.{b}.{c}.{d}", self.port)
    }
}

/// The place of the socket of a device with these options that cannot be made.
pub fn socket_place(options: &Options, config: &Config, fault: StationFault) -> SocketPlace
    ensures { result ≡ socket_place options.now config.now fault }
{
    match fault {
        StationFault::Socket(socket, _) => place_of_socket(&own_place(options, config), socket),
        StationFault::OutOfMemory => SocketPlace::NONE,
    }
}

/// Where a socket of a station at this place is.
fn place_of_socket(place: &StationPlace, socket: StationSocket) -> SocketPlace
    ensures { result ≡ place_of_socket place.now socket }
{
    match socket {
        StationSocket::Tcp => SocketPlace::new(place.address, place.tcp),
        StationSocket::Identity => SocketPlace::new(place.address, place.tcp),
        StationSocket::Udp => SocketPlace::new(place.address, place.udp),
        _ => SocketPlace::NONE,
    }
}
