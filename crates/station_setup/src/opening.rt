//! What opens a station: its profile in a file, its device, its port at a real address, and its record; and the station of these.

mod devices;
mod host_counters;
mod lives;
mod places;
mod ports;
mod profiles;
mod records;
mod starts;
mod stations;
mod unserved;

pub use devices::{incarnation_of, is_scanner, with_block, with_incarnation, with_serials};
pub use host_counters::{HostCounters, host_of};
pub use lives::{MOST_LIVES, open_life_port, passed_ms, rest_before_life};
pub use places::{SocketPlace, socket_place};
pub use ports::{OpenedPort, open_port};
pub use profiles::{UnusableProfile, names_in, profile_in, unread_profile};
pub use records::{head_of, recorder_in};
pub use starts::start_in;
pub use stations::{OpenPort, OpenStation, StationOutputs, station_of};
