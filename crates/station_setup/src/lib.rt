//! What the options of a station and its profile say of its place, its description, its targets and its end.
#![tactic(auto)]

mod describing;
mod opening;
mod place;
mod reports;
mod targets;
mod unservable;

pub use describing::described;
pub use opening::{
    HostCounters, MOST_LIVES, OpenPort, OpenStation, OpenedPort, SocketPlace, StationOutputs,
    UnusableProfile, head_of, host_of, incarnation_of, is_scanner, names_in, open_life_port,
    open_port, passed_ms, profile_in, recorder_in, rest_before_life, socket_place, start_in,
    station_of, unread_profile, with_block, with_incarnation, with_serials,
};
pub use place::{adapter_place, end_of, rates_of, scanner_place};
pub use reports::{ReportFault, begin_report, end_report};
pub use targets::targets_of;
pub use unservable::{StationDefect, station_defect};
