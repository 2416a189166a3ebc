//! The table of an adapter: its profile and the check of it, its connections, its points, its streams, one
//! definition for each effect of an event, the step, and the invariant of a whole table.
//!
//! `opening_rates` counts the openings of each node in its second, `productions` says when the producer of a connection is due and
//! what it leaves, `sessions` finds and registers sessions among the streams.
#![tactic(auto)]

mod acceptance;
mod admission;
mod copy;
mod counters;
mod expiry;
mod groups;
mod intervals;
pub mod laws;
mod maker_limits;
mod objects;
mod opening_rates;
mod productions;
mod profile;
mod profile_check;
mod report;
mod row;
mod rows;
mod sessions;
mod table;

pub use acceptance::{Judgement, accept_if_for, is_for, judge};
pub use admission::{Admission, ConsumedPoint};
pub use counters::{
    DeviceCounters, INTERFACE_COUNTERS, LINK_COUNTERS, ManagerCounters, Tally, open_tally,
    refused_tally,
};
pub use expiry::{by_deadline, expired_row, has_expired};
pub use groups::multicast_address;
pub use intervals::{MILLISECOND_US, least_us, ms_us};
pub use maker_limits::{MakerLimits, NodeLimits, Places};
pub use objects::{IoState, QOS_CLASS};
pub use opening_rates::{NodeOpenings, counted_openings, has_opened_enough};
pub use productions::{
    changed_row, has_node, is_due, is_produced_by, produced_row, producer_in, producer_number,
    produces_on_change, written_row,
};
pub use profile::{Action, Description, InputPoint, OutputPoint, Profile};
pub use profile_check::{
    LARGEST_CLASS, LONGEST_INACTIVITY, MOST_OWN_CLASSES, PHYSICAL_ADDRESS, is_free_class,
};
pub use report::{
    AnyConnection, Class3Report, ConnectionReport, ConsumerCounts, class3_report, consumes,
    report_of,
};
pub use row::{Connection, Mode, Row, State};
pub use rows::{
    drives, has_triad, holds_triad, is_established, is_member, is_of_kind, is_of_node,
    is_supported, is_timed_out, supports,
};
pub use sessions::{has_session, is_taken, register_stream, session_of};
pub use table::{AdapterTable, PointValue, Stream};
