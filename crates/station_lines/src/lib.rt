//! The texts of a station: the calls of its application as lines that arrive while it runs, and the lines that it prints of
//! points, streams, slots and its state.
//!
//! `watch` is what a station notes of peers and slots, and the datagrams that it counts.
#![tactic(auto)]

mod attributes;
mod calls;
mod details;
mod lines;
mod numbers;
mod points;
mod reasons;
mod reported;
mod reports;
mod sink;
mod status;
mod watch;

pub use attributes::{
    AttributeCall, AttributeService, AttributeType, PendingAttributes, ReplyMoment,
    RequestedAttribute, TargetAttribute, call_event, read_attribute_call,
};
pub use calls::{InputLine, has_news, is_call, read_call, read_line};
pub use lines::{CallBuffer, CallLines, InputRead, NextLine, NoLines, input_read};
pub use points::{EventMoment, Points};
pub use reasons::push_why;
pub use reported::ReportedPoints;
pub use reports::{push_report, push_starved, push_unbound};
pub use sink::LineSink;
pub use status::push_own;
pub use watch::{
    ClosingSlots, CountedConnection, DatagramCounts, GapMeter, GapSums, GapWindow, LinkReport,
    SentAs, SlotWait, SlotWatches, Starved, StarvedCause, StateNote, StationTraffic, StreamRefusal,
    TrafficTotals, changes_connections, close_end, closing_ms, counted, counted_of, is_accepted,
    missed, owners_of, push_connected, sent_counts, wait_at, waits_on,
};
