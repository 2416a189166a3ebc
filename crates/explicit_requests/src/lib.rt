//! Explicit requests of the application to the targets of a scanner: which may be sent, their frames, the replies to them,
//! and how they end without one.
//!
//! Volume 1, chapter 2, message router request and response, and chapter 3, unconnected messaging; Volume 2, chapter 2,
//! SendRRData.
#![tactic(auto)]

mod admission;
mod endings;
mod frames;
mod laws;
mod pending;
mod replies;

pub use admission::session_for;
pub use endings::{ExplicitEnd, ends_any, keep_others, report_ended};
pub use frames::{explicit_frame, pending_explicit};
pub use laws::{explicit_requests_rest, later_deadlines_end_nothing, no_end_changes_nothing};
pub use pending::{add_pending, find_pending, first_deadline, remove_pending};
pub use replies::reply_answer;
