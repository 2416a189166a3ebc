//! What a script expects of a device: conditions, whether they hold, and how an expectation is judged.
//!
//! `reports` writes what came of the scripts of several devices, as tools of continuous integration read it.
#![tactic(auto)]

mod condition;
mod holding;
mod judging;
mod reports;
mod seen;
mod verdicts;
mod words;

pub use condition::{Condition, ExpectedState, OwnerState};
pub use holding::holds;
pub use judging::{ExpectationState, deadline, judged, judgements_are_exact};
pub use reports::{
    CaseReport, REPORT_END, REPORT_HEAD, ReportCounts, SUITE_END, push_case, push_suite_head,
};
pub use seen::push_seen;
pub use verdicts::{Goal, LineCourse, LineVerdict, line_verdict};
pub use words::{push_condition, read_condition};
