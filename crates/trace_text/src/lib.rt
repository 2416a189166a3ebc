//! The text of a trace: the lines of a profile, of events, and of the recorded outcomes of these events.
#![tactic(auto)]

mod builder;
mod clock;
mod forms;
mod kept;
mod lines;
mod recorded;
mod trace;
mod written;

pub use builder::{TraceBuilder, given_block};
pub use clock::time_after;
pub use kept::Recorded;
pub use lines::{ascii_text, read_event_line};
pub use recorded::recorded_with;
pub use trace::{
    Trace, TraceFault, add_text, config_of, first_line, has_one_reading, is_skipped, read_trace,
};
pub use trace_outcomes::{push_outcome, write_outcome};
pub use trace_words::TextFault;
pub use written::{push_config, push_event, write_trace};
