//! Text on its way to an output that may be slow: a queue of whole pieces with a bound, the lines of an output, of which
//! those of events that do not fit are counted.

mod lines_in_turn;
mod outlet;
mod state_law;

pub use lines_in_turn::{LineQueue, PushFault};
pub use outlet::{NoticeForm, Offer, QueueOutlet};
pub use state_law::state_is_never_lost;
