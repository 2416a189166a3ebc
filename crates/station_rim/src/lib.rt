//! What a station shares with the threads around it: its input, the lines of its outputs, and its record. A station waits for
//! none of them, but for a bounded time as it ends.
#![tactic(auto)]

mod draining;
mod id_supply;
mod id_way;
mod inbox;
mod labelled;
mod line_way;
mod outlets;
mod queue;
mod record_law;
mod record_queue;
mod record_way;
mod rim;
mod threads;
mod unread_calls;
mod written;

pub use draining::{drain_lines, drain_record, report_line};
pub use id_supply::{CIRCLE_ENDS, IdBlocks, SharedIds};
pub use inbox::{InputLines, SharedInput};
pub use labelled::{LabelledLines, SharedDevices};
pub use outlets::{LineEntrance, SharedLines};
pub use queue::{LineQueue, NoticeForm, Offer, PushFault, QueueOutlet, state_is_never_lost};
pub use record_law::entries_are_written_in_order;
pub use record_queue::{Entries, SharedRecord};
pub use rim::Rim;
pub use threads::begin_output;
