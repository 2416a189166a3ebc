//! The files of a station: its state, its record, the time at which that begins, and the names of files.

mod file_words;
mod fresh;
mod record_file;
mod state_file;
mod timestamp;

pub use file_words::{name_of, stem_of};
pub use record_file::{RecordFile, RecordPlace, forget_record, place_of_record};
pub use state_file::{Start, StateFault, StateFile};
pub use timestamp::push_timestamp;
