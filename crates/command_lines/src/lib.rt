//! The command lines of the line's programs: their words, the tasks that these request, and the version.
//!
//! `words` has what comes before a task is read: options and their values, help, and usage.
#![tactic(auto)]

mod line_commands;
mod line_task;
mod question_task;
mod station_numbers;
mod station_options;
mod station_task;
mod version;
mod words;

pub use line_task::{LineTask, LoopTask, Misuse, Task, read_line_task};
pub use question_task::{SearchTask, SheetTask, WorldTask};
pub use station_options::{Flag, OptionName, Options, Setting, StationMisuse, option_of};
pub use station_task::{ProgramTask, StationCommand, StationTask, command_of, read_station_task};
pub use version::VERSION;
pub use words::{
    USAGE, file_at, file_of, files_of, has_options, names_of, profile_of, push_value_fault,
    read_task, split_words, takes_value, value_words, word_from_end, wrong_word,
};
