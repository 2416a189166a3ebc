//! The words of a command line before they are read: each option and its value are two of them, and help may be behind each
//! command; what is said of a value that an option has not; and how the station program is used.

mod help;
mod usage;
mod values;
mod words;

pub use help::read_task;
pub use usage::USAGE;
pub use values::{has_options, takes_value, value_words};
pub use words::{
    file_at, file_of, files_of, names_of, profile_of, push_value_fault, split_words, word_from_end,
    wrong_word,
};
