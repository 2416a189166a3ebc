//! The command that settles records in files: it prints that they settle, or what is missing, in words.
#![tactic(auto)]

mod command;
mod fault;
mod files;
mod words;

pub use command::settle_files;
pub use fault::SettleFault;
