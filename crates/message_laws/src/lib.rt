//! Laws of the messages of class 3 connections. A law call does nothing; its contract states the law.
#![tactic(auto)]

mod repetitions;

pub use repetitions::{messages_are_executed_once_in_turn, repetitions_get_what_was_sent};
