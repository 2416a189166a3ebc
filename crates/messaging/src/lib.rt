//! Class 3 connections of an adapter, and the requests that its application has to answer.
//!
//! Volume 1, chapter 3, transport class 3; Volume 2, chapter 2, SendUnitData.
#![tactic(auto)]

mod class3;
mod class3_connections;
mod late;
pub mod laws;
mod requests;
mod state;
mod table;
mod waiting;

pub use class3::Class3Connection;
pub use late::late_text;
pub use requests::{Requester, Waiting};
pub use state::{ANSWER_TIME_MS, MOST_OF_NODE, MOST_WAITING, MessagingState};
pub use table::Messaging;
