//! Answers as flat bytes, for readers in other languages.
#![tactic(auto)]

mod answer;
mod head;
mod length;
mod notices;

pub use answer::{delivery_number, put_answer};
pub use head::ItemHeader;
pub use length::answer_len;
