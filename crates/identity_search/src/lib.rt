//! The search for devices: a ListIdentity request to a host or to all hosts of a network, and a line for each answer.
//!
//! Volume 2, chapter 2, ListIdentity.
//!
//! `reading` reads the replies: which device answers.
#![tactic(auto)]

mod asking;
mod fault;
mod line;
mod reading;

pub use asking::search;
pub use fault::SearchFault;
pub use line::identity_line;
pub use reading::{FoundIdentity, IdentityFault, identity_request, read_identity_reply};
