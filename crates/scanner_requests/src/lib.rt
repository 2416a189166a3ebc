//! The messages that a scanner sends to its targets with their numbers and deadlines, the replies to them, and the
//! connections that these open.
//!
//! Volume 1, chapter 3, Connection Manager services; Volume 2, chapter 2, RegisterSession and SendRRData.
#![tactic(auto)]

mod connections;
mod frames;
mod numbers;
mod paths;
mod replies;
mod sizes;
mod waits;

pub use connections::{linked, new_connection};
pub use frames::{close_frame, open_frame, registration_frame};
pub use numbers::{LAST_REQUEST, can_open, id_after, next_requested, serial_after};
pub use replies::{ends_session, is_registered, open_answer};
pub use sizes::service_for;
pub use waits::later;
