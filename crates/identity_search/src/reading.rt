//! Replies to ListIdentity requests, read: which device answers.
//!
//! Volume 2, chapter 2, ListIdentity.

mod item;
mod reply;

pub use item::{FoundIdentity, IdentityFault};
pub use reply::{identity_request, read_identity_reply};
