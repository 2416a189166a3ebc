//! Requests to the message router and its replies in words, and the values that these and other words print.

mod connections;
mod replies;
mod requests;
mod values;

pub use replies::push_reply;
pub use requests::{push_object, push_request};
pub use values::{push_data, push_id, push_name, push_triad};
