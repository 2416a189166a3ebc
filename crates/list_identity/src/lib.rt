//! Inquiries by which the field's tools find a device, and their replies: ListServices, ListIdentity, ListInterfaces.
//!
//! Volume 2, chapter 2, encapsulation commands.
#![tactic(auto)]

mod inquiry;
mod item;
mod name;
mod reply;
mod station;

pub use inquiry::Inquiry;
pub use name::{LONGEST_NAME, NameFault, ProductName};
pub use reply::{identity_reply, inquiry_reply};
pub use station::StationIdentity;
