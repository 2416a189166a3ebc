//! The objects that tools ask of an adapter: their instances, the answers to their services, and the replies to
//! inquiries, all from its profile, what its points hold, and what its connections tell; and the requests to objects of
//! the maker's own, which its application answers.
//!
//! Volume 1, chapter 5, object library. Volume 2, chapter 5, TCP/IP Interface and Ethernet Link objects.

mod answer;
mod assembly;
mod carriers;
mod classes;
mod described;
mod identity;
mod instance;
mod lists;
mod network;
mod own;
mod port;
mod router;
mod status;
mod value;

pub use answer::{Bytes, ObjectAnswer, ObjectRequest};
pub use assembly::assembly_answer;
pub use carriers::{Carried, carried_request, is_packet, is_sending, naming, said_reply};
pub use classes::ClassFacts;
pub use described::{ConnectionFacts, described_answer, manager_answer};
pub use identity::{has_inquiry_length, inquiry_reply};
pub use instance::Instance;
pub use lists::{answer_within, word_of};
pub use own::{OwnRequest, own_request};
pub use value::{Attribute, Value, Zeros, put_low};
