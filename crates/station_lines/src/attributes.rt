//! Attributes of a scanner's targets: the calls that get and set them, what was requested until its reply comes, and
//! the lines of replies, with the names and values of the attributes that a station knows.

mod calls;
mod kind;
mod names;
mod replies;
mod requested;
mod texts;
mod values;
mod waiting;

pub use calls::{AttributeCall, call_event, read_attribute_call};
pub use kind::AttributeType;
pub use replies::ReplyMoment;
pub use requested::{AttributeService, RequestedAttribute, TargetAttribute};
pub use waiting::PendingAttributes;
