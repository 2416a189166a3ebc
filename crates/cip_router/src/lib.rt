//! The message router's requests and replies, the statuses of refusals, and the commands of encapsulation
//! messages, as both sides of a request use them.
#![tactic(auto)]

mod command;
mod object_service;
mod refusal;
mod reply;
mod router_reply;
mod router_request;

pub use command::{Command, EncapStatus};
pub use object_service::ObjectService;
pub use refusal::{Refusal, Status};
pub use reply::Reply;
pub use router_reply::{RouterReply, read_router_reply};
pub use router_request::{RouterRequest, UNCONNECTED_SEND, read_router_request};
