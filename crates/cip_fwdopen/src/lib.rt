//! Requests to the Connection Manager and its replies, as bytes.
#![tactic(auto)]

mod close;
mod fault;
mod fixed;
mod front;
mod get;
mod laws;
mod message;
mod open;
mod open_service;
mod reply;
pub mod service;
mod write;

pub use close::{
    CloseAnswer, CloseReply, CloseRequest, close_len, put_close, put_closed, read_close,
    read_close_reply, write_close, write_closed,
};
pub use fault::ReadFault;
pub use get::{GetAnswer, GetReply, put_got, read_get_reply, write_get, write_got};
pub use laws::reads_back;
pub use message::{Request, read_request};
pub use open::{OpenRequest, read_open};
pub use open_service::OpenService;
pub use reply::{AcceptableIntervals, OpenAnswer, OpenReply, Opened, Refused, read_open_reply};
pub use write::{
    open_len, put_open, put_opened, put_refused, put_unacceptable, write_open, write_opened,
    write_refused, write_unacceptable,
};
