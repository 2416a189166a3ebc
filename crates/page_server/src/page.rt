//! The page of a station: what is answered to each request of a browser.

mod answers;
mod heads;
mod request;
mod requests;
mod values;

pub use answers::{PageAnswer, PageRefusal, answer_to};
pub use heads::{head_of, refusal_text};
pub use request::{Allowed, Body, Method, PagePath, PageRequest};
pub use requests::{OwnNames, RequestReading, Secrets, read_request};
