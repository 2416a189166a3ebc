//! The page of a station: the threads that accept browsers, read their requests and answer them. A station waits for none of
//! them.
#![tactic(auto)]

mod calls;
mod files;
mod idle_threads;
mod page;
mod sent_answer;
mod server;
mod talk;
mod text;

pub use page::{
    Allowed, Body, Method, OwnNames, PageAnswer, PagePath, PageRefusal, PageRequest,
    RequestReading, Secrets, answer_to, head_of, read_request, refusal_text,
};
pub use server::{PAGE_THREADS, PageSetting, SharedPage, begin_page, greeting_text, page_node};
pub use text::{PAGE_FRONT, PAGE_REST};
