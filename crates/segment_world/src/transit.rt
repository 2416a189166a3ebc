//! What is on its way on a segment: every datagram that was ever sent, and streams between simulated devices. Each
//! direction of a stream queues frames until its end receives them, in order.

mod buffers;
mod direction;
mod front;
mod links;
mod sent_log;
mod streams;
mod waiting;

pub use direction::Direction;
pub use front::QueueFront;
pub use links::Endpoints;
pub use sent_log::SentLog;
pub use streams::Streams;
