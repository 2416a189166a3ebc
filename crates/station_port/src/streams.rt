//! The streams of a station: those that peers open, and those that are opened to targets and opened again after a cut; why they
//! end, which make room, and what is reported of them.

mod address;
mod causes;
mod dial;
mod kept_streams;
mod nop;
mod ready;
mod reports;
mod sessions;
mod shared_sockets;
mod stream_options;
mod targets;

pub use address::address_of;
pub use kept_streams::{KeptStreams, Welcome, wait_for_streams};
pub use nop::NopTimer;
pub use ready::{DATAGRAMS, FINDER, LISTENER, OPENINGS, Ready, STREAMS, WAKER};
pub use sessions::{SessionAnswer, asks_session, session_answer};
pub use shared_sockets::shared_socket;
pub use stream_options::make_room;
pub use targets::{DialOutcome, Targets};
