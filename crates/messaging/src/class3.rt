//! One class 3 connection.

use cip_types::{ConnId, Items, Ms, Node, Triad};

/// A class 3 connection to the message router: its triad and peer, the stream that it lives on, its ids, its actual
/// packet intervals in milliseconds and its sizes in bytes, the time-out of its inactivity watchdog, the number of its
/// opening, the sequence count of the last message that was executed and the message router's reply to it, and its
/// deadline.
///
/// The count is None before the first message. The reply is empty before the first message, and while the application
/// is to answer.
///
/// Volume 1, chapter 3, transport class 3 and connection object attributes.
#[derive(PartialEq, Drop)]
pub struct Class3Connection {
    pub triad: Triad,
    pub peer: Node,
    pub stream: u16,
    pub o_t_id: ConnId,
    pub t_o_id: ConnId,
    pub o_t_api_ms: u32,
    pub t_o_api_ms: u32,
    pub o_t_size: u32,
    pub t_o_size: u32,
    pub watchdog: Ms,
    pub opening: u32,
    pub last: Option<u16>,
    pub reply: Items<u8>,
    pub deadline: Ms,
}
