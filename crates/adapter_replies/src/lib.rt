//! The answers of an adapter, made before its table changes: replies to peers, directly and over their streams.
//!
//! Volume 2, chapter 2, encapsulation messages and common packet format.
//!
//! `objects` are the objects that tools ask of an adapter, and its replies to inquiries.
#![tactic(auto)]

mod addresses;
mod answers;
mod frames;
mod messages;
mod object_replies;
mod objects;
mod own;
mod replies;
mod routes;

pub use addresses::address_of;
pub use answers::{
    class3_opened, closed_notices, cut_answer, ended_answer, expiry_notices, frame_answer,
    late_answer, late_notices, notices_answer, one_notice, opened_address, opened_reply,
    opening_notices, reply_and_text, reply_answer, unserved_answer,
};
pub use frames::{
    FrameView, is_protocol, read_connected_items_for, read_frame_for, read_items_for,
};
pub use messages::repeated_answer;
pub use object_replies::{inquiry_answer, object_notices, object_reply};
pub use objects::{
    Attribute, Bytes, Carried, ClassFacts, ConnectionFacts, Instance, ObjectAnswer, ObjectRequest,
    OwnRequest, Value, Zeros, answer_within, assembly_answer, carried_request, described_answer,
    has_inquiry_length, inquiry_reply, is_packet, is_sending, manager_answer, naming, own_request,
    put_low, said_reply, word_of,
};
pub use own::{found_last, late_frames, referred_answer};
pub use replies::{FrameReply, write_frame_reply};
pub use routes::{ConnectionRoute, RequestHeader, Route};
