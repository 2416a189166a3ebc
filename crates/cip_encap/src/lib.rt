//! Encapsulation: the messages of explicit messaging, the items in them, and the splitting of a stream
//! into messages.
//!
//! Volume 2, chapter 2, encapsulation messages and common packet format.
#![tactic(auto)]

pub mod command;
mod connected;
mod connected_header;
mod header;
pub mod item;
mod laws;
mod message;
mod packet;
mod packet_header;
mod read;
mod splitter;
mod write;

pub use connected::{
    ConnectedPacket, connected_len, put_connected_header, read_any_connected_items,
    read_connected_items,
};
pub use header::{MessageHeader, read_message_header};
pub use laws::reads_back;
pub use message::{EncapFault, MessageView};
pub use packet::{
    CommonPacket, ItemFault, SocketAddress, after_item, items_len, put_items_header, put_socket,
    read_any_items, read_items, write_items,
};
pub use read::read_message;
pub use splitter::{Message, SplitFault, Splitter};
pub use write::{HEADER_LEN, put_message_header, write_message};
