//! The bytes of a capture file with the frames and datagrams of a trace, for readers such as tshark.
//!
//! The file is a classic pcap file of raw IPv4 packets. RFC 791 (IPv4), RFC 768 (UDP), RFC 9293 (TCP), RFC 1071 (checksum).

mod capture;
mod capture_lines;
mod checksum;
mod ends;
mod headers;
mod packets;
mod traffic;
mod wall_clock;

pub use capture::Capture;
pub use capture_lines::CaptureLines;
pub use wall_clock::recorded_from;
