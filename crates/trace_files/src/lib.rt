//! A trace that lies in several files, read line by line: the configuration of its device, and then its entries one by
//! one. It takes the memory of the profile and of one entry, however long the trace is. A record may have the sum of an outcome
//! in place of its lines, which no other reader takes.
//!
//! `regular` reads regular files alone, and up to a limit. `pcap` makes the bytes of a capture file of a trace.
#![tactic(auto)]

mod entry_reader;
mod filler;
mod filling;
mod lines;
mod pcap;
mod player;
mod profile_lines;
mod record;
mod regular;
mod trace_reader;

pub use entry_reader::TraceEntry;
pub use filler::Filler;
pub use filling::Filling;
pub use lines::{LONGEST_LINE, LinePart, read_line_part};
pub use pcap::{Capture, CaptureLines, recorded_from};
pub use player::Player;
pub use record::{FilledRecord, read_record};
pub use regular::{FileFault, open_regular, read_regular};
pub use trace_reader::{TracePiece, TraceReader};
