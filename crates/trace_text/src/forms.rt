//! The values of the lines of a trace.

use adapter_table::Description;
use cip_tables::{Event, InputPoint, OutputPoint};
use scanner_table::SlotConfig;
use trace_lines::{AdapterLine, HeartbeatLine, LimitLine, ScannerLine, TermLine};
use trace_outcomes::Part;

/// The value of a line, whatever its position.
#[derive(Drop)]
pub enum TraceLine {
    Adapter(AdapterLine),
    Output(OutputPoint),
    Input(InputPoint),
    Config(InputPoint),
    Description(Description),
    Limit(LimitLine),
    /// A class of the maker's own objects.
    Object(u32),
    Heartbeat(HeartbeatLine),
    Scanner(ScannerLine),
    /// What a scanner's profile says of its openings.
    Term(TermLine),
    Slot(SlotConfig),
    /// An event. A block of connection ids may also be that of a profile, before the profile ends.
    Event(Event),
    /// A part of the outcome of the event of this number, from 1.
    Recorded(u64, Part),
}
