//! The shapes of the lines of a trace; the lines for profiles, as they are read and as they are written.
#![tactic(auto)]

mod forms;
mod limit_lines;
mod names;
mod profile_lines;
mod shapes;
mod slot_lines;
mod written_profiles;
mod written_slots;

pub use forms::{
    AdapterLine, HeartbeatLine, Rate, ScannerLine, ScannerTerms, TermLine, profile_with,
    scanner_with,
};
pub use limit_lines::{
    LIMITS, LimitLine, LimitName, LimitNumber, NumberRange, StatedNumber, bad_number, limit_named,
    read_limit, stated_line, with_limit,
};
pub use names::{kind_name, read_mode};
pub use profile_lines::{
    read_adapter, read_description, read_heartbeat, read_object, read_output, read_point,
};
pub use shapes::{
    ADAPTER, ANSWER, CLASS3_PLACES, CLOSERS, COUNTERS, CUT, DESCRIBE, EXPLICIT, FRAME, FROM_NODE,
    HEARTBEAT, IDS, MODE, NODE_CONNECTIONS, NODE_OPENINGS, NUMBER, OUTPUT, OWN_REQUEST, PLACES,
    POINT, RATE, REPLIED, SCANNER, SEND, SLOT, STREAM, Shape, VALUE, WRITE, WordKind,
    part_shape_of, shape_of, skip_word,
};
pub use slot_lines::{read_openings, read_scanner, read_serials, read_slot};
pub use written_profiles::{push_ids, push_profile};
pub use written_slots::push_scanner;
