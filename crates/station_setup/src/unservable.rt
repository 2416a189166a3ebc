//! What a valid profile says that no station can serve: a TCP port that is none, two slots that own one output of one target,
//! and a slot whose target is the scanner itself. A device that steps by events has no such faults.

mod defect;
mod slots;

pub use defect::{StationDefect, station_defect};
