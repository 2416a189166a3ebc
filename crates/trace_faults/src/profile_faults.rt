//! Why a profile is bad: its first fault, the first line and word that have it, and the value there.

mod adapter_defects;
mod defects;
mod faults;
mod instances;
mod limit_defects;
mod object_defects;
mod scanner_defects;

pub use adapter_defects::adapter_reason;
pub use defects::{Defect, LineName, PacketDirection, ProfileReason, WaitingTime, WordPlace};
pub use faults::config_reason;
pub use scanner_defects::scanner_reason;
