//! The commands over traces in files: they are played again, written as a capture file, or explained in words; and the data
//! sheet of a profile.
#![tactic(auto)]

mod capturing;
mod fault;
mod handing;
mod piped;
mod replaying;
mod sheet;
mod whole;

pub use capturing::pcap;
pub use fault::TracesFault;
pub use piped::PipedOutput;
pub use replaying::replay;
pub use sheet::data_sheet;
pub use whole::explain;
