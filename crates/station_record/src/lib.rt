//! The record of a station: a trace of all that its device was given and answered, in the order in which the device took
//! it, and the files that it goes to.
#![tactic(auto)]

mod fault;
mod files;
mod kept_files;
mod kept_state;
mod recorder;
mod shortened;
mod sink;
mod summed;

pub use fault::RecordFault;
pub use files::{Placed, RecordFiles, file_name};
pub use kept_files::{
    RecordFile, RecordPlace, Start, StateFault, StateFile, forget_record, name_of, place_of_record,
    push_timestamp, stem_of,
};
pub use kept_state::{
    IdSupply, KeptIds, NoSupply, StationState, begin_state, push_state, read_state, reads_back,
    unused_ids, wants_block, with_ids,
};
pub use recorder::Recorder;
pub use shortened::repeats;
pub use sink::RecordSink;
