//! What a station's loop shares with the threads around it.

use crate::id_supply::SharedIds;
use crate::inbox::SharedInput;
use crate::outlets::SharedLines;
use crate::queue::NoticeForm;
use crate::record_queue::SharedRecord;
use cip_types::OutOfMemory;
use std::alloc::Global;

/// The input, the outputs, the record and the connection ids of a station.
#[derive(Drop)]
pub struct Rim {
    pub input: SharedInput,
    pub out: SharedLines,
    pub err: SharedLines,
    pub record: SharedRecord,
    pub ids: SharedIds,
}

impl Rim {
    /// Nothing is read yet, and nothing is to be written. The fault: an allocation was refused.
    pub fn new(alloc: Global) -> Result<Rim, OutOfMemory> {
        Ok(Rim {
            input: SharedInput::new(alloc)?,
            out: SharedLines::new(alloc, NoticeForm::Comment)?,
            err: SharedLines::new(alloc, NoticeForm::Report)?,
            record: SharedRecord::new(alloc)?,
            ids: SharedIds::new(alloc)?,
        })
    }
}
