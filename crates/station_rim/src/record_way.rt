//! The entries of a record on their way: which are taken, which is next, and when each is written.

ghost use Rattle.std.specs.Prelude.{◌≡◌};
ghost use Rattle.station_rim.specs.RecordWays.{RecordWay, WasPut, is_drained, is_waiting, new_way, taken_entry, way_after_take, with_end, with_note};

use crate::queue::{LineQueue, PushFault};
use cip_types::Items;
use std::alloc::Global;
use std::marker::Model;

/// Why an entry of a record is not taken. Nothing has changed.
#[derive(Clone, Copy, PartialEq, Eq)]
pub(crate) enum PutFault {
    /// An earlier one could not be written.
    Failed,
    /// There is no room for it.
    Full,
    /// An allocation was refused.
    OutOfMemory,
}

impl From<PushFault> for PutFault {
    ghost use Rattle.station_rim.specs.RecordWays.{put_fault};

    ghost from_gives = { λ fault given. given ≡ put_fault fault };

    fn from(fault: PushFault) -> PutFault {
        match fault {
            PushFault::Full => PutFault::Full,
            PushFault::OutOfMemory => PutFault::OutOfMemory,
        }
    }
}

/// Entries on their way to the files of a record, and what their writer does.
#[derive(Drop)]
pub(crate) struct RecordWay {
    queue: LineQueue,
    is_busy: bool,
    has_failed: bool,
    has_ended: bool,
}

impl Model for RecordWay {
    ghost use Rattle.station_rim.specs.RecordWays.{RecordWay};

    ghost Value = { RecordWay };

    ghost view = { λ w. record { queue = w.queue; busy = w.is_busy; failed = w.has_failed; ended = w.has_ended } };
}

impl RecordWay {
    /// No entries, and room for so many bytes and so many entries. Takes no memory.
    pub(crate) fn new(alloc: Global, most_bytes: usize, most_entries: usize) -> RecordWay
        ensures { result ≡ new_way most_bytes most_entries }
    {
        RecordWay {
            queue: LineQueue::new(alloc, most_bytes, most_entries),
            is_busy: false,
            has_failed: false,
            has_ended: false,
        }
    }

    /// Takes an entry whole, behind the others, or not at all. The faults, in order: `Failed`, `Full`, `OutOfMemory`.
    pub(crate) fn put(&mut self, entry: &[u8]) -> Result<(), PutFault>
        ensures { WasPut self.old entry.now result self.new }
    {
        if self.has_failed {
            return Err(PutFault::Failed);
        }
        self.queue.push(entry)?;
        Ok(())
    }

    /// Whether the writer waits: nothing is on its way, and more may come.
    pub(crate) fn is_waiting(&self) -> bool
        ensures { result ≡ is_waiting self.now }
    {
        self.queue.is_empty() && !self.has_ended
    }

    /// The writer takes the oldest entry, and whether it is the last one for now. None if nothing is on its way.
    pub(crate) fn take(&mut self) -> Option<(Items<u8>, bool)>
        ensures entry { result ≡ taken_entry self.old }
        ensures rest { self.new ≡ way_after_take self.old }
    {
        let entry = self.queue.pop()?;
        self.is_busy = true;
        Some((entry, self.queue.is_empty()))
    }

    /// What the writer took is written or discarded. Whether that failed is noted for good.
    pub(crate) fn note(&mut self, has_failed: bool)
        ensures { self.new ≡ with_note self.old has_failed }
    {
        self.is_busy = false;
        self.has_failed = self.has_failed || has_failed;
    }

    /// No entry is put in from now on.
    pub(crate) fn end(&mut self)
        ensures { self.new ≡ with_end self.old }
    {
        self.has_ended = true;
    }

    /// Whether each entry was written or discarded.
    pub(crate) fn is_drained(&self) -> bool
        ensures { result ≡ is_drained self.now }
    {
        self.queue.is_empty() && !self.is_busy
    }

    /// Whether an entry could not be written.
    pub(crate) fn has_failed(&self) -> bool
        ensures { result ≡ self.now.failed }
    {
        self.has_failed
    }
}
