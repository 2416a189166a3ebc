//! The record of a station, which a thread of its own writes.

use crate::record_way::{PutFault, RecordWay};
use crate::written::{gathers, joins};
use cip_types::{Items, OutOfMemory};
use station_record::{RecordFile, RecordPlace};
use std::alloc::Global;
use std::fs::File;
use std::io::{self, ErrorKind, Write};
use std::rt::{Clock, Files};
use std::sync::{Arc, Condvar, Mutex, Wait};
use std::thread;
use std::time::Duration;

/// A record has at most so many bytes on their way, and so many entries.
const MOST_BYTES: usize = 4_194_304;

const MOST_ENTRIES: usize = 65_536;

/// Entries that wait are written together, so many bytes at a time. Behind them the writer pauses for a millisecond: those that come
/// meanwhile are written by one call, and a station that shares its processor has its time.
const BATCH_BYTES: usize = 65_536;

/// Entries on their way, and where they go.
#[derive(Drop)]
struct Way {
    record: RecordWay,
    place: Option<RecordPlace>,
}

/// The way from a station to the writer of its record. Its lock is held only while an entry is put in or taken out.
#[derive(Drop)]
struct Channel {
    way: Mutex<Way>,
    more: Condvar,
}

/// The entries of a record on their way from a station to the thread that writes them.
#[derive(Drop)]
pub struct SharedRecord {
    alloc: Global,
    channel: Arc<Channel, Global>,
}

impl SharedRecord {
    /// No entries. OutOfMemory is the only fault.
    pub fn new(alloc: Global) -> Result<SharedRecord, OutOfMemory> {
        let channel = Channel {
            way: Mutex::new(Way {
                record: RecordWay::new(alloc, MOST_BYTES, MOST_ENTRIES),
                place: None,
            }),
            more: Condvar::new(),
        };
        match Arc::new(alloc, channel) {
            Ok(channel) => Ok(SharedRecord { alloc, channel }),
            Err(_) => Err(OutOfMemory),
        }
    }

    /// The same way, for another thread. OutOfMemory is the only fault.
    pub fn share(&self) -> Result<SharedRecord, OutOfMemory> {
        match Arc::try_clone(&self.channel) {
            Ok(channel) => Ok(SharedRecord {
                alloc: self.alloc,
                channel,
            }),
            Err(_) => Err(OutOfMemory),
        }
    }

    /// The end of the way at which entries are put in, for a record at this place. Where the way had another record before, all of it
    /// was written (`is_drained`).
    pub fn entries<R: Wait + Drop>(
        &self,
        rt: R,
        place: RecordPlace,
    ) -> Result<Entries<R>, OutOfMemory> {
        let record = self.share()?;
        record.channel.way.lock(&rt).place = Some(place);
        Ok(Entries { rt, record })
    }

    /// No entry is put in from now on: the writer ends once those on their way are written.
    pub fn end<R: Wait>(&self, rt: &R) {
        self.channel.way.lock(rt).record.end();
        self.channel.more.notify_one();
    }

    /// Writes the entries to the record's files until the record has ended. After a failure they are taken and discarded.
    pub fn write_files<R: Wait + Clock + Files<File = File>>(&self, rt: &R) {
        let mut file: Option<RecordFile> = None;
        let mut batch = Vec::new(self.alloc);
        for _ in rt.forever() {
            let Some((entry, is_last)) = self.next(rt) else {
                return;
            };
            let is_gathered = joins(BATCH_BYTES, batch.len(), entry.as_slice().len())
                && batch.extend_from_slice(entry.as_slice()).is_ok();
            if gathers(BATCH_BYTES, is_gathered, is_last, batch.len()) {
                continue;
            }
            let mut written = self.write(rt, &mut file, batch.as_slice());
            batch.clear();
            if !is_gathered && written.is_ok() {
                written = self.write(rt, &mut file, entry.as_slice());
            }
            self.channel.way.lock(rt).record.note(written.is_err());
            thread::sleep(rt, Duration::from_millis(1));
        }
    }

    /// Waits for the next entry, and takes it: whether it is the last one for now. None if the record has ended, and each entry
    /// was taken.
    fn next<R: Wait>(&self, rt: &R) -> Option<(Items<u8>, bool)> {
        let way = self.channel.way.lock(rt);
        let mut way = self
            .channel
            .more
            .wait_while(rt, way, |way| way.record.is_waiting());
        way.record.take()
    }

    /// Writes entries, unless one could not be written before.
    fn write<R: Wait + Files<File = File>>(
        &self,
        rt: &R,
        file: &mut Option<RecordFile>,
        piece: &[u8],
    ) -> io::Result<()> {
        let place = self.channel.way.lock(rt).place.take();
        if let Some(place) = place {
            *file = Some(RecordFile::begin(rt, self.alloc, place)?);
        }
        if piece.is_empty() || self.has_failed(rt) {
            return Ok(());
        }
        match file {
            Some(file) => file.write(rt, piece),
            None => Err(io::Error::from(ErrorKind::NotFound)),
        }
    }

    /// Whether each entry was written or discarded.
    pub fn is_drained<R: Wait>(&self, rt: &R) -> bool {
        self.channel.way.lock(rt).record.is_drained()
    }

    /// Whether an entry could not be written.
    pub fn has_failed<R: Wait>(&self, rt: &R) -> bool {
        self.channel.way.lock(rt).record.has_failed()
    }
}

/// The end of a way at which a recorder puts entries in: each write is an entry, which is taken whole or refused.
#[derive(Drop)]
pub struct Entries<R: Wait + Drop> {
    rt: R,
    record: SharedRecord,
}

impl<R: Wait + Drop> Write for Entries<R> {
    fn write(&mut self, entry: &[u8]) -> io::Result<usize> {
        let mut way = self.record.channel.way.lock(&self.rt);
        let waits = way.record.is_waiting();
        let put = way.record.put(entry);
        drop(way);
        // (a writer that has something on its way looks for more by itself)
        if waits {
            self.record.channel.more.notify_one();
        }
        match put {
            Ok(()) => Ok(entry.len()),
            Err(PutFault::Failed) => Err(io::Error::from(ErrorKind::BrokenPipe)),
            Err(_) => Err(io::Error::from(ErrorKind::WriteZero)),
        }
    }

    fn flush(&mut self) -> io::Result<()> {
        Ok(())
    }
}
