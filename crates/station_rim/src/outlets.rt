//! The lines of an output, which a thread of its own writes.

use crate::line_way::LineWay;
use crate::queue::{NoticeForm, Offer};
use crate::written::{joins, write_whole};
use cip_types::{Items, OutOfMemory};
use station_lines::LineSink;
use std::alloc::Global;
use std::io::Write;
use std::rt::Clock;
use std::sync::{Arc, Condvar, Mutex, Wait};
use std::thread;
use std::time::Duration;

/// An output has at most so many bytes on their way, and so many texts.
const MOST_BYTES: usize = 262_144;

const MOST_TEXTS: usize = 4_096;

/// Texts that wait are written together, so many bytes at a time, which a pipe takes whole.
const BATCH_BYTES: usize = 4_096;

/// A writer pauses for a millisecond behind so many batches, which are as many bytes as may be on their way, so that a station
/// that shares its processor has its time.
const BATCHES_IN_A_ROW: u32 = 64;

/// A writer behind which nothing waits pauses for so many microseconds: the texts that come meanwhile are written by one call.
const GATHERING_US: u64 = 250;

/// The way from a station to a writer. Its lock is held only while a text is put in or taken out.
#[derive(Drop)]
struct Channel {
    way: Mutex<LineWay>,
    more: Condvar,
}

/// The lines of an output on their way from a station to the thread that writes them.
#[derive(Drop)]
pub struct SharedLines {
    alloc: Global,
    channel: Arc<Channel, Global>,
}

impl SharedLines {
    /// No lines. OutOfMemory is the only fault.
    pub fn new(alloc: Global, form: NoticeForm) -> Result<SharedLines, OutOfMemory> {
        let channel = Channel {
            way: Mutex::new(LineWay::new(alloc, form, MOST_BYTES, MOST_TEXTS)),
            more: Condvar::new(),
        };
        match Arc::new(alloc, channel) {
            Ok(channel) => Ok(SharedLines { alloc, channel }),
            Err(_) => Err(OutOfMemory),
        }
    }

    /// The same way, for another thread. OutOfMemory is the only fault.
    pub fn share(&self) -> Result<SharedLines, OutOfMemory> {
        match Arc::try_clone(&self.channel) {
            Ok(channel) => Ok(SharedLines {
                alloc: self.alloc,
                channel,
            }),
            Err(_) => Err(OutOfMemory),
        }
    }

    /// The end of the way at which lines are put in.
    pub fn sink<R: Wait + Drop>(&self, rt: R) -> Result<LineEntrance<R>, OutOfMemory> {
        Ok(LineEntrance {
            rt,
            lines: self.share()?,
        })
    }

    /// Writes the lines to a stream without end. After a failure of the stream the lines are taken and discarded.
    pub fn write_to<R: Wait + Clock, W: Write + Drop>(&self, rt: &R, out: W) {
        let mut out = out;
        let mut is_broken = false;
        let mut count = 0u32;
        let mut batch = Vec::new(self.alloc);
        for _ in rt.forever() {
            count = count.wrapping_add(1);
            if count % BATCHES_IN_A_ROW == 0 {
                thread::sleep(rt, Duration::from_millis(1));
            }
            let behind = self.gather(rt, &mut batch);
            if !is_broken {
                is_broken = write_whole(rt, &mut out, batch.as_slice()).is_err();
            }
            if let Some(text) = behind {
                if !is_broken {
                    is_broken = write_whole(rt, &mut out, text.as_slice()).is_err();
                }
            }
            batch.clear();
            if self.has_written_all(rt) {
                thread::sleep(rt, Duration::from_micros(GATHERING_US));
            }
        }
    }

    /// What the writer took is written or discarded. Whether nothing waits behind it.
    fn has_written_all<R: Wait>(&self, rt: &R) -> bool {
        let mut way = self.channel.way.lock(rt);
        way.note_written();
        way.is_waiting()
    }

    /// Waits for the next text, and takes those that wait, as far as they fit in a batch. Answers the one behind them, if it
    /// does not fit.
    fn gather<R: Wait + Clock>(&self, rt: &R, batch: &mut Vec<u8>) -> Option<Items<u8>> {
        for _ in 0..u64::MAX {
            let (text, is_last) = self.next(rt)?;
            let is_gathered = joins(BATCH_BYTES, batch.len(), text.as_slice().len())
                && batch.extend_from_slice(text.as_slice()).is_ok();
            if !is_gathered {
                return Some(text);
            }
            if is_last {
                return None;
            }
        }
        None
    }

    /// Waits for the next text and takes it: whether it is the last one for now. None if there was no memory for a notice.
    fn next<R: Wait + Clock>(&self, rt: &R) -> Option<(Items<u8>, bool)> {
        let way = self.channel.way.lock(rt);
        let mut way = self
            .channel
            .more
            .wait_while(rt, way, |way| way.is_waiting());
        let taken = way.take();
        drop(way);
        match taken {
            Ok(taken) => taken,
            Err(OutOfMemory) => {
                thread::sleep(rt, Duration::from_millis(1));
                None
            }
        }
    }

    /// Wakes the writer, if it waited for what was put in. While something is on its way it looks for more by itself.
    fn wake(&self, waits: bool) {
        if waits {
            self.channel.more.notify_one();
        }
    }

    /// Who offered state last has ended, and offers none again.
    pub fn release<R: Wait>(&self, rt: &R) {
        self.channel.way.lock(rt).release();
    }

    /// Whether each line was written.
    pub fn is_drained<R: Wait>(&self, rt: &R) -> bool {
        self.channel.way.lock(rt).is_drained()
    }
}

/// The end of a way at which a station puts lines in. It waits for no reader.
#[derive(Drop)]
pub struct LineEntrance<R: Wait + Drop> {
    rt: R,
    lines: SharedLines,
}

impl<R: Wait + Drop> LineSink for LineEntrance<R> {
    fn line(&mut self, text: &[u8]) {
        let mut way = self.lines.channel.way.lock(&self.rt);
        let waits = way.is_waiting();
        let _ = way.offer(text);
        drop(way);
        self.lines.wake(waits);
    }

    fn state(&mut self, text: &[u8]) -> bool {
        let mut way = self.lines.channel.way.lock(&self.rt);
        let waits = way.is_waiting();
        let offered = way.offer_state(text);
        drop(way);
        self.lines.wake(waits);
        matches!(offered, Offer::Taken)
    }
}
