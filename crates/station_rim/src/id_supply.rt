//! The connection ids of a station: a thread of its own reserves further blocks in the state's file.

use crate::id_way::IdWay;
use crate::outlets::SharedLines;
use cip_types::{IdBlock, OutOfMemory};
use station_lines::LineSink;
use station_record::{IdSupply, StateFile, StationState};
use std::alloc::Global;
use std::fs::File;
use std::rt::{Clock, Files};
use std::sync::{Arc, Condvar, Mutex, Wait};
use std::thread;
use std::time::Duration;

/// A block that could not be reserved is tried again after so many milliseconds.
const RETRY_MS: u64 = 1_000;

/// At the end of a life the station waits at most so long for what is being written, in milliseconds.
const END_MS: u32 = 1_000;

/// What is told where all ids were given.
pub const CIRCLE_ENDS: &[u8] =
    b"eip_station: each connection id was given once, and they begin again: an id that comes now was given 4,294,967,295 ids ago\n";

/// The ids of a life, and the file of the state, unless that is in use.
#[derive(Drop)]
struct Way {
    life: Option<IdWay>,
    file: Option<StateFile>,
    /// A line has told that no further block can be reserved.
    is_reported: bool,
}

/// The way from the state's file to a station. Its lock is never held while the file is written.
#[derive(Drop)]
struct Channel {
    way: Mutex<Way>,
    more: Condvar,
}

/// The connection ids of a station, which it shares with the thread of its state's file.
#[derive(Drop)]
pub struct SharedIds {
    channel: Arc<Channel, Global>,
}

impl SharedIds {
    /// No life has begun. OutOfMemory is the only fault.
    pub fn new(alloc: Global) -> Result<SharedIds, OutOfMemory> {
        let channel = Channel {
            way: Mutex::new(Way {
                life: None,
                file: None,
                is_reported: false,
            }),
            more: Condvar::new(),
        };
        match Arc::new(alloc, channel) {
            Ok(channel) => Ok(SharedIds { channel }),
            Err(_) => Err(OutOfMemory),
        }
    }

    /// The same ids, for another thread. OutOfMemory is the only fault.
    pub fn share(&self) -> Result<SharedIds, OutOfMemory> {
        match Arc::try_clone(&self.channel) {
            Ok(channel) => Ok(SharedIds { channel }),
            Err(_) => Err(OutOfMemory),
        }
    }

    /// A life begins with a block, which the state in this file has reserved.
    pub fn begin<R: Wait>(&self, rt: &R, file: StateFile, state: StationState, block: IdBlock) {
        let mut way = self.channel.way.lock(rt);
        way.life = match state.ids {
            Some(ids) => Some(IdWay::begin(state, ids, block)),
            None => None,
        };
        way.file = Some(file);
    }

    /// The end of the way at which a device takes further blocks. OutOfMemory is the only fault.
    pub fn blocks<R: Wait + Drop>(&self, rt: R) -> Result<IdBlocks<R>, OutOfMemory> {
        Ok(IdBlocks {
            rt,
            ids: self.share()?,
        })
    }

    /// Reserves a further block whenever one is wanted, without end. A line tells where that fails, and where all ids were given.
    pub fn keep<R>(&self, rt: &R, err: &SharedLines)
    where
        R: AllocGlobal + Files<File = File> + Clock + Wait + Copy + Drop,
    {
        for _ in rt.forever() {
            let Some((file, life)) = self.next(rt) else {
                continue;
            };
            let (state, _) = life.next_reserved();
            let is_written = file.put(rt, state).is_ok();
            let is_first = self.note(rt, file, is_written);
            if is_written && life.ends_circle() {
                report(*rt, err, CIRCLE_ENDS);
            }
            if !is_written {
                self.report_failure(rt, err, is_first);
                thread::sleep(rt, Duration::from_millis(RETRY_MS));
            }
        }
    }

    /// Waits until a block is wanted, and takes the file and the ids as they are.
    fn next<R: Wait>(&self, rt: &R) -> Option<(StateFile, IdWay)> {
        let way = self.channel.way.lock(rt);
        let mut way = self
            .channel
            .more
            .wait_while(rt, way, |way| way.is_resting());
        let life = way.life?;
        let file = way.file.take()?;
        way.life = Some(life.reserving());
        Some((file, life))
    }

    /// The state of the next block was written, or not. Whether a failure is the first one behind a success.
    fn note<R: Wait>(&self, rt: &R, file: StateFile, is_written: bool) -> bool {
        let mut way = self.channel.way.lock(rt);
        way.file = Some(file);
        if let Some(life) = way.life {
            way.life = Some(life.noted(is_written));
        }
        let is_first = !is_written && !way.is_reported;
        way.is_reported = !is_written;
        is_first
    }

    /// Tells once that no further block can be reserved.
    fn report_failure<R>(&self, rt: &R, err: &SharedLines, is_first: bool)
    where
        R: AllocGlobal + Wait + Copy + Drop,
    {
        if !is_first {
            return;
        }
        let way = self.channel.way.lock(rt);
        let path = way.path();
        let line = format!(in rt.alloc();
            "eip_station: {path} cannot be written, so no further connection ids are reserved until it can\n"
        );
        if let Ok(line) = line {
            report(*rt, err, line.as_bytes());
        }
    }

    /// A life ends in order, whose device has so many ids left: what it did not give is reserved again later. Waits a bounded time
    /// for what is being written. Whether nothing is being written any more. Where the state cannot be written, some ids are never
    /// given.
    pub fn end<R>(&self, rt: &R, left: u32) -> bool
    where
        R: Files<File = File> + Clock + Wait,
    {
        for _ in 0..END_MS {
            match self.take_back(rt, left) {
                Taken::Ended => return true,
                Taken::File(file, state) => {
                    let _ = file.put(rt, state);
                    return true;
                }
                Taken::Busy => thread::sleep(rt, Duration::from_millis(1)),
            }
        }
        false
    }

    /// Takes the file, with the state in which what the life did not give can be reserved again.
    fn take_back<R: Wait>(&self, rt: &R, left: u32) -> Taken {
        let mut way = self.channel.way.lock(rt);
        let Some(life) = way.life else {
            return Taken::Ended;
        };
        let Some(file) = way.file.take() else {
            return Taken::Busy;
        };
        way.life = None;
        Taken::File(file, life.given_back(left))
    }
}

/// What the end of a life finds.
#[derive(Drop)]
enum Taken {
    /// No life, or one whose ids are those of its incarnation.
    Ended,
    /// The file of the state, and the state that goes there.
    File(StateFile, StationState),
    /// The file is being written.
    Busy,
}

impl Way {
    /// The path of the state's file, unless that is in use.
    fn path(&self) -> &str {
        match &self.file {
            Some(file) => file.path(),
            None => "",
        }
    }

    /// Whether nothing is to be reserved now.
    fn is_resting(&self) -> bool {
        match self.life {
            Some(life) => self.file.is_none() || life.is_resting(),
            None => true,
        }
    }
}

/// Reports a line on the standard error, without waiting.
fn report<R: Wait + Copy + Drop>(rt: R, err: &SharedLines, line: &[u8]) {
    if let Ok(mut err) = err.sink(rt) {
        err.line(line);
    }
}

/// The end of a way at which a device takes further blocks.
#[derive(Drop)]
pub struct IdBlocks<R: Wait + Drop> {
    rt: R,
    ids: SharedIds,
}

impl<R: Wait + Drop> IdSupply for IdBlocks<R> {
    ghost supplies = { λ old left block new. Unit };

    fn next_block(&mut self, left: u32) -> Option<IdBlock> {
        let mut way = self.ids.channel.way.lock(&self.rt);
        let life = way.life?;
        way.life = Some(life.requested(left));
        if !way.is_resting() {
            self.ids.channel.more.notify_one();
        }
        life.supplied()
    }
}
