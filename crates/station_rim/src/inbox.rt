//! The lines of standard input, which a thread of its own reads.

ghost use Rattle.std.specs.Prelude.{◌≡◌};
ghost use Rattle.station_rim.specs.Reads.{bytes_of, is_end};

use crate::unread_calls::{CallOffer, UnreadCalls};
use cip_types::OutOfMemory;
use mio::Waker;
use station_lines::{CallLines, InputRead, NextLine, input_read};
use std::alloc::Global;
use std::io::Read;
use std::rt::Clock;
use std::sync::{Arc, Mutex, Wait};
use std::thread;
use std::time::Duration;

/// A read takes at most so many bytes.
const CHUNK_BYTES: usize = 4_096;

/// What was not yet taken, and what wakes the station that takes it.
#[derive(Drop)]
struct InputWay {
    calls: UnreadCalls,
    waker: Option<Waker>,
}

/// An input that one thread reads and a station takes line by line.
#[derive(Drop)]
pub struct SharedInput {
    alloc: Global,
    way: Arc<Mutex<InputWay>, Global>,
}

impl SharedInput {
    /// An input of which nothing was read. OutOfMemory is the only fault.
    pub fn new(alloc: Global) -> Result<SharedInput, OutOfMemory> {
        let way = Mutex::new(InputWay {
            calls: UnreadCalls::new(alloc),
            waker: None,
        });
        match Arc::new(alloc, way) {
            Ok(way) => Ok(SharedInput { alloc, way }),
            Err(_) => Err(OutOfMemory),
        }
    }

    /// The same input, for another thread. OutOfMemory is the only fault.
    pub fn share(&self) -> Result<SharedInput, OutOfMemory> {
        match Arc::try_clone(&self.way) {
            Ok(way) => Ok(SharedInput {
                alloc: self.alloc,
                way,
            }),
            Err(_) => Err(OutOfMemory),
        }
    }

    /// The lines of the input, for a station that this waker wakes.
    pub fn lines<R: Wait + Drop>(self, rt: R, waker: Waker) -> InputLines<R> {
        self.way.lock(&rt).waker = Some(waker);
        InputLines { rt, input: self }
    }

    /// Reads an input to its end. A read that a signal interrupts is made again.
    pub fn fill<R: Clock + Wait, I: Read + Drop>(&self, rt: &R, input: I) {
        let mut input = input;
        let mut chunk = [0u8; CHUNK_BYTES];
        for _ in 0..u64::MAX {
            let read = input_read(input.read(&mut chunk));
            if is_end(read) || self.take(rt, &chunk, read).is_err() {
                break;
            }
        }
        self.end(rt);
    }

    /// Appends the bytes at the front of a chunk that a read has given.
    fn take<R: Clock + Wait>(
        &self,
        rt: &R,
        chunk: &[u8],
        read: InputRead,
    ) -> Result<(), OutOfMemory> {
        match chunk.get(..bytes_of(read)) {
            Some(bytes) if !bytes.is_empty() => self.push(rt, bytes),
            _ => Ok(()),
        }
    }

    /// Appends bytes once the buffer is not full, and wakes the station.
    fn push<R: Clock + Wait>(&self, rt: &R, bytes: &[u8]) -> Result<(), OutOfMemory> {
        for _ in 0..u64::MAX {
            if !self.way.lock(rt).calls.is_full() {
                break;
            }
            thread::sleep(rt, Duration::from_millis(1));
        }
        let pushed = self.way.lock(rt).calls.push(bytes);
        self.wake(rt);
        pushed
    }

    /// Appends a line of a page, with its LF, and wakes the station. Answers whether there was room: the page never waits
    /// here, and its lines never stand within those of the input.
    pub fn offer<R: Wait>(&self, rt: &R, line: &[u8]) -> bool {
        let offered = self.way.lock(rt).calls.offer(line);
        self.wake(rt);
        offered == CallOffer::Taken
    }

    /// Takes the next line: first those of a page. Never waits.
    pub fn next_line<R: Wait>(&self, rt: &R) -> Result<NextLine, OutOfMemory> {
        self.way.lock(rt).calls.next_line(self.alloc)
    }

    /// Ends the input, and wakes the station.
    pub fn end<R: Wait>(&self, rt: &R) {
        self.way.lock(rt).calls.end();
        self.wake(rt);
    }

    /// Wakes the station, if it waits at a port already.
    pub fn wake<R: Wait>(&self, rt: &R) {
        if let Some(waker) = &self.way.lock(rt).waker {
            let _ = waker.wake();
        }
    }
}

/// The lines of an input that another thread reads.
#[derive(Drop)]
pub struct InputLines<R: Wait + Drop> {
    rt: R,
    input: SharedInput,
}

impl<R: Wait + Drop> CallLines for InputLines<R> {
    ghost has = { λ old next new. new ≡ old };

    fn next_line(&mut self) -> Result<NextLine, OutOfMemory> {
        self.input.next_line(&self.rt)
    }
}

/// Whether the input has ended with a read: not with one that is made again.
fn is_end(read: InputRead) -> bool
    ensures { result ≡ is_end read }
{
    match read {
        InputRead::Bytes(_) => false,
        InputRead::Again => false,
        InputRead::End => true,
    }
}

/// How many bytes a read has given.
fn bytes_of(read: InputRead) -> usize
    ensures { result ≡ bytes_of read }
{
    match read {
        InputRead::Bytes(count) => count,
        InputRead::Again => 0,
        InputRead::End => 0,
    }
}
