//! The record of a station, and its capture file, as a page hands them out: piece by piece, and one at a time. Behind each piece
//! the thread pauses, so that a station that shares its processor has its time.

use crate::page::{PageAnswer, PageRefusal, head_of};
use crate::sent_answer::{PAUSE_MS, send_piece};
use crate::server::PageContext;
use crate::talk::Unheard;
use cip_tables::Device;
use cip_types::OutOfMemory;
use station_record::file_name;
use std::alloc::Global;
use std::fs::{self, File};
use std::io::Read;
use std::net::TcpStream;
use std::rt::{Clock, Files};
use std::sync::Wait;
use std::thread;
use std::time::Duration;
use trace_files::{CaptureLines, LONGEST_LINE};

/// A record is read in pieces of so many bytes, with a pause behind each.
const PIECE: usize = 16_384;

/// It is read so, if its capture file is made: the packets of a piece take longer than the piece.
const CAPTURED_PIECE: usize = 4_096;

/// A record has at most so many files.
const MOST_FILES: u32 = 1_000_000;

/// Sends the record or its capture file, unless another one is being sent.
pub(crate) fn send_download<R, D>(
    rt: &R,
    context: &PageContext,
    stream: &mut TcpStream,
    answer: PageAnswer,
) -> Result<(), Unheard>
where
    R: Wait + Clock + Files<File = File>,
    D: Device + Drop,
{
    if !begins_download(rt, context) {
        return Err(Unheard::Refused(PageRefusal::Busy));
    }
    let sent = send_file::<R, D>(rt, context, stream, answer);
    *context.is_sending.lock(rt) = false;
    sent
}

/// Sends the record or its capture file.
fn send_file<R, D>(
    rt: &R,
    context: &PageContext,
    stream: &mut TcpStream,
    answer: PageAnswer,
) -> Result<(), Unheard>
where
    R: Clock + Files<File = File>,
    D: Device + Drop,
{
    let mut record = RecordBytes::begin(rt, context)?;
    send_piece(rt, stream, head_of(answer).as_bytes())?;
    let sent = match answer {
        PageAnswer::Capture => send_capture::<R, D>(rt, &mut record, stream),
        _ => send_record(rt, &mut record, stream),
    };
    match sent {
        Ok(()) => Ok(()),
        // (what has begun is not refused)
        Err(_) => Err(Unheard::Left),
    }
}

/// Takes the one place for downloads. Whether it was free.
fn begins_download<R: Wait>(rt: &R, context: &PageContext) -> bool {
    let mut is_sending = context.is_sending.lock(rt);
    let is_free = !*is_sending;
    *is_sending = true;
    is_free
}

/// Sends the files of the record, one behind another: they are one trace.
fn send_record<R>(
    rt: &R,
    record: &mut RecordBytes<'_>,
    stream: &mut TcpStream,
) -> Result<(), Unheard>
where
    R: Clock + Files<File = File>,
{
    let mut piece = [0u8; PIECE];
    for _ in 0..u64::MAX {
        let count = record.read(rt, &mut piece)?;
        if count == 0 {
            break;
        }
        send_piece(rt, stream, piece.get(..count).unwrap_or(&[]))?;
    }
    Ok(())
}

/// Sends the record as a capture file: what its whole lines say so far.
fn send_capture<R, D>(
    rt: &R,
    record: &mut RecordBytes<'_>,
    stream: &mut TcpStream,
) -> Result<(), Unheard>
where
    R: Clock + Files<File = File>,
    D: Device + Drop,
{
    let mut sent: SentCapture<D> = SentCapture {
        lines: SplitLines {
            lines: CaptureLines::new(record.alloc),
            line: Vec::new(record.alloc),
        },
        packets: Vec::new(record.alloc),
    };
    sent.send(rt, record, stream)
}

/// A capture file that is being sent: its lines so far, and the packets of them that are not yet sent.
#[derive(Drop)]
struct SentCapture<D> {
    lines: SplitLines<D>,
    packets: Vec<u8>,
}

impl<D: Device + Drop> SentCapture<D> {
    /// Sends the packets of the whole record.
    fn send<R>(
        &mut self,
        rt: &R,
        record: &mut RecordBytes<'_>,
        stream: &mut TcpStream,
    ) -> Result<(), Unheard>
    where
        R: Clock + Files<File = File>,
    {
        let mut piece = [0u8; CAPTURED_PIECE];
        for _ in 0..u64::MAX {
            let count = record.read(rt, &mut piece)?;
            if count == 0 {
                break;
            }
            let bytes = piece.get(..count).unwrap_or(&[]);
            self.lines.take(bytes, &mut self.packets)?;
            self.send_packets(rt, stream)?;
        }
        // (the bytes behind the last LF are the front of a line that is being written)
        if self.lines.lines.end(b"", &mut self.packets).is_err() {
            return Err(Unheard::Left);
        }
        self.send_packets(rt, stream)
    }

    fn send_packets<R: Clock>(&mut self, rt: &R, stream: &mut TcpStream) -> Result<(), Unheard> {
        send_piece(rt, stream, self.packets.as_slice())?;
        self.packets.clear();
        Ok(())
    }
}

/// A record that is split into lines, whose packets are made.
#[derive(Drop)]
struct SplitLines<D> {
    lines: CaptureLines<D>,
    line: Vec<u8>,
}

impl<D: Device + Drop> SplitLines<D> {
    /// Takes bytes, and appends the packets of the lines that are whole with them. The fault: a line is bad or too long.
    fn take(&mut self, bytes: &[u8], packets: &mut Vec<u8>) -> Result<(), Unheard> {
        let mut rest = bytes;
        for _ in 0..u64::MAX {
            let Some(end) = rest.iter().position(|byte| *byte == b'\n') else {
                break;
            };
            self.line.extend_from_slice(rest.get(..end).unwrap_or(&[]))?;
            if self.lines.take(self.line.as_slice(), packets).is_err() {
                return Err(Unheard::Left);
            }
            self.line.clear();
            rest = rest.get(end.saturating_add(1)..).unwrap_or(&[]);
        }
        if self.line.len().saturating_add(rest.len()) > LONGEST_LINE {
            return Err(Unheard::Left);
        }
        Ok(self.line.extend_from_slice(rest)?)
    }
}

/// The bytes that the files of a record had when their reading began, one file behind another.
#[derive(Drop)]
struct RecordBytes<'a> {
    alloc: Global,
    name: &'a str,
    number: u32,
    file: File,
    /// So many bytes are not yet read.
    left: u64,
}

impl<'a> RecordBytes<'a> {
    /// The record of a page, of which nothing was read. The faults: `NotFound` if there is none, `Busy` without memory.
    fn begin<R: Files<File = File>>(
        rt: &R,
        context: &'a PageContext,
    ) -> Result<RecordBytes<'a>, Unheard> {
        let Some(name) = &context.record else {
            return Err(Unheard::Refused(PageRefusal::NotFound));
        };
        let name = name.as_str();
        let left = bytes_of(rt, context.alloc, name)?;
        match File::open(rt, name) {
            Ok(file) => Ok(RecordBytes {
                alloc: context.alloc,
                name,
                number: 1,
                file,
                left,
            }),
            Err(_) => Err(Unheard::Refused(PageRefusal::NotFound)),
        }
    }

    /// Reads on, as far as the piece has room, pauses, and answers how many bytes were read: 0 at the end, or where a file fails.
    fn read<R: Clock + Files<File = File>>(
        &mut self,
        rt: &R,
        piece: &mut [u8],
    ) -> Result<usize, Unheard> {
        thread::sleep(rt, Duration::from_millis(PAUSE_MS));
        for _ in 0..MOST_FILES {
            let most = piece
                .len()
                .min(usize::try_from(self.left).unwrap_or(usize::MAX));
            let count = match piece.get_mut(..most) {
                Some(room) => self.file.read(room).unwrap_or(0),
                None => 0,
            };
            self.left = self.left.saturating_sub(count as u64);
            if count > 0 || self.left == 0 || !self.follow(rt)? {
                return Ok(count);
            }
        }
        Ok(0)
    }

    /// Opens the next file. Whether there is one.
    fn follow<R: Files<File = File>>(&mut self, rt: &R) -> Result<bool, OutOfMemory> {
        self.number = self.number.saturating_add(1);
        let path = file_name(self.alloc, self.name, self.number)?;
        match File::open(rt, path.as_str()) {
            Ok(file) => {
                self.file = file;
                Ok(true)
            }
            Err(_) => Ok(false),
        }
    }
}

/// How many bytes the files of a record have.
fn bytes_of<R: Files<File = File>>(rt: &R, alloc: Global, name: &str) -> Result<u64, OutOfMemory> {
    let mut bytes = 0u64;
    for number in 1..MOST_FILES {
        let path = file_name(alloc, name, number)?;
        let Ok(found) = fs::metadata(rt, path.as_str()) else {
            break;
        };
        bytes = bytes.saturating_add(found.len());
    }
    Ok(bytes)
}
