//! Files as a capture file, which is written piece by piece.

use crate::fault::TracesFault;
use crate::handing::{LineTaker, hand_out};
use fast_device::FastDevice;
use std::alloc::Global;
use std::fs::File;
use std::io::Write;
use std::mem;
use std::rt::Files;
use trace_files::{CaptureLines, Filling, TraceReader};
use trace_stepper::write_text;

/// The packets are written once they have so many bytes.
const PIECE: usize = 65_536;

/// Writes the capture file of the files' trace. Its first packet has the time of the record, if the first line has it. Where the
/// record has the sum of an outcome, the outcome is that of a fresh device. The files are read twice, so that nothing is written
/// if they are no trace, or if a sum is another one. It takes the memory of the device, of the profile's lines, of one entry and of
/// one piece.
pub fn pcap<R, O>(rt: &R, files: &[String], out: O) -> Result<(), TracesFault>
where
    R: AllocGlobal + Files<File = File>,
    O: Write + Drop,
{
    check(rt, files)?;
    let mut written = WrittenCapture {
        lines: CaptureLines::new(rt.alloc()),
        packets: Vec::new(rt.alloc()),
        out,
    };
    let rest = hand_out(rt, files, &mut written)?;
    written.end(rest.as_slice())
}

/// Reads the files for the faults of their lines, and for sums that are not those of a device's outcomes.
fn check<R>(rt: &R, files: &[String]) -> Result<(), TracesFault>
where
    R: AllocGlobal + Files<File = File>,
{
    let mut search = SumSearch {
        alloc: rt.alloc(),
        reader: TraceReader::new(rt.alloc()),
        filling: Filling::new(rt.alloc()),
    };
    let rest = hand_out(rt, files, &mut search)?;
    search.end(rest.as_slice())
}

/// Reads lines for their faults and their sums.
#[derive(Drop)]
struct SumSearch {
    alloc: Global,
    reader: TraceReader,
    filling: Filling<FastDevice>,
}

impl SumSearch {
    /// Ends the lines with bytes that no LF ends, if there are any.
    fn end(&mut self, rest: &[u8]) -> Result<(), TracesFault> {
        let reader = mem::replace(&mut self.reader, TraceReader::new(self.alloc));
        self.filling.fill(reader.end(rest)?)?;
        match self.filling.differs() {
            Some(_) => Err(TracesFault::Differs),
            None => Ok(()),
        }
    }
}

impl LineTaker for SumSearch {
    fn take_line(&mut self, line: &[u8]) -> Result<(), TracesFault> {
        if let Some(piece) = self.reader.feed(line)? {
            self.filling.fill(piece)?;
        }
        Ok(())
    }
}

/// The lines of a trace, and the packets of them that are not yet written.
#[derive(Drop)]
struct WrittenCapture<O: Write + Drop> {
    lines: CaptureLines<FastDevice>,
    packets: Vec<u8>,
    out: O,
}

impl<O: Write + Drop> WrittenCapture<O> {
    /// Ends the lines with bytes that no LF ends, and writes what is left.
    fn end(&mut self, rest: &[u8]) -> Result<(), TracesFault> {
        self.lines.end(rest, &mut self.packets)?;
        write_text(&mut self.out, self.packets.as_slice())?;
        match self.out.flush() {
            Ok(()) => Ok(()),
            Err(_) => Err(TracesFault::Write),
        }
    }
}

impl<O: Write + Drop> LineTaker for WrittenCapture<O> {
    fn take_line(&mut self, line: &[u8]) -> Result<(), TracesFault> {
        self.lines.take(line, &mut self.packets)?;
        if self.packets.len() >= PIECE {
            write_text(&mut self.out, self.packets.as_slice())?;
            self.packets.clear();
        }
        Ok(())
    }
}
