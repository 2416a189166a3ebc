//! A trace as a capture file, line by line.

ghost use Rattle.trace_files.specs.Pcap.Capturing.{TakesPiece};

use crate::pcap::capture::Capture;
use crate::pcap::wall_clock::recorded_from;
use crate::{Filling, TracePiece, TraceReader};
use cip_tables::Device;
use cip_types::OutOfMemory;
use std::alloc::Global;
use std::mem;
use trace_text::TraceFault;

/// The capture file of a trace that is read line by line. It has the memory of the device, of the profile's lines, of one entry
/// and of the streams that are open, however long the trace is.
#[derive(Drop)]
pub struct CaptureLines<D> {
    reader: TraceReader,
    filling: Filling<D>,
    packets: TracePackets,
}

impl<D: Device + Drop> CaptureLines<D> {
    /// A capture file of no lines. Takes no memory.
    pub fn new(alloc: Global) -> CaptureLines<D> {
        CaptureLines {
            reader: TraceReader::new(alloc),
            filling: Filling::new(alloc),
            packets: TracePackets {
                alloc,
                start_ms: None,
                capture: None,
            },
        }
    }

    /// Reads the next line, without its LF. Appends the packets of the event that is whole with it, and before the first event
    /// the header of the file. The faults: `BadLine`, and `OutOfMemory`.
    pub fn take(&mut self, line: &[u8], out: &mut Vec<u8>) -> Result<(), TraceFault> {
        if self.packets.start_ms.is_none() {
            self.packets.start_ms = Some(recorded_from(line).unwrap_or(0));
        }
        if let Some(piece) = self.reader.feed(line)? {
            let filled = self.filling.fill(piece)?;
            self.packets.push(filled, out)?;
        }
        Ok(())
    }

    /// Ends the trace with bytes that no LF ends, if there are any, and appends the packets of its last event. The faults are
    /// those of the trace, and `OutOfMemory`.
    pub fn end(&mut self, rest: &[u8], out: &mut Vec<u8>) -> Result<(), TraceFault> {
        let reader = mem::replace(&mut self.reader, TraceReader::new(self.packets.alloc));
        let last = reader.end(rest)?;
        let filled = self.filling.fill(last)?;
        self.packets.push(filled, out)?;
        Ok(())
    }
}

/// When a trace begins, if that is known, and its capture file from the configuration on.
#[derive(Drop)]
struct TracePackets {
    alloc: Global,
    start_ms: Option<u64>,
    capture: Option<Capture>,
}

impl TracePackets {
    /// Appends the packets of a piece of the trace; the header of the file, if it is the configuration.
    fn push(&mut self, piece: TracePiece, out: &mut Vec<u8>) -> Result<(), OutOfMemory>
        ensures { TakesPiece self.old piece out.old.items result self.new out.new.items }
    {
        match piece {
            TracePiece::Config(config) => {
                let start_ms = self.start_ms.unwrap_or(0);
                self.capture = Some(Capture::begin(self.alloc, &config, start_ms, out)?);
                Ok(())
            }
            TracePiece::Entry(entry) => match &mut self.capture {
                Some(capture) => capture.push(out, &entry.event, &entry.recorded),
                None => Ok(()),
            },
        }
    }
}
