//! A capture file that is written event by event.

ghost use Rattle.std.specs.Prelude.{◌≡◌, ◌++◌, IfOk, OnOk};
ghost use Rattle.trace_files.specs.Pcap.Packets.{file_header};
ghost use Rattle.trace_files.specs.Pcap.Traffic.{event_records, event_streams, replies_records, answer_records, answer_streams};
ghost use Rattle.trace_files.specs.Pcap.Written.{begun, captured_with, entry_records, entry_streams, number_after, piece_of, view_capture};

use crate::pcap::ends::{CapturedStream, Side, side_of};
use crate::pcap::packets::push_file_header;
use crate::pcap::traffic::{EventContext, push_answer, push_event, push_replies};
use cip_events::{Answer, Event};
use cip_tables::Config;
use cip_types::OutOfMemory;
use std::alloc::Global;
use trace_text::{Recorded, time_after};

/// A capture file with the packets of a trace, between two of its events: a classic pcap file of raw IPv4 packets, in the order
/// of the trace. It has the memory of the streams that are open, however long the trace is.
///
/// The clock begins at the given milliseconds since 1970 (0 if the time is not known), and each `tick` moves it on. A stream
/// is a TCP connection with the end that does not open it at port 44818, a datagram a UDP datagram from port 2222 to port
/// 2222, an inquiry a UDP datagram to port 44818 from a dynamic port, to which its reply goes. What is answered is shown
/// where the outcome is recorded. An event with a recorded fault shows nothing, and a request without a stream shows nothing.
///
/// RFC 791, 768 and 9293 for IPv4, UDP and TCP.
#[derive(Drop)]
pub struct Capture {
    side: Side,
    time: u64,
    number: u64,
    streams: Vec<CapturedStream>,
}

impl Capture {
    /// Appends what the capture file of a trace with this configuration begins with. OutOfMemory is the only fault.
    pub fn begin(
        alloc: Global,
        config: &Config,
        start_ms: u64,
        out: &mut Vec<u8>,
    ) -> Result<Capture, OutOfMemory>
        ensures written { OnOk result (out.new.items ≡ out.old.items ++ file_header) }
        ensures begun { IfOk result (λ capture. view_capture capture ≡ begun start_ms config.now) }
    {
        push_file_header(out)?;
        Ok(Capture {
            side: side_of(config),
            time: start_ms,
            number: 0,
            streams: Vec::new(alloc),
        })
    }

    /// Appends the packets of the next event, and of its outcome if that is recorded. OutOfMemory is the only fault: behind it
    /// the capture file is of no use.
    pub fn push(
        &mut self,
        out: &mut Vec<u8>,
        event: &Event,
        recorded: &Recorded,
    ) -> Result<(), OutOfMemory>
        ensures written { OnOk result
            (out.new.items ≡ out.old.items ++ piece_of (view_capture self.old) (event.now, recorded.now)) }
        ensures next { OnOk result
            (view_capture self.new ≡ captured_with (view_capture self.old) (event.now, recorded.now)) }
    {
        let (side, number) = (self.side, self.number);
        let time = time_after(self.time, event, recorded);
        let context = EventContext { side, time, number };
        push_entry(out, &mut self.streams, context, event, recorded)?;
        self.time = time;
        self.number = number_after(number);
        Ok(())
    }
}

/// The number of the event behind the one of this number, modulo 2^64.
fn number_after(number: u64) -> u64
    ensures { result ≡ number_after number }
{
    number.wrapping_add(1)
}

/// Appends the packets of an event and of its recorded answer.
fn push_entry(
    out: &mut Vec<u8>,
    streams: &mut Vec<CapturedStream>,
    context: EventContext,
    event: &Event,
    recorded: &Recorded,
) -> Result<(), OutOfMemory>
    ensures records { OnOk result
        (out.new.items ≡ out.old.items ++ entry_records context event.now recorded.now streams.old.items) }
    ensures streams { OnOk result (streams.new.items ≡ entry_streams context event.now recorded.now streams.old.items) }
{
    match recorded.get() {
        None => push_event(out, streams, context, event),
        Some(Ok(answer)) => push_answered(out, streams, context, event, answer),
        Some(Err(_)) => Ok(()),
    }
}

/// Appends the packets of an event and of its answer.
fn push_answered(
    out: &mut Vec<u8>,
    streams: &mut Vec<CapturedStream>,
    context: EventContext,
    event: &Event,
    answer: &Answer,
) -> Result<(), OutOfMemory>
    ensures records { OnOk result
        (out.new.items ≡ out.old.items
        ++ (event_records context event.now streams.old.items
        ++ (replies_records context event.now answer.now.frames
        ++ answer_records context answer.now (event_streams context event.now streams.old.items)))) }
    ensures streams { OnOk result
        (streams.new.items ≡ answer_streams answer.now (event_streams context event.now streams.old.items)) }
{
    push_event(out, streams, context, event)?;
    push_replies(out, context, event, answer.frames.as_slice())?;
    push_answer(out, streams, context, answer)
}
