//! A recorder, which writes the events of a device and their outcomes.

ghost use Rattle.std.specs.Prelude.{◌≡◌, ◌≢◌, ◌<◌, ◌≤◌, ◌-◌, ◌++◌, [], None, Err, IfOk, OnOk, IsSome, length, string_bytes};
ghost use Rattle.std.specs.Io.KnownBytes.{Appends};
ghost use Rattle.station_record.specs.Records.{IsNoted, IsRecordedAs, Notes, Records, entry_text, left_after, said_end};
ghost use Rattle.trace_text.specs.Written.{config_lines};

use crate::fault::RecordFault;
use crate::shortened::{push_recorded_event, repeats};
use crate::sink::RecordSink;
use crate::summed::push_recorded_outcome;
use cip_tables::{Config, Event, Outcome};
use cip_types::OutOfMemory;
use std::alloc::Global;
use trace_outcomes::is_out_of_memory;
use trace_text::push_config;

/// Counts the events of a device, and writes each with its outcome behind those before.
///
/// The bytes that are written are a head and the text of a record at all times: the lines of the profile, then for each
/// event its line and the lines of its outcome, or the line of its sum. Each event is handed to the sink in one piece, so that
/// a station that is killed leaves whole events. A record has at most so many bytes as are given. It ends where an event has no
/// room in them, the sink refuses a text or no memory is left for one, and for no other cause, which it says from then on. A
/// record that has ended is closed, and never begins again; the count goes on.
///
/// A datagram that no connection can take has the verdict `unknown` or `malformed`. It is recorded without its data, or
/// without any bytes if it is malformed: the line then has at most 66 bytes. Of a tick at which datagrams and no frames are
/// sent the sum is recorded in place of the outcome.
#[derive(Drop)]
pub struct Recorder<W> {
    alloc: Global,
    out: Option<W>,
    ended: Option<RecordFault>,
    count: u64,
    /// So many bytes may follow.
    left: u64,
    text: String,
    lines: String,
}

impl<W: RecordSink + Drop> Recorder<W> {
    /// Records nothing, and counts from 1. Takes no memory.
    pub fn idle(alloc: Global) -> Recorder<W>
        ensures closed { result.out ≡ None }
        ensures count { result.count ≡ 0 }
        ensures unended { result.ended ≡ None }
    {
        Recorder {
            alloc,
            out: None,
            ended: None,
            count: 0,
            left: 0,
            text: String::new(alloc),
            lines: String::new(alloc),
        }
    }

    /// Begins a record with a head and the lines of a profile. The head has lines that begin with `#`, each with its LF. The
    /// record has at most so many bytes.
    ///
    /// The faults: `Full` if this text has more, `Refused` if the sink refuses it, and `OutOfMemory`.
    pub fn begin(
        alloc: Global,
        config: &Config,
        head: &str,
        most: u64,
        out: W,
    ) -> Result<Recorder<W>, RecordFault>
        ensures begun { IfOk result
            (λ recorder. W.contents out ≡ Some [] → Records W.contents recorder head.now config.now []) }
        ensures opened { IfOk result (λ recorder. IsSome recorder.out) }
        ensures unended { IfOk result (λ recorder. recorder.ended ≡ None) }
        ensures refused { W.accepts out (head.now ++ config_lines config.now) → result ≢ Err RecordFault.Refused }
        ensures full { result ≡ Err RecordFault.Full → most < length (head.now ++ config_lines config.now) }
        ensures fits { OnOk result (length (head.now ++ config_lines config.now) ≤ most) }
        ensures room { IfOk result (λ recorder. recorder.left ≡ most - length (head.now ++ config_lines config.now)) }
    {
        let mut out = out;
        let mut text = String::new(alloc);
        text.push_str(head)?;
        push_config(&mut text, config)?;
        let left = hand_over(&mut out, &text, most)?;
        Ok(Recorder {
            alloc,
            out: Some(out),
            ended: None,
            count: 0,
            left,
            text,
            lines: String::new(alloc),
        })
    }

    /// The number of events that were noted.
    pub fn count(&self) -> u64
        ensures { result ≡ self.now.count }
    {
        self.count
    }

    /// Why the record has ended, if it has.
    pub fn ended(&self) -> Option<RecordFault>
        ensures { result ≡ self.now.ended }
    {
        self.ended
    }

    /// Notes an event with its outcome, and answers why the record ended with it, if it did. An event for which the device
    /// had no memory changed nothing: it is not counted, and not recorded.
    #[tactic(auto, using(crate::proofs::Growing::notes_nothing, crate::proofs::Growing::says_nothing, crate::proofs::Growing::is_noted_nothing))]
    pub fn note(&mut self, event: &Event, outcome: &Outcome) -> Option<RecordFault>
        ensures noted { Notes W.contents self.old event.now outcome.now self.new }
        ensures ended { IsNoted W.contents W.accepts self.old event.now outcome.now self.new result }
    {
        // (a law: the event as it is recorded has the same outcome)
        repeats(event);
        if is_out_of_memory(outcome) {
            return None;
        }
        self.count = self.count.saturating_add(1);
        self.record(event, outcome)
    }

    /// Records an event with its outcome under the number of the last one, if the record is open. Answers why the record
    /// ended.
    fn record(&mut self, event: &Event, outcome: &Outcome) -> Option<RecordFault>
        ensures recorded { IsRecordedAs W.contents W.accepts self.old.left self.old.out self.new.out
            (entry_text self.old.count event.now outcome.now) result }
        ensures room { self.new.left ≡ left_after self.new.out self.old.left
            (entry_text self.old.count event.now outcome.now) }
        ensures said { self.new.ended ≡ said_end self.old.ended result }
        ensures counted { self.new.count ≡ self.old.count }
    {
        let Some(mut out) = self.out.take() else {
            return None;
        };
        let (count, left) = (self.count, self.left);
        let (text, lines) = (&mut self.text, &mut self.lines);
        match append(
            self.alloc, text, lines, &mut out, count, left, event, outcome,
        ) {
            Ok(left) => {
                self.out = Some(out);
                self.left = left;
                None
            }
            Err(fault) => {
                self.ended = Some(fault);
                self.ended
            }
        }
    }
}

/// Hands an event of this number with its outcome to a sink, in one text that may have so many bytes. Answers how many bytes are
/// left.
///
/// The faults: `Full` if the text has more, `Refused` if the sink does not take all of it, and `OutOfMemory`.
fn append<W: RecordSink>(
    alloc: Global,
    text: &mut String,
    lines: &mut String,
    out: &mut W,
    number: u64,
    left: u64,
    event: &Event,
    outcome: &Outcome,
) -> Result<u64, RecordFault>
    ensures appends { OnOk result
        (Appends (W.contents out.old) (W.contents out.new) (entry_text number event.now outcome.now)) }
    ensures refused { W.accepts out.old (entry_text number event.now outcome.now) → result ≢ Err RecordFault.Refused }
    ensures full { result ≡ Err RecordFault.Full → left < length (entry_text number event.now outcome.now) }
    ensures fits { OnOk result (length (entry_text number event.now outcome.now) ≤ left) }
    ensures room { IfOk result (λ rest. rest ≡ left - length (entry_text number event.now outcome.now)) }
{
    text.clear();
    push_entry(alloc, text, lines, number, event, outcome)?;
    hand_over(out, text, left)
}

/// Appends an event of this number with its outcome.
fn push_entry(
    alloc: Global,
    text: &mut String,
    lines: &mut String,
    number: u64,
    event: &Event,
    outcome: &Outcome,
) -> Result<(), OutOfMemory>
    ensures { OnOk result (string_bytes text.new ≡ string_bytes text.old ++ entry_text number event.now outcome.now) }
{
    push_recorded_event(alloc, text, event, outcome)?;
    push_recorded_outcome(lines, text, number, event, outcome)
}

/// Hands a text to a sink, which may have so many bytes. Answers how many are left.
///
/// The faults: `Full`, if the text has more; `Refused`, if the sink does not take all of it.
fn hand_over<W: RecordSink>(out: &mut W, text: &String, left: u64) -> Result<u64, RecordFault>
    ensures appends { OnOk result (Appends (W.contents out.old) (W.contents out.new) (string_bytes text.now)) }
    ensures refused { W.accepts out.old (string_bytes text.now) → result ≢ Err RecordFault.Refused }
    ensures full { result ≡ Err RecordFault.Full → left < length (string_bytes text.now) }
    ensures fits { OnOk result (length (string_bytes text.now) ≤ left) }
    ensures room { IfOk result (λ rest. rest ≡ left - length (string_bytes text.now)) }
{
    let len = text.len() as u64;
    if len > left {
        return Err(RecordFault::Full);
    }
    if out.take_text(text.as_bytes()) {
        Ok(left - len)
    } else {
        Err(RecordFault::Refused)
    }
}
