//! The two ends of each stream: which stream of a scanner's record is which of an adapter's.

ghost use Rattle.std.specs.Prelude.{◌≡◌};
ghost use Rattle.segment_world.specs.Configs.{node_of_config};
ghost use Rattle.record_settling.specs.StreamNames.Addresses.{record_of};

use crate::stream_names::fault::{EventPlace, NamingFault};
use crate::stream_names::lives::{StreamLife, TakenFrame, lives_of};
use crate::stream_names::renaming::StreamName;
use cip_tables::Config;
use cip_types::fields::u32_at;
use cip_types::{Items, Node, OutOfMemory};
use std::alloc::Global;
use trace_text::Trace;

/// A stream of a record: the index of the record, and that of the stream among the record's.
#[derive(Clone, Copy, PartialEq, Eq)]
struct StreamPlace {
    record: usize,
    stream: usize,
}

/// The streams of one record, each with its other end, if that is found.
#[derive(Drop)]
struct RecordStreams {
    lives: Vec<StreamLife>,
    others: Vec<Option<StreamPlace>>,
    names: Vec<StreamName>,
}

/// The names of the streams of records, in the order in which they opened at each.
///
/// The faults, in order: `Unsent` of the first record that has such an event, the first of these; `Streams`. `OutOfMemory`
/// wherever an allocation is refused.
pub fn name_streams(
    alloc: Global,
    records: &[Trace],
) -> Result<Vec<Items<StreamName>>, NamingFault> {
    let mut all = Vec::new(alloc);
    for record in records {
        all.push(unmatched(alloc, lives_of(alloc, record)?)?)?;
    }
    for (place, record) in records.iter().enumerate() {
        if let Config::Scanner(_) = &record.config {
            match_streams(records, &mut all, place);
        }
    }
    check_taken(&all)?;
    number(&mut all)?;
    let mut names = Vec::new(alloc);
    for streams in all {
        let RecordStreams {
            lives: _,
            others: _,
            names: mine,
        } = streams;
        names.push(Items::from_vec(mine))?;
    }
    Ok(names)
}

/// Streams whose other ends are not known.
fn unmatched(alloc: Global, lives: Vec<StreamLife>) -> Result<RecordStreams, OutOfMemory> {
    let mut others = Vec::new(alloc);
    let mut names = Vec::new(alloc);
    for life in &lives {
        others.push(None)?;
        names.push(StreamName {
            own: life.stream,
            target: life.stream,
            number: 0,
        })?;
    }
    Ok(RecordStreams {
        lives,
        others,
        names,
    })
}

// ADDRESSES

/// The address of a record's device.
pub fn node_of(trace: &Trace) -> Node
    ensures { result ≡ node_of_config trace.now.config }
{
    segment_world::node_of(&trace.config)
}

/// The record of an address.
pub fn record_of(records: &[Trace], node: Node) -> Option<usize>
    ensures { result ≡ record_of records.now node }
{
    records.iter().position(|trace| node_of(trace).0 == node.0)
}

// THE OTHER END

/// Finds the other end of each stream of a scanner.
fn match_streams(records: &[Trace], all: &mut Vec<RecordStreams>, scanner: usize) {
    let count = match all.get(scanner) {
        Some(streams) => streams.lives.len(),
        None => 0,
    };
    for stream in 0..count {
        let near = StreamPlace {
            record: scanner,
            stream,
        };
        if let Some(far) = other_end(records, all, near) {
            join(all, near, far);
        }
    }
}

/// The other end of a stream of a scanner: the next stream of its target's record, from this scanner, that can be it.
fn other_end(records: &[Trace], all: &[RecordStreams], near: StreamPlace) -> Option<StreamPlace> {
    let node = node_of(records.get(near.record)?);
    let life = all.get(near.record)?.lives.get(near.stream)?;
    let target = record_of(records, life.peer)?;
    let streams = all.get(target)?;
    for stream in next_free(streams, near.record)..streams.lives.len() {
        if is_other_end(life, streams.lives.get(stream)?, node) {
            return Some(StreamPlace {
                record: target,
                stream,
            });
        }
    }
    None
}

/// The first stream behind all whose other ends are of this record.
fn next_free(streams: &RecordStreams, record: usize) -> usize {
    let mut next = 0;
    for (place, other) in streams.others.iter().enumerate() {
        if let Some(other) = other {
            if other.record == record {
                next = place.saturating_add(1);
            }
        }
    }
    next
}

/// Whether a stream of an adapter can be the other end of a scanner's: it is of this scanner, its session has the handle
/// that was registered over it, and, where none was, it took no more messages than were sent.
fn is_other_end(near: &StreamLife, far: &StreamLife, scanner: Node) -> bool {
    if far.peer != scanner {
        return false;
    }
    match handle_of(near) {
        Some(handle) => handle == u32::from(far.stream) + 1,
        None => far.taken.len() <= near.sent.len(),
    }
}

/// The session handle that a scanner's stream got, which the first message over it has.
fn handle_of(life: &StreamLife) -> Option<u32> {
    let first = life.taken.as_slice().first()?;
    let (_command, rest) = u32_at(first.bytes.as_slice())?;
    let (handle, _) = u32_at(rest)?;
    if handle == 0 { None } else { Some(handle) }
}

/// Notes that two streams are one.
fn join(all: &mut Vec<RecordStreams>, near: StreamPlace, far: StreamPlace) {
    set_other(all, near, far);
    set_other(all, far, near);
    let target = match all.get(far.record) {
        Some(streams) => match streams.lives.get(far.stream) {
            Some(life) => life.stream,
            None => return,
        },
        None => return,
    };
    if let Some(streams) = all.get_mut(near.record) {
        if let Some(name) = streams.names.get_mut(near.stream) {
            name.target = target;
        }
    }
}

fn set_other(all: &mut Vec<RecordStreams>, at: StreamPlace, other: StreamPlace) {
    if let Some(streams) = all.get_mut(at.record) {
        if let Some(place) = streams.others.get_mut(at.stream) {
            *place = Some(other);
        }
    }
}

// MESSAGES

/// Fails with the first event of the first record that takes a message that was not sent in its place.
fn check_taken(all: &[RecordStreams]) -> Result<(), NamingFault> {
    for (record, streams) in all.iter().enumerate() {
        let mut first: Option<usize> = None;
        for (stream, life) in streams.lives.iter().enumerate() {
            let event = first_unsent(life.taken.as_slice(), sent_over(all, streams, stream));
            first = earlier(first, event);
        }
        if let Some(event) = first {
            return Err(NamingFault::Unsent(EventPlace { record, event }));
        }
    }
    Ok(())
}

/// What the other end of a stream sent over it: nothing, where that is not known.
fn sent_over<'a>(
    all: &'a [RecordStreams],
    streams: &RecordStreams,
    stream: usize,
) -> &'a [Items<u8>] {
    let Some(Some(other)) = streams.others.get(stream) else {
        return &[];
    };
    match all.get(other.record) {
        Some(far) => match far.lives.get(other.stream) {
            Some(life) => life.sent.as_slice(),
            None => &[],
        },
        None => &[],
    }
}

/// The event of the first message that was not sent in its place.
fn first_unsent(taken: &[TakenFrame], sent: &[Items<u8>]) -> Option<usize> {
    for (place, frame) in taken.iter().enumerate() {
        match sent.get(place) {
            Some(bytes) if bytes.as_slice() == frame.bytes.as_slice() => {}
            _ => return Some(frame.event),
        }
    }
    None
}

/// The earlier of two events.
fn earlier(one: Option<usize>, other: Option<usize>) -> Option<usize> {
    match (one, other) {
        (Some(one), Some(other)) => Some(one.min(other)),
        (Some(one), None) => Some(one),
        (None, other) => other,
    }
}

// NUMBERS

/// Gives each stream its number, the same at both ends.
fn number(all: &mut Vec<RecordStreams>) -> Result<(), NamingFault> {
    let mut next: u32 = 0;
    for record in 0..all.len() {
        let count = match all.get(record) {
            Some(streams) => streams.lives.len(),
            None => 0,
        };
        for stream in 0..count {
            number_at(all, StreamPlace { record, stream }, &mut next)?;
        }
    }
    Ok(())
}

/// Gives a stream a number, and its other end, which is of a later record. One whose other end is of an earlier record
/// has its number already.
fn number_at(
    all: &mut Vec<RecordStreams>,
    at: StreamPlace,
    next: &mut u32,
) -> Result<(), NamingFault> {
    let other = match all.get(at.record) {
        Some(streams) => match streams.others.get(at.stream) {
            Some(other) => *other,
            None => None,
        },
        None => None,
    };
    match other {
        Some(far) if far.record < at.record => return Ok(()),
        _ => {}
    }
    let Ok(number) = u16::try_from(*next) else {
        return Err(NamingFault::Streams);
    };
    *next = next.saturating_add(1);
    set_number(all, at, number);
    if let Some(far) = other {
        set_number(all, far, number);
    }
    Ok(())
}

fn set_number(all: &mut Vec<RecordStreams>, at: StreamPlace, number: u16) {
    if let Some(streams) = all.get_mut(at.record) {
        if let Some(name) = streams.names.get_mut(at.stream) {
            name.number = number;
        }
    }
}
