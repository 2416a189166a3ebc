//! The streams of a record, each with the messages that ran over it.

use crate::stream_names::station_messages::is_of_station;
use cip_events::{Answer, Event, Recipient};
use cip_types::{Items, Node, OutOfMemory};
use std::alloc::Global;
use trace_text::{Recorded, Trace};

/// A message that a device took, and the place of its event.
#[derive(Drop)]
pub(crate) struct TakenFrame {
    pub event: usize,
    pub bytes: Items<u8>,
}

/// A stream of a device from its opening to its end: its number at the device, its peer, and the messages that the device
/// sent over it and took from it, without those that stations send beside their devices.
#[derive(Drop)]
pub(crate) struct StreamLife {
    pub stream: u16,
    pub peer: Node,
    pub sent: Vec<Items<u8>>,
    pub taken: Vec<TakenFrame>,
}

/// The streams of a record in the order in which they opened.
pub(crate) fn lives_of(alloc: Global, record: &Trace) -> Result<Vec<StreamLife>, OutOfMemory> {
    let mut lives = Vec::new(alloc);
    for (place, entry) in record.events.as_slice().iter().enumerate() {
        note_entry(alloc, &mut lives, place, entry)?;
    }
    Ok(lives)
}

/// Notes an entry of a record, if its event was answered.
fn note_entry(
    alloc: Global,
    lives: &mut Vec<StreamLife>,
    place: usize,
    entry: &(Event, Recorded),
) -> Result<(), OutOfMemory> {
    match entry.1.get() {
        Some(Ok(answer)) => {
            note_event(alloc, lives, place, &entry.0)?;
            note_answer(alloc, lives, answer)
        }
        _ => Ok(()),
    }
}

/// Notes a stream that opens, or a message that is taken.
fn note_event(
    alloc: Global,
    lives: &mut Vec<StreamLife>,
    place: usize,
    event: &Event,
) -> Result<(), OutOfMemory> {
    match event {
        Event::StreamOpened { stream, peer } => {
            lives.push(StreamLife {
                stream: *stream,
                peer: *peer,
                sent: Vec::new(alloc),
                taken: Vec::new(alloc),
            })?;
        }
        Event::Frame { stream, bytes } => {
            if !is_of_station(bytes.as_slice()) {
                note_taken(alloc, lives, *stream, place, bytes.as_slice())?;
            }
        }
        _ => {}
    }
    Ok(())
}

/// Notes a message that is taken from the stream of this number that opened last.
fn note_taken(
    alloc: Global,
    lives: &mut Vec<StreamLife>,
    stream: u16,
    place: usize,
    bytes: &[u8],
) -> Result<(), OutOfMemory> {
    let taken = TakenFrame {
        event: place,
        bytes: Items::copy_of(alloc, bytes)?,
    };
    if let Some(life) = last_of(lives, stream) {
        life.taken.push(taken)?;
    }
    Ok(())
}

/// Notes the messages that an answer sends.
fn note_answer(
    alloc: Global,
    lives: &mut Vec<StreamLife>,
    answer: &Answer,
) -> Result<(), OutOfMemory> {
    for frame in answer.frames.as_slice() {
        if let Recipient::Stream(stream) = frame.to {
            let sent = Items::copy_of(alloc, frame.bytes.as_slice())?;
            if let Some(life) = last_of(lives, stream) {
                life.sent.push(sent)?;
            }
        }
    }
    Ok(())
}

/// The stream of this number that opened last.
fn last_of(lives: &mut Vec<StreamLife>, stream: u16) -> Option<&mut StreamLife> {
    let mut place = None;
    for (at, life) in lives.iter().enumerate() {
        if life.stream == stream {
            place = Some(at);
        }
    }
    lives.get_mut(place?)
}
