//! What happens at a device of a story.

ghost use Rattle.std.specs.Prelude.{◌≡◌};
ghost use Rattle.cip_events.specs.Arrivals.{is_own};
ghost use Rattle.trace_words.specs.Reader.{Finds, Takes, meaning, refuses, unread_words};
ghost use Rattle.world_command.specs.Story.Acts.{act_meanings, act_of, act_reader, opens_reader, own_act_of};

use crate::story::names::{StoryName, device_at};
use cip_events::Event;
use std::alloc::Global;
use trace_text::read_event_line;
use trace_words::{TextFault, Words};

/// What happens at a device. Another device is given by its index among those of the story.
#[derive(Drop)]
pub enum StoryAct {
    /// It opens a stream to another device.
    Opens(usize),
    /// It takes the first item that waits in the direction away from the device that opened the stream of this number.
    Forth(u16),
    /// It takes the first item that waits in the other direction.
    Back(u16),
    /// It takes a datagram, given by its index among all that were ever sent.
    Takes(u32),
    /// The stream of this number breaks.
    Cuts(u16),
    /// It restarts with this incarnation.
    Restarts(u8),
    /// Its own application calls, time passes, or an inquiry comes over no stream.
    Own(Event),
}

/// The act of words, which are the text: one of the network, or else a line of a trace that is an event of the device's own.
///
/// The faults: `Bad` if they are no act, and `OutOfMemory`.
pub fn read_act(
    alloc: Global,
    names: &[StoryName],
    words: &mut Words<'_>,
    text: &[u8],
) -> Result<StoryAct, TextFault>
    ensures { Finds (act_of names.now (unread_words words.old) text.now) result }
{
    match read_network_act(names, words) {
        Ok(act) => Ok(act),
        Err(TextFault::Bad) => read_own_act(alloc, text),
        Err(TextFault::OutOfMemory) => Err(TextFault::OutOfMemory),
    }
}

/// The event of the device's own.
fn read_own_act(alloc: Global, text: &[u8]) -> Result<StoryAct, TextFault>
    ensures { Finds (own_act_of text.now) result }
{
    let event = read_event_line(alloc, text)?;
    if is_own(&event) {
        Ok(StoryAct::Own(event))
    } else {
        Err(TextFault::Bad)
    }
}

/// Whether a device's own application makes the event, time, or who inquires over no stream.
fn is_own(event: &Event) -> bool
    ensures { result ≡ is_own event.now }
{
    match event {
        Event::Request { .. } => false,
        Event::StreamOpened { .. } => false,
        Event::Frame { .. } => false,
        Event::StreamCut { .. } => false,
        Event::Datagram { .. } => false,
        _ => true,
    }
}

/// The act of the network.
fn read_network_act(names: &[StoryName], words: &mut Words<'_>) -> Result<StoryAct, TextFault>
    ensures { Takes (act_reader names.now (unread_words words.old)) result (unread_words words.new) }
{
    let word = words.word()?;
    read_behind(names, words, word)
}

/// What follows the word of an act.
fn read_behind(
    names: &[StoryName],
    words: &mut Words<'_>,
    word: &str,
) -> Result<StoryAct, TextFault>
    ensures { Takes (meaning (act_meanings names.now) refuses word.now (unread_words words.old)) result
        (unread_words words.new) }
{
    match word {
        "opens" => read_opens(names, words),
        "forth" => {
            let stream = words.u16()?;
            words.last(StoryAct::Forth(stream))
        }
        "back" => {
            let stream = words.u16()?;
            words.last(StoryAct::Back(stream))
        }
        "takes" => {
            let index = words.u32()?;
            words.last(StoryAct::Takes(index))
        }
        "cuts" => {
            let stream = words.u16()?;
            words.last(StoryAct::Cuts(stream))
        }
        "restarts" => {
            let incarnation = words.u8()?;
            words.last(StoryAct::Restarts(incarnation))
        }
        _ => Err(TextFault::Bad),
    }
}

/// What follows the word of an opening.
fn read_opens(names: &[StoryName], words: &mut Words<'_>) -> Result<StoryAct, TextFault>
    ensures { Takes (opens_reader names.now (unread_words words.old)) result (unread_words words.new) }
{
    let device = device_at(names, words.word()?).ok_or(TextFault::Bad)?;
    words.last(StoryAct::Opens(device))
}
