//! The last events of a device in words, and apart from them the last troubles.

use crate::facts::StationFacts;
use crate::troubles::{is_opening, is_trouble_notice};
use cip_events::{Answer, Event, Outcome};
use cip_tables::Config;
use cip_types::OutOfMemory;
use serde_json::Value;
use std::alloc::Global;
use std::collections::VecDeque;
use std::str;
use trace_explain::{explain_event, push_notice};
use trace_words::{Names, push_text};

/// So many events are shown at most.
const MOST_EVENTS: usize = 32;

/// An event in words, as JSON.
#[derive(Drop)]
struct EventText {
    text: String,
}

/// A trouble in words, as JSON: when it came last and first, and how often.
#[derive(Drop)]
struct Trouble {
    words: String,
    number: u64,
    ms: u64,
    first_ms: u64,
    count: u64,
}

/// The last events in words, and the last troubles, which no other event pushes out. The oldest are first. A trouble that comes again
/// is one with a count.
#[derive(Drop)]
pub struct LastEvents {
    alloc: Global,
    events: VecDeque<EventText>,
    troubles: Vec<Trouble>,
}

impl LastEvents {
    /// No event. Takes no memory.
    pub fn none(alloc: Global) -> LastEvents {
        LastEvents {
            alloc,
            events: VecDeque::new(alloc),
            troubles: Vec::new(alloc),
        }
    }

    /// Notes an event, if it is shown, and each trouble of it. The fault: an allocation was refused, and not all is noted.
    pub fn note(
        &mut self,
        config: &Config,
        names: &Names,
        facts: StationFacts,
        event: &Event,
        outcome: &Outcome,
    ) -> Result<(), OutOfMemory> {
        if !is_shown(event, outcome) {
            return Ok(());
        }
        if let Ok(answer) = outcome {
            self.note_troubles(names, facts, event, answer)?;
        }
        let text = event_text(self.alloc, config, names, facts, event, outcome)?;
        keep(&mut self.events, text)
    }

    /// Notes each trouble of an answer.
    fn note_troubles(
        &mut self,
        names: &Names,
        facts: StationFacts,
        event: &Event,
        answer: &Answer,
    ) -> Result<(), OutOfMemory> {
        for notice in answer.notices.as_slice() {
            if is_trouble_notice(notice) {
                let mut words = String::new(self.alloc);
                push_notice(&mut words, names, event, answer, *notice)?;
                self.keep_trouble(facts, words)?;
            }
        }
        Ok(())
    }

    /// Notes what a station reports of its streams and of itself: it is among the troubles, but for a stream that opens.
    pub fn note_report(&mut self, facts: StationFacts, text: &[u8]) -> Result<(), OutOfMemory> {
        let Ok(text) = str::from_utf8(text) else {
            return Ok(());
        };
        if is_opening(text) {
            return Ok(());
        }
        let words = format!(in self.alloc; "{text}")?;
        self.keep_trouble(facts, words)
    }

    /// Keeps a trouble behind the others. One of the same words, which came before, or else the oldest one of too many gives way.
    fn keep_trouble(&mut self, facts: StationFacts, words: String) -> Result<(), OutOfMemory> {
        let words = Value::String(words).to_string(self.alloc)?;
        self.troubles.reserve(1)?;
        let (count, first_ms) = self.take_earlier(words.as_str(), facts.ms);
        if self.troubles.len() >= MOST_EVENTS {
            let _ = self.troubles.remove(0);
        }
        self.troubles.push(Trouble {
            words,
            number: facts.number,
            ms: facts.ms,
            first_ms,
            count: count.saturating_add(1),
        })?;
        Ok(())
    }

    /// Takes out the trouble of these words, if there is one: how often it came, and when first.
    fn take_earlier(&mut self, words: &str, now_ms: u64) -> (u64, u64) {
        let same = |trouble: &Trouble| trouble.words.as_str() == words;
        match self.troubles.iter().position(same) {
            Some(place) => {
                let earlier = self.troubles.remove(place);
                (earlier.count, earlier.first_ms)
            }
            None => (0, now_ms),
        }
    }

    /// Appends the events, and the troubles.
    pub fn push(&self, out: &mut String) -> Result<(), OutOfMemory> {
        push_text(out, ",\"events\":[")?;
        push_all(out, &self.events)?;
        push_text(out, "],\"troubles\":[")?;
        push_troubles(out, self.troubles.as_slice())?;
        push_text(out, "]")
    }
}

/// Keeps an event, and so many before it.
fn keep(events: &mut VecDeque<EventText>, text: EventText) -> Result<(), OutOfMemory> {
    if events.len() >= MOST_EVENTS {
        let _ = events.pop_front();
    }
    events.push_back(text)?;
    Ok(())
}

/// Appends events.
fn push_all(out: &mut String, events: &VecDeque<EventText>) -> Result<(), OutOfMemory> {
    for (place, event) in events.iter().enumerate() {
        if place > 0 {
            push_text(out, ",")?;
        }
        push_text(out, event.text.as_str())?;
    }
    Ok(())
}

/// Appends troubles.
fn push_troubles(out: &mut String, troubles: &[Trouble]) -> Result<(), OutOfMemory> {
    for (place, trouble) in troubles.iter().enumerate() {
        if place > 0 {
            push_text(out, ",")?;
        }
        let (number, ms) = (trouble.number, trouble.ms);
        let (first, count, words) = (trouble.first_ms, trouble.count, trouble.words.as_str());
        write!(
            out,
            "{{\"number\":{number},\"ms\":{ms},\"first_ms\":{first},\"count\":{count},\"words\":{words}}}"
        )?;
    }
    Ok(())
}

/// Whether an event is shown: not a datagram or an inquiry, and not time that passes, but for one with a notice.
fn is_shown(event: &Event, outcome: &Outcome) -> bool {
    match event {
        Event::Datagram { .. } | Event::Inquiry { .. } | Event::Tick { .. } => {
            has_notice(outcome)
        }
        _ => true,
    }
}

/// Whether an event changes who owns an output, the state of a connection or of a slot, or a scanner's mode. The mode of an owner is
/// not among these: its data bring it.
pub(crate) fn changes_state(event: &Event, outcome: &Outcome) -> bool {
    match event {
        Event::Mode { .. } => true,
        _ => has_notice(outcome),
    }
}

/// Whether a device notes something at an event.
fn has_notice(outcome: &Outcome) -> bool {
    match outcome {
        Ok(answer) => !answer.notices.as_slice().is_empty(),
        Err(_) => false,
    }
}

/// An event in words.
fn event_text(
    alloc: Global,
    config: &Config,
    names: &Names,
    facts: StationFacts,
    event: &Event,
    outcome: &Outcome,
) -> Result<EventText, OutOfMemory> {
    let words = Value::String(explain_event(alloc, config, names, event, outcome)?).to_string(
        alloc,
    )?;
    let (number, ms) = (facts.number, facts.ms);
    let words = words.as_str();
    let text = format!(in alloc; "{{\"number\":{number},\"ms\":{ms},\"words\":{words}}}")?;
    Ok(EventText { text })
}
