//! What a station tells its page.

use crate::facts::StationFacts;
use crate::last_events::{LastEvents, changes_state};
use crate::names::names_text;
use crate::pauses::{owner_code, pause_between, rest_until};
use crate::place::FeedEnd;
use crate::snapshots::push_device;
use cip_events::{Event, Outcome};
use cip_tables::{Config, Device};
use cip_types::OutOfMemory;
use cip_types::limits::MOST_POINTS;
use station_lines::CountedConnection;
use std::alloc::Global;
use trace_words::{Names, push_text};

/// Makes snapshots of a device for its page, and notes its events. It never waits, and what has no memory is left out.
#[derive(Drop)]
pub struct PageFeed {
    config: Config,
    names: Names,
    /// The names as the page gets them, until it has them.
    unoffered: Option<String>,
    end: FeedEnd,
    events: LastEvents,
    text: String,
    /// The moment of the last snapshot.
    shown_number: u64,
    shown_ms: u64,
    /// Whether an owner, a mode or a state has changed since then.
    has_changed: bool,
    /// Who owns each output (`owner_code`).
    owners: [u8; MOST_POINTS],
}

impl PageFeed {
    /// Has noted nothing of a device of this configuration, whose points have these names. OutOfMemory is the only fault.
    pub fn new(
        alloc: Global,
        config: Config,
        names: Names,
        end: FeedEnd,
    ) -> Result<PageFeed, OutOfMemory> {
        let unoffered = Some(names_text(alloc, &names)?);
        Ok(PageFeed {
            config,
            names,
            unoffered,
            end,
            events: LastEvents::none(alloc),
            text: String::new(alloc),
            shown_number: 0,
            shown_ms: 0,
            has_changed: true,
            owners: [0; MOST_POINTS],
        })
    }

    /// Notes an event that a device has taken.
    pub fn note(&mut self, facts: StationFacts, event: &Event, outcome: &Outcome) {
        self.has_changed |= changes_state(event, outcome);
        // (an event for which there is no memory is left out)
        let _ = self
            .events
            .note(&self.config, &self.names, facts, event, outcome);
    }

    /// Notes what the station reports of its streams and of itself.
    pub fn note_report(&mut self, facts: StationFacts, text: &[u8]) {
        // (a report for which there is no memory is left out)
        let _ = self.events.note_report(facts, text);
    }

    /// Hands a snapshot of the device to the page, if a browser looks and one is due. The connections or slots are those of the
    /// device, with what was counted of their datagrams, in their order.
    pub fn show<D: Device>(
        &mut self,
        device: &D,
        facts: StationFacts,
        connections: &[CountedConnection],
    ) {
        if !self.end.is_watched() {
            return;
        }
        self.note_owners(device);
        if self.passed_ms(facts) < self.pause_ms(facts) {
            return;
        }
        if !self.offer_names() {
            return;
        }
        // (a snapshot for which there is no memory is left out)
        if self.write(device, facts, connections).is_ok() && self.end.offer(&mut self.text) {
            self.shown_number = facts.number;
            self.shown_ms = facts.ms;
            self.has_changed = false;
        }
    }

    /// Hands the names to the page, once. Whether it has them.
    fn offer_names(&mut self) -> bool {
        let Some(text) = &mut self.unoffered else {
            return true;
        };
        if !self.end.offer_names(text) {
            return false;
        }
        self.unoffered = None;
        true
    }

    /// How long a turn may wait, in milliseconds, so that a browser that looks at the page gets the next snapshot in time.
    pub fn wait_ms(&self, facts: StationFacts, most_ms: u64) -> u64 {
        if self.end.is_watched() {
            most_ms.min(rest_until(self.pause_ms(facts), self.passed_ms(facts)))
        } else {
            most_ms
        }
    }

    /// The milliseconds from the last snapshot to the next.
    fn pause_ms(&self, facts: StationFacts) -> u64 {
        pause_between(self.has_changed, facts.number != self.shown_number)
    }

    /// The milliseconds since the last snapshot.
    fn passed_ms(&self, facts: StationFacts) -> u64 {
        facts.ms.saturating_sub(self.shown_ms)
    }

    /// Notes whether an owner's mode has changed.
    fn note_owners<D: Device>(&mut self, device: &D) {
        let Config::Adapter(profile) = &self.config else {
            return;
        };
        for place in 0..MOST_POINTS {
            let Some(output) = profile.outputs.as_slice().get(place) else {
                return;
            };
            let now = owner_code(device.owner(output.instance));
            if let Some(code) = self.owners.get_mut(place) {
                self.has_changed |= now != *code;
                *code = now;
            }
        }
    }

    /// Writes the snapshot of a device.
    fn write<D: Device>(
        &mut self,
        device: &D,
        facts: StationFacts,
        connections: &[CountedConnection],
    ) -> Result<(), OutOfMemory> {
        self.text.clear();
        push_device(&mut self.text, &self.config, device, facts, connections)?;
        self.events.push(&mut self.text)?;
        push_text(&mut self.text, "}")
    }
}
