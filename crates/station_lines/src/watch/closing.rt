//! The slots of a scanner that are being closed, and how long a station that ends waits for them.

ghost use Rattle.std.specs.Prelude.{◌≡◌, replicate, slice_set, false, IfOk};
ghost use Rattle.std.specs.List.{list_any};
ghost use Rattle.station_lines.specs.Watch.Closing.{close_end, closing_after, closing_ms, closing_through, is_marked, waits_on};

use cip_events::{Notice, SlotPhase};
use cip_tables::Config;
use cip_types::OutOfMemory;
use cip_types::limits::MOST_SLOTS;
use std::alloc::Global;
use std::marker::Model;

/// Of each slot whether it is being closed. Contracts see a list.
#[derive(Drop)]
pub struct ClosingSlots {
    closing: Vec<bool>,
}

impl Model for ClosingSlots {
    ghost use Rattle.std.specs.Prelude.{List, Bool};

    ghost Value = { List Bool };

    ghost view = { λ c. c.closing.items };
}

impl ClosingSlots {
    /// No slot is being closed. The only fault is a refused allocation.
    pub fn none(alloc: Global) -> Result<ClosingSlots, OutOfMemory>
        ensures { IfOk result (λ slots. slots ≡ replicate 64 false) }
    {
        Ok(ClosingSlots {
            closing: vec![in alloc; false; MOST_SLOTS]?,
        })
    }

    /// Notes the notices of an answer. Takes no memory.
    pub fn note(&mut self, notices: &[Notice])
        ensures { self.new ≡ closing_through notices.now self.old }
    {
        for notice in notices {
            self.note_one(notice);
        }
    }

    /// Notes a notice.
    fn note_one(&mut self, notice: &Notice)
        ensures { self.new ≡ closing_after notice.now self.old }
    {
        if let Notice::Slot(slot, state) = notice {
            self.put(*slot, *state == SlotPhase::Closing.number());
        }
    }

    /// Puts whether a slot is being closed, if there is such a slot.
    fn put(&mut self, slot: u32, closing: bool)
        ensures { self.new ≡ slice_set self.old slot closing }
    {
        let index = slot as usize;
        if index < self.closing.len() {
            self.closing[index] = closing;
        }
    }

    /// Whether a slot is being closed. Takes no memory.
    pub fn any(&self) -> bool
        ensures { result ≡ list_any is_marked self.now }
    {
        self.closing.iter().any(|closing| *closing)
    }
}

/// How long a station of this configuration waits at its end while slots are being closed, in milliseconds: a scanner for its
/// open time-out, which is as long as a slot waits for a reply. An adapter has no slots.
pub fn closing_ms(config: &Config) -> u64
    ensures { result ≡ closing_ms config.now }
{
    match config {
        Config::Adapter(_) => 0,
        Config::Scanner(profile) => profile.open_timeout,
    }
}

/// When a station that ends waits no longer for its slots: so many milliseconds later.
pub fn close_end(now_ms: u64, closing_ms: u64) -> u64
    ensures { result ≡ close_end now_ms closing_ms }
{
    now_ms.saturating_add(closing_ms)
}

/// Whether a station that ends waits: while a slot is being closed, until this time. It does not wait for a slot that has timed
/// out and whose target has no session.
pub fn waits_on(closing: bool, now_ms: u64, until_ms: u64) -> bool
    ensures { result ≡ waits_on closing now_ms until_ms }
{
    closing && now_ms < until_ms
}
