//! Receipts against histories.

ghost use Rattle.std.specs.Prelude.{◌≡◌, ◌↔◌, ◌<◌, true, false, None, Some, Ok, [], IsTrue, IfOk, IfSome, IfNone, MatchBool, length, slice_get, slice_index_or};
ghost use Rattle.cip_tables.specs.Step.{AcceptsAll, config_fault};
ghost use Rattle.segment_world.specs.Configs.{first_fault};
ghost use Rattle.settling.specs.Search.Histories.{bytes_of, configs_of, events_of_all};
ghost use Rattle.settling.specs.Receipts.{AllGood, AreMarks, FitsAt, HasAllMarks, HasItsMarks, HasRoomForMarks, IsForeign, IsMarked, IsUnmarked, LacksItsMark, LacksMark, device_at, outcomes_in, outcomes_of_all, place_of, unmarked};
ghost use Rattle.settling.specs.Search.Lowest.{IsLowest};
ghost use Rattle.settling.specs.Search.Schedules.{history};

use crate::marks::Marks;
use crate::search::{byte_of, lower_of};
use cip_tables::{Answer, Device, Event, Outcome};
use cip_types::{Items, OutOfMemory};
use device_lock::{History, Receipt};
use std::alloc::Global;

// WHAT FRESH DEVICES ANSWER

/// What a fresh device answers to the events of a history.
fn outcomes_of<D: Device + Drop>(
    alloc: Global,
    history: &History,
) -> Result<Items<Outcome>, OutOfMemory>
    requires accepts { AcceptsAll D.accepts }
    requires valid { config_fault history.now.config ≡ None }
    ensures { IfOk result (λ outcomes. outcomes ≡ outcomes_in history.now) }
{
    let outcomes = history.outcomes::<D>(alloc)?;
    Ok(Items::from_vec(outcomes))
}

/// What fresh devices answer to the events of histories.
pub fn outcomes_of_all<D: Device + Drop>(
    alloc: Global,
    histories: &[History],
) -> Result<Vec<Items<Outcome>>, OutOfMemory>
    requires accepts { AcceptsAll D.accepts }
    requires valid { first_fault (configs_of histories.now) ≡ None }
    ensures { IfOk result (λ outcomes. outcomes.items ≡ outcomes_of_all histories.now) }
{
    let mut all = Vec::new(alloc);
    for history in histories {
        all.push(outcomes_of::<D>(alloc, history)?)?;
    }
    Ok(all)
}

// ONE RECEIPT

/// The device that has an incarnation byte.
fn device_of(histories: &[History], byte: u8) -> Option<usize>
    ensures { result ≡ device_at histories.now byte }
{
    histories
        .iter()
        .position(|history| byte_of(history) == byte)
}

/// The device whose receipt it is, and the place of its event in that device's history.
fn place_of(histories: &[History], receipt: &Receipt) -> Option<(usize, usize)>
    ensures { result ≡ place_of histories.now receipt.now }
{
    let Some(device) = device_of(histories, receipt.device) else {
        return None;
    };
    let Some(history) = histories.get(device) else {
        return None;
    };
    let Some(place) = history.place_of(receipt.segment, receipt.index) else {
        return None;
    };
    Some((device, place))
}

/// Whether a device has this event at this place.
fn has_event(histories: &[History], place: (usize, usize), event: &Event) -> bool
    ensures { IsTrue result ↔ (slice_get (history (events_of_all histories.now) place.0) place.1 ≡ Some event.now) }
{
    let Some(history) = histories.get(place.0) else {
        return false;
    };
    let Some(found) = history.event(place.1) else {
        return false;
    };
    found.same(event)
}

/// Whether a device's outcome at this place is this answer.
fn has_answer(outcomes: &[Items<Outcome>], place: (usize, usize), answer: &Answer) -> bool
    ensures { IsTrue result ↔ (slice_get (slice_index_or outcomes.now place.0 []) place.1 ≡ Some (Ok answer.now)) }
{
    let Some(row) = outcomes.get(place.0) else {
        return false;
    };
    let Some(outcome) = row.as_slice().get(place.1) else {
        return false;
    };
    match outcome {
        Ok(found) => found.same(answer),
        Err(_) => false,
    }
}

/// Whether a device has the receipt's event at this place, and gives the receipt's answer to it.
fn fits(
    histories: &[History],
    outcomes: &[Items<Outcome>],
    place: (usize, usize),
    receipt: &Receipt,
) -> bool
    requires { outcomes.now ≡ outcomes_of_all histories.now }
    ensures { IsTrue result ↔ FitsAt histories.now place receipt.now }
{
    has_event(histories, place, &receipt.event) && has_answer(outcomes, place, &receipt.answer)
}

/// Marks the event of a receipt that fits, if the event has no mark.
fn mark_event(
    histories: &[History],
    outcomes: &[Items<Outcome>],
    marks: &mut Marks,
    receipt: &Receipt,
) -> bool
    requires outcomes { outcomes.now ≡ outcomes_of_all histories.now }
    requires room { HasRoomForMarks histories.now marks.old }
    ensures { MatchBool result (IsMarked histories.now marks.old receipt.now marks.new)
        (IsUnmarked histories.now marks.old receipt.now → ⊥) }
{
    let Some(place) = place_of(histories, receipt) else {
        return false;
    };
    if !fits(histories, outcomes, place, receipt) || marks.has(place.0, place.1) {
        return false;
    }
    marks.set(place.0, place.1);
    true
}

// ALL RECEIPTS

/// The first receipt that does not fit, or is a second one for its event: its byte and its index. Marks the events of
/// the receipts before it.
pub fn first_foreign(
    histories: &[History],
    outcomes: &[Items<Outcome>],
    marks: &mut Marks,
    receipts: &[Receipt],
) -> Option<(u8, u32)>
    requires outcomes { outcomes.now ≡ outcomes_of_all histories.now }
    requires marks { marks.old ≡ unmarked histories.now }
    ensures good { IfNone result (AllGood histories.now [] receipts.now) }
    ensures marks { IfNone result (AreMarks histories.now receipts.now marks.new) }
    ensures some { IfSome result (λ p. IsForeign histories.now receipts.now p.0 p.1) }
{
    for receipt in receipts {
        if !mark_event(histories, outcomes, marks, receipt) {
            return Some((receipt.device, receipt.index));
        }
    }
    None
}

/// The first of so many events of a device that has no mark.
fn missing_of(marks: &Marks, device: usize, count: usize) -> Option<usize>
    ensures none { IfNone result (HasAllMarks marks.now count device) }
    ensures some { IfSome result (LacksMark marks.now count device) }
{
    for place in 0..count {
        if !marks.has(device, place) {
            return Some(place);
        }
    }
    None
}

/// Of the devices that have an event without a mark, the one with the lowest byte, and its first such event.
pub fn first_missing(histories: &[History], marks: &Marks) -> Option<(usize, usize)>
    ensures { IsLowest (HasItsMarks (events_of_all histories.now) marks.now)
        (LacksItsMark (events_of_all histories.now) marks.now) (bytes_of histories.now) (length histories.now) result }
{
    let mut best = None;
    for (device, history) in histories.iter().enumerate() {
        if let Some(place) = missing_of(marks, device, history.events().len()) {
            best = Some(lower_of(histories, best, (device, place)));
        }
    }
    best
}
