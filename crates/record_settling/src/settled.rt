//! Records that settle.

ghost use Rattle.std.specs.Prelude.{◌≡◌, ◌++◌, true, None, IfNone, IfOk, OnOk};
ghost use Rattle.cip_tables.specs.Step.{AcceptsAll};
ghost use Rattle.segment_world.specs.Configs.{world_fault};
ghost use Rattle.settling.specs.Search.Histories.{configs_of};
ghost use Rattle.settling.specs.SharedIds.{ShareNoIds};
ghost use Rattle.record_settling.specs.Settled.{AllRecorded, HasSettledRecords, IsRecorded, all_recorded, byte_in, first_names, histories_in, history_in, is_recorded, other_names, receipts_in, receipts_of_all};

use crate::account::{divide, history_of, kept_place, steps_of};
use crate::fault::RecordsFault;
use crate::senders::check_senders;
use crate::stream_names::{EventPlace, StreamName, name_streams, node_of};
use crate::summed::check_all_sums;
use cip_tables::{Config, Device, Event};
use cip_types::Items;
use device_lock::{History, Receipt};
use segment_world::{Act, WorldFault};
use settling::{Unsettled, check_configs, find_shared_ids, settle};
use std::alloc::Global;
use trace_outcomes::PlacedSum;
use trace_stepper::{StepperFault, compare, replay};
use trace_text::{Recorded, Trace};

/// A schedule for records, and the names of their streams.
#[derive(Drop)]
pub struct SettledRecords {
    /// Of each record the streams, in the order in which they opened.
    pub names: Vec<Items<StreamName>>,
    /// How many events the histories have.
    pub events: usize,
    /// The acts, from a world that is fresh of the records' configurations, in their order.
    pub schedule: Items<Act>,
}

// EACH RECORD FOR ITSELF

/// The incarnation byte of a device.
pub fn byte_of(config: &Config) -> u8
    ensures { result ≡ byte_in config.now }
{
    match config {
        Config::Adapter(profile) => profile.incarnation,
        Config::Scanner(profile) => profile.incarnation,
    }
}

/// Fails if two records are of one incarnation or of one address.
fn check_devices(records: &[Trace]) -> Result<(), RecordsFault> {
    for (place, record) in records.iter().enumerate() {
        check_others(records, place, record)?;
    }
    Ok(())
}

/// Fails if a record before this one is of its incarnation or of its address.
fn check_others(records: &[Trace], place: usize, record: &Trace) -> Result<(), RecordsFault> {
    for (other, before) in records.iter().enumerate() {
        if other < place && byte_of(&before.config) == byte_of(&record.config) {
            return Err(RecordsFault::SameIncarnation(other, place));
        }
        if other < place && node_of(before) == node_of(record) {
            return Err(RecordsFault::SameNode(other, place));
        }
    }
    Ok(())
}

/// Whether the outcome of an entry is recorded.
fn is_recorded(entry: &(Event, Recorded)) -> bool
    ensures { result ≡ is_recorded entry.now }
{
    entry.1.get().is_some()
}

/// The first event whose outcome is not recorded.
fn first_unrecorded(entries: &[(Event, Recorded)]) -> Option<usize>
    ensures { IfNone result (all_recorded entries.now ≡ true) }
{
    for place in 0..entries.len() {
        if !is_recorded(&entries[place]) {
            return Some(place);
        }
    }
    None
}

/// Fails if an event of a record has no outcome, or another one than a fresh device gives.
fn check_record<D: Device + Drop>(
    alloc: Global,
    place: usize,
    trace: &Trace,
) -> Result<(), RecordsFault>
    ensures { OnOk result (IsRecorded trace.now) }
{
    if let Some(event) = first_unrecorded(trace.events.as_slice()) {
        return Err(RecordsFault::Unrecorded(EventPlace {
            record: place,
            event,
        }));
    }
    let report = match replay::<D>(alloc, trace) {
        Ok(report) => report,
        Err(StepperFault::Profile) => return Err(RecordsFault::Profile(place)),
        Err(_) => return Err(RecordsFault::OutOfMemory),
    };
    match compare(trace, report.outcomes.as_slice()) {
        Ok(()) => Ok(()),
        Err(differs) => {
            let event = differs.0.saturating_sub(1);
            Err(RecordsFault::Differs(EventPlace {
                record: place,
                event,
            }))
        }
    }
}

/// Fails at the first record that is no whole record of its device.
fn check_records<D: Device + Drop>(alloc: Global, records: &[Trace]) -> Result<(), RecordsFault>
    ensures { OnOk result (AllRecorded records.now) }
{
    for (place, trace) in records.iter().enumerate() {
        check_record::<D>(alloc, place, trace)?;
    }
    Ok(())
}

// ALL RECORDS

/// The names of the first record, and those of the others.
fn split_names(names: &[Items<StreamName>]) -> (&[StreamName], &[Items<StreamName>])
    ensures first { result.0.now ≡ first_names names.now }
    ensures others { result.1.now ≡ other_names names.now }
{
    match names {
        [] => (&[], &[]),
        [first, others @ ..] => (first.as_slice(), others),
    }
}

/// The history of a record whose streams have these names. Its receipts are appended.
fn account_of<D: Device + Drop>(
    alloc: Global,
    trace: &Trace,
    names: &[StreamName],
    receipts: &mut Vec<Receipt>,
) -> Result<History, RecordsFault>
    requires accepts { AcceptsAll D.accepts }
    ensures history { IfOk result (λ history. history ≡ history_in trace.now names.now) }
    ensures receipts { OnOk result (receipts.new.items ≡ receipts.old.items ++ receipts_in trace.now names.now) }
{
    if trace.check().is_err() {
        return Err(RecordsFault::Profile(0));
    }
    let steps = steps_of(alloc, names, trace.events.as_slice())?;
    let events = divide(alloc, byte_of(&trace.config), steps, receipts)?;
    let history = history_of::<D>(alloc, &trace.config, events)?;
    Ok(history)
}

/// The histories of records whose streams have these names. Their receipts are appended.
fn histories_of<D: Device + Drop>(
    alloc: Global,
    records: &[Trace],
    names: &[Items<StreamName>],
    receipts: &mut Vec<Receipt>,
) -> Result<Vec<History>, RecordsFault>
    requires accepts { AcceptsAll D.accepts }
    ensures histories { IfOk result (λ histories. histories.items ≡ histories_in records.now names.now) }
    ensures receipts { OnOk result
        (receipts.new.items ≡ receipts.old.items ++ receipts_of_all records.now names.now) }
{
    let mut histories = Vec::new(alloc);
    let mut rest = names;
    for trace in records {
        let (mine, others) = split_names(rest);
        histories.push(account_of::<D>(alloc, trace, mine, receipts)?)?;
        rest = others;
    }
    Ok(histories)
}

/// Fails if no world can be made of the devices of histories, or two of them have a connection id in common.
fn check_histories<D: Device + Drop>(
    alloc: Global,
    histories: &[History],
) -> Result<(), RecordsFault>
    requires accepts { AcceptsAll D.accepts }
    ensures valid { OnOk result (world_fault (configs_of histories.now) ≡ None) }
    ensures apart { OnOk result (ShareNoIds histories.now) }
{
    match check_configs(alloc, histories) {
        Ok(()) => {}
        Err(WorldFault::OutOfMemory) => return Err(RecordsFault::OutOfMemory),
        Err(_) => return Err(RecordsFault::Profile(0)),
    }
    match find_shared_ids::<D>(alloc, histories)? {
        Some((one, other)) => Err(RecordsFault::SharedIds(one, other)),
        None => Ok(()),
    }
}

/// The event of a record that is at this place of its device's history.
fn event_at(records: &[Trace], byte: u8, place: u64) -> RecordsFault {
    for (record, trace) in records.iter().enumerate() {
        if byte_of(&trace.config) == byte {
            let event = kept_place(trace.events.as_slice(), place);
            return RecordsFault::Uncaused(EventPlace { record, event });
        }
    }
    RecordsFault::Foreign(byte, 0)
}

/// Why histories and receipts of records do not settle.
fn fault_of(records: &[Trace], unsettled: Unsettled) -> RecordsFault {
    match unsettled {
        Unsettled::Uncaused(byte, place) => event_at(records, byte, place),
        Unsettled::Foreign(byte, index) => RecordsFault::Foreign(byte, index),
        // (each event of a history has a receipt)
        Unsettled::Missing(byte, _) => RecordsFault::Foreign(byte, 0),
        Unsettled::OutOfMemory => RecordsFault::OutOfMemory,
    }
}

/// A schedule for the records of several devices: its events are their histories, each with the recorded answer.
///
/// A history has the events of a record that were answered, without those that change nothing (`accounted`), and each stream
/// has one number at both its ends (`StreamName`). What is lost on the way is permitted, and what nobody sent is not. Of each
/// record there may be sums, which it has in the place of outcomes: these are then to have them. No two devices have a connection
/// id in common: of the blocks that their profiles state or their events give.
///
/// The faults, in order: `SameIncarnation` and `SameNode`; `Unrecorded`, `Profile` and `Differs` of the first record that has
/// one; `Differs` of the first outcome that has not its sum; `Outsider`, `Streamless` and `Unsent` of the first event; `UnsentFrame` and `Streams`;
/// `SharedIds`; `Foreign`; `Uncaused`. And `OutOfMemory` wherever an allocation is refused.
pub fn settle_records<D: Device + Drop>(
    alloc: Global,
    records: &[Trace],
    sums: &[Items<PlacedSum>],
) -> Result<SettledRecords, RecordsFault>
    requires accepts { AcceptsAll D.accepts }
    ensures { IfOk result (HasSettledRecords records.now sums.now) }
{
    check_devices(records)?;
    check_records::<D>(alloc, records)?;
    check_all_sums(alloc, records, sums)?;
    check_senders(alloc, records)?;
    let names = name_streams(alloc, records)?;
    let mut receipts = Vec::new(alloc);
    let histories = histories_of::<D>(alloc, records, names.as_slice(), &mut receipts)?;
    check_histories::<D>(alloc, histories.as_slice())?;
    match settle::<D>(alloc, histories.as_slice(), receipts.as_slice()) {
        Ok(settled) => Ok(SettledRecords {
            names,
            events: receipts.len(),
            schedule: settled.schedule,
        }),
        Err(unsettled) => Err(fault_of(records, unsettled)),
    }
}
