//! The part of a trace that was read so far.

ghost use Rattle.std.specs.Prelude.{◌≡◌, ◌==◌, ◌+◌, [], length, ◌++◌, OnOk, option_to_list, Some};
ghost use Rattle.trace_words.specs.Reader.{Finds};
ghost use Rattle.cip_tables.specs.declared.table.Config.{Config};
ghost use Rattle.trace_text.specs.Reading.{front_of, with_stated, with_object, with_profile, are_uncounted, none_stated, given_block, early_block, with_ids, with_event, with_block, with_newer, with_line, with_term, builder_with, Leaves};

use crate::forms::TraceLine;
use crate::kept::Recorded;
use crate::recorded::{recorded_with, with_item};
use adapter_table::{Description, MakerLimits};
use cip_tables::{Config, Event, InputPoint, Outcome, OutputPoint};
use cip_types::{IdBlock, Items, OutOfMemory};
use scanner_table::SlotConfig;
use std::alloc::Global;
use std::mem;
use trace_lines::{
    AdapterLine, HeartbeatLine, LimitLine, ScannerLine, ScannerTerms, TermLine, profile_with,
    scanner_with, with_limit,
};
use trace_outcomes::Part;
use trace_words::TextFault;

/// A profile up to what its maker states: its description and its limits.
#[derive(Drop)]
pub struct ProfileFront {
    pub adapter: AdapterLine,
    pub outputs: Items<OutputPoint>,
    pub inputs: Items<InputPoint>,
    pub config: Option<InputPoint>,
    pub description: Option<Description>,
    pub limits: MakerLimits,
}

/// Nothing is said of openings.
const NO_TERMS: ScannerTerms = ScannerTerms {
    tidy: false,
    openings: None,
    serials: None,
    ids: None,
};

/// The part of a trace in the lines so far.
#[derive(Drop)]
pub enum TraceBuilder {
    /// Nothing.
    Empty,
    /// A profile up to its outputs and inputs.
    Points {
        adapter: AdapterLine,
        outputs: Items<OutputPoint>,
        inputs: Items<InputPoint>,
    },
    /// A profile up to its configuration.
    Configured {
        adapter: AdapterLine,
        outputs: Items<OutputPoint>,
        inputs: Items<InputPoint>,
        config: InputPoint,
    },
    /// A profile up to what its maker states.
    Stated(ProfileFront),
    /// A profile up to the classes of its maker's own objects.
    Objects(ProfileFront, Items<u32>),
    /// A profile up to the block of its connection ids.
    Counted(ProfileFront, Items<u32>, IdBlock),
    /// A scanner's profile up to its slots, with the limit on numbers, if it has one, and what it says of openings.
    Slots {
        scanner: ScannerLine,
        newer: Option<u32>,
        terms: ScannerTerms,
        slots: Items<SlotConfig>,
    },
    /// The configuration of a device, and events with their recorded outcomes. The last outcome may get more parts.
    Events {
        config: Config,
        entries: Items<(Event, Recorded)>,
        last: Option<(Event, Option<Outcome>)>,
    },
}

/// Adds one line to the part that was read so far. After a fault the part is of no use.
///
/// The faults: `Bad` if the line is not allowed there, and `OutOfMemory`.
pub fn add_line(
    alloc: Global,
    builder: &mut TraceBuilder,
    parsed: TraceLine,
) -> Result<(), TextFault>
    ensures { Leaves (builder_with builder.old parsed) result builder.new }
{
    // (in place, since most lines are events)
    match builder {
        TraceBuilder::Events { entries, last, .. } => add_to_events(alloc, entries, last, parsed),
        _ => {
            let before = mem::replace(builder, TraceBuilder::Empty);
            *builder = builder_with(alloc, before, parsed)?;
            Ok(())
        }
    }
}

/// The part that was read so far, with one line more.
fn builder_with(
    alloc: Global,
    builder: TraceBuilder,
    parsed: TraceLine,
) -> Result<TraceBuilder, TextFault>
    ensures { Finds (builder_with builder parsed) result }
{
    match builder {
        TraceBuilder::Empty => after_nothing(alloc, parsed),
        TraceBuilder::Points {
            adapter,
            outputs,
            inputs,
        } => after_points(alloc, adapter, outputs, inputs, parsed),
        TraceBuilder::Configured {
            adapter,
            outputs,
            inputs,
            config,
        } => after_config(alloc, adapter, outputs, inputs, config, parsed),
        TraceBuilder::Stated(front) => after_stated(alloc, front, parsed),
        TraceBuilder::Objects(front, objects) => after_objects(alloc, front, objects, parsed),
        TraceBuilder::Counted(front, objects, block) => {
            after_ids(alloc, front, objects, block, parsed)
        }
        TraceBuilder::Slots {
            scanner,
            newer,
            terms,
            slots,
        } => after_slots(alloc, scanner, newer, terms, slots, parsed),
        TraceBuilder::Events {
            config,
            entries,
            last,
        } => after_events(alloc, config, entries, last, parsed),
    }
}

fn after_nothing(alloc: Global, parsed: TraceLine) -> Result<TraceBuilder, TextFault>
    ensures { Finds (builder_with TraceBuilder.Empty parsed) result }
{
    match parsed {
        TraceLine::Adapter(adapter) => Ok(TraceBuilder::Points {
            adapter,
            outputs: Items::new(alloc),
            inputs: Items::new(alloc),
        }),
        TraceLine::Scanner(scanner) => Ok(TraceBuilder::Slots {
            scanner,
            newer: None,
            terms: NO_TERMS,
            slots: Items::new(alloc),
        }),
        _ => Err(TextFault::Bad),
    }
}

fn after_points(
    alloc: Global,
    adapter: AdapterLine,
    outputs: Items<OutputPoint>,
    inputs: Items<InputPoint>,
    parsed: TraceLine,
) -> Result<TraceBuilder, TextFault>
    ensures { Finds (builder_with (TraceBuilder.Points adapter outputs inputs) parsed) result }
{
    match parsed {
        TraceLine::Output(output) if inputs.as_slice().is_empty() => Ok(TraceBuilder::Points {
            adapter,
            outputs: with_item(outputs, output)?,
            inputs,
        }),
        TraceLine::Input(input) => Ok(TraceBuilder::Points {
            adapter,
            outputs,
            inputs: with_item(inputs, input)?,
        }),
        TraceLine::Config(config) => Ok(TraceBuilder::Configured {
            adapter,
            outputs,
            inputs,
            config,
        }),
        TraceLine::Description(described) => {
            let front = front_of(adapter, outputs, inputs, None, Some(described));
            Ok(TraceBuilder::Stated(front))
        }
        TraceLine::Limit(limit) => {
            with_stated(front_of(adapter, outputs, inputs, None, None), limit)
        }
        TraceLine::Object(class) => {
            let front = front_of(adapter, outputs, inputs, None, None);
            with_object(front, Items::new(alloc), class)
        }
        TraceLine::Event(event) => {
            let front = front_of(adapter, outputs, inputs, None, None);
            with_ids(front, Items::new(alloc), &event)
        }
        TraceLine::Heartbeat(heartbeat) => {
            let front = front_of(adapter, outputs, inputs, None, None);
            Ok(with_profile(alloc, front, Items::new(alloc), None, heartbeat))
        }
        _ => Err(TextFault::Bad),
    }
}

fn after_config(
    alloc: Global,
    adapter: AdapterLine,
    outputs: Items<OutputPoint>,
    inputs: Items<InputPoint>,
    config: InputPoint,
    parsed: TraceLine,
) -> Result<TraceBuilder, TextFault>
    ensures { Finds (builder_with (TraceBuilder.Configured adapter outputs inputs config) parsed) result }
{
    match parsed {
        TraceLine::Description(described) => {
            let front = front_of(adapter, outputs, inputs, Some(config), Some(described));
            Ok(TraceBuilder::Stated(front))
        }
        TraceLine::Limit(limit) => {
            with_stated(
                front_of(adapter, outputs, inputs, Some(config), None),
                limit,
            )
        }
        TraceLine::Object(class) => {
            let front = front_of(adapter, outputs, inputs, Some(config), None);
            with_object(front, Items::new(alloc), class)
        }
        TraceLine::Event(event) => {
            let front = front_of(adapter, outputs, inputs, Some(config), None);
            with_ids(front, Items::new(alloc), &event)
        }
        TraceLine::Heartbeat(heartbeat) => {
            let front = front_of(adapter, outputs, inputs, Some(config), None);
            Ok(with_profile(alloc, front, Items::new(alloc), None, heartbeat))
        }
        _ => Err(TextFault::Bad),
    }
}

/// A profile up to its description, if it has one, before its limits.
fn front_of(
    adapter: AdapterLine,
    outputs: Items<OutputPoint>,
    inputs: Items<InputPoint>,
    config: Option<InputPoint>,
    description: Option<Description>,
) -> ProfileFront
    ensures { result ≡ front_of adapter outputs inputs config description }
{
    ProfileFront {
        adapter,
        outputs,
        inputs,
        config,
        description,
        limits: MakerLimits::NONE,
    }
}

/// One limit more, behind the description or where that is left out.
fn with_stated(front: ProfileFront, limit: LimitLine) -> Result<TraceBuilder, TextFault>
    ensures { Finds (with_stated front limit) result }
{
    let limits = with_limit(front.limits, limit).ok_or(TextFault::Bad)?;
    Ok(TraceBuilder::Stated(ProfileFront { limits, ..front }))
}

/// One class of the maker's own objects more.
fn with_object(
    front: ProfileFront,
    objects: Items<u32>,
    class: u32,
) -> Result<TraceBuilder, TextFault>
    ensures { Finds (with_object front objects class) result }
{
    Ok(TraceBuilder::Objects(front, with_item(objects, class)?))
}

/// The whole profile of an adapter.
fn with_profile(
    alloc: Global,
    front: ProfileFront,
    objects: Items<u32>,
    ids: Option<IdBlock>,
    heartbeat: HeartbeatLine,
) -> TraceBuilder
    ensures { Some result ≡ with_profile front objects ids heartbeat }
{
    let ProfileFront {
        adapter,
        outputs,
        inputs,
        config,
        description,
        limits,
    } = front;
    let profile = profile_with(
        adapter,
        outputs,
        inputs,
        config,
        description,
        limits,
        objects,
        ids,
        heartbeat,
    );
    after_profile(alloc, Config::Adapter(profile), None)
}

fn after_stated(
    alloc: Global,
    front: ProfileFront,
    parsed: TraceLine,
) -> Result<TraceBuilder, TextFault>
    ensures { Finds (builder_with (TraceBuilder.Stated front) parsed) result }
{
    match parsed {
        TraceLine::Limit(limit) => with_stated(front, limit),
        TraceLine::Object(class) => with_object(front, Items::new(alloc), class),
        TraceLine::Event(event) => with_ids(front, Items::new(alloc), &event),
        TraceLine::Heartbeat(heartbeat) => {
            Ok(with_profile(alloc, front, Items::new(alloc), None, heartbeat))
        }
        _ => Err(TextFault::Bad),
    }
}

fn after_objects(
    alloc: Global,
    front: ProfileFront,
    objects: Items<u32>,
    parsed: TraceLine,
) -> Result<TraceBuilder, TextFault>
    ensures { Finds (builder_with (TraceBuilder.Objects front objects) parsed) result }
{
    match parsed {
        TraceLine::Object(class) => with_object(front, objects, class),
        TraceLine::Event(event) => with_ids(front, objects, &event),
        TraceLine::Heartbeat(heartbeat) => Ok(with_profile(alloc, front, objects, None, heartbeat)),
        _ => Err(TextFault::Bad),
    }
}

fn after_ids(
    alloc: Global,
    front: ProfileFront,
    objects: Items<u32>,
    block: IdBlock,
    parsed: TraceLine,
) -> Result<TraceBuilder, TextFault>
    ensures { Finds (builder_with (TraceBuilder.Counted front objects block) parsed) result }
{
    match parsed {
        TraceLine::Heartbeat(heartbeat) => {
            Ok(with_profile(alloc, front, objects, Some(block), heartbeat))
        }
        _ => Err(TextFault::Bad),
    }
}

fn after_slots(
    alloc: Global,
    scanner: ScannerLine,
    newer: Option<u32>,
    terms: ScannerTerms,
    slots: Items<SlotConfig>,
    parsed: TraceLine,
) -> Result<TraceBuilder, TextFault>
    ensures { Finds (builder_with (TraceBuilder.Slots scanner newer terms slots) parsed) result }
{
    match parsed {
        TraceLine::Limit(limit) => with_newer(scanner, newer, terms, slots, limit),
        TraceLine::Term(said) => with_term(scanner, newer, terms, slots, said),
        TraceLine::Slot(slot) => Ok(TraceBuilder::Slots {
            scanner,
            newer,
            terms,
            slots: with_item(slots, slot)?,
        }),
        TraceLine::Event(event) => with_event(alloc, scanner, newer, terms, slots, event),
        _ => Err(TextFault::Bad),
    }
}

/// Returns the block of connection ids of an event that gives one. Takes no memory.
pub fn given_block(event: &Event) -> Option<IdBlock>
    ensures { result ≡ given_block event.now }
{
    match event {
        Event::Ids { block } => Some(*block),
        _ => None,
    }
}

/// The block of a scanner's profile, which comes before all slots.
fn early_block(slots: &[SlotConfig], event: &Event) -> Option<IdBlock>
    ensures { result ≡ early_block slots.now event.now }
{
    if slots.is_empty() {
        given_block(event)
    } else {
        None
    }
}

/// The block of an adapter's profile, before the points without data.
fn with_ids(
    front: ProfileFront,
    objects: Items<u32>,
    event: &Event,
) -> Result<TraceBuilder, TextFault>
    ensures { Finds (with_ids front objects event.now) result }
{
    match given_block(event) {
        Some(block) => Ok(TraceBuilder::Counted(front, objects, block)),
        None => Err(TextFault::Bad),
    }
}

/// The block of a scanner's profile, which comes once, or the first event behind the profile.
fn with_event(
    alloc: Global,
    scanner: ScannerLine,
    newer: Option<u32>,
    terms: ScannerTerms,
    slots: Items<SlotConfig>,
    event: Event,
) -> Result<TraceBuilder, TextFault>
    ensures { Finds (with_event scanner newer terms slots event (early_block slots event)) result }
{
    match early_block(slots.as_slice(), &event) {
        Some(block) => with_block(scanner, newer, terms, slots, block),
        None => {
            let config = Config::Scanner(scanner_with(scanner, newer, terms, slots));
            Ok(after_profile(alloc, config, Some((event, None))))
        }
    }
}

/// The block of a scanner's profile, which comes once.
fn with_block(
    scanner: ScannerLine,
    newer: Option<u32>,
    terms: ScannerTerms,
    slots: Items<SlotConfig>,
    block: IdBlock,
) -> Result<TraceBuilder, TextFault>
    ensures { Finds (with_block scanner newer terms slots block) result }
{
    if terms.ids.is_some() {
        return Err(TextFault::Bad);
    }
    Ok(TraceBuilder::Slots {
        scanner,
        newer,
        terms: ScannerTerms {
            ids: Some(block),
            ..terms
        },
        slots,
    })
}

/// Whether neither the most openings, nor the first serial number, nor the ids are stated.
fn none_stated(terms: ScannerTerms) -> bool
    ensures { result ≡ none_stated terms }
{
    terms.openings.is_none() && are_uncounted(terms)
}

/// Whether neither the first serial number nor the ids are stated.
fn are_uncounted(terms: ScannerTerms) -> bool
    ensures { result ≡ are_uncounted terms }
{
    terms.serials.is_none() && terms.ids.is_none()
}

/// The limit on numbers, before what is said of openings and all slots, and once.
fn with_newer(
    scanner: ScannerLine,
    newer: Option<u32>,
    terms: ScannerTerms,
    slots: Items<SlotConfig>,
    limit: LimitLine,
) -> Result<TraceBuilder, TextFault>
    ensures { Finds (with_newer scanner newer terms slots limit) result }
{
    let may_come = newer.is_none()
        && !terms.tidy
        && none_stated(terms)
        && slots.as_slice().is_empty();
    match limit {
        LimitLine::Newer(within) if may_come => Ok(TraceBuilder::Slots {
            scanner,
            newer: Some(within),
            terms,
            slots,
        }),
        _ => Err(TextFault::Bad),
    }
}

/// What is said of openings, with one line more. None if the line has come before, or one behind it.
fn with_line(terms: ScannerTerms, said: TermLine) -> Option<ScannerTerms>
    ensures { result ≡ with_line terms said }
{
    match said {
        TermLine::Tidy if !terms.tidy && none_stated(terms) => Some(ScannerTerms {
            tidy: true,
            ..terms
        }),
        TermLine::Openings(most) if none_stated(terms) => Some(ScannerTerms {
            openings: Some(most),
            ..terms
        }),
        TermLine::Serials(first) if are_uncounted(terms) => Some(ScannerTerms {
            serials: Some(first),
            ..terms
        }),
        TermLine::Tidy | TermLine::Openings(_) | TermLine::Serials(_) => None,
    }
}

/// A line of what is said of openings, before all slots.
fn with_term(
    scanner: ScannerLine,
    newer: Option<u32>,
    terms: ScannerTerms,
    slots: Items<SlotConfig>,
    said: TermLine,
) -> Result<TraceBuilder, TextFault>
    ensures { Finds (with_term scanner newer terms slots said) result }
{
    if !slots.as_slice().is_empty() {
        return Err(TextFault::Bad);
    }
    let Some(terms) = with_line(terms, said) else {
        return Err(TextFault::Bad);
    };
    Ok(TraceBuilder::Slots {
        scanner,
        newer,
        terms,
        slots,
    })
}

fn after_events(
    alloc: Global,
    config: Config,
    mut entries: Items<(Event, Recorded)>,
    mut last: Option<(Event, Option<Outcome>)>,
    parsed: TraceLine,
) -> Result<TraceBuilder, TextFault>
    ensures { Finds (builder_with (TraceBuilder.Events config entries last) parsed) result }
{
    match add_to_events(alloc, &mut entries, &mut last, parsed) {
        Ok(()) => Ok(TraceBuilder::Events {
            config,
            entries,
            last,
        }),
        Err(fault) => Err(fault),
    }
}

/// A whole profile, and the first event if its line was read too.
fn after_profile(
    alloc: Global,
    config: Config,
    last: Option<(Event, Option<Outcome>)>,
) -> TraceBuilder
    ensures { result ≡ TraceBuilder.Events config [] last }
{
    TraceBuilder::Events {
        config,
        entries: Items::new(alloc),
        last,
    }
}

/// Adds a line behind those of a profile.
fn add_to_events(
    alloc: Global,
    entries: &mut Items<(Event, Recorded)>,
    last: &mut Option<(Event, Option<Outcome>)>,
    parsed: TraceLine,
) -> Result<(), TextFault>
    ensures { (made_of : Config)
        → Leaves (builder_with (TraceBuilder.Events made_of entries.old last.old) parsed) result
        (TraceBuilder.Events made_of entries.new last.new) }
{
    match parsed {
        TraceLine::Event(event) => {
            let before = mem::replace(last, Some((event, None)));
            add_last(alloc, entries, before)?;
            Ok(())
        }
        TraceLine::Recorded(number, part) => {
            add_part(alloc, entries.as_slice(), last, number, part)
        }
        _ => Err(TextFault::Bad),
    }
}

/// Adds a part to the outcome of the event that came last, whose number it has.
fn add_part(
    alloc: Global,
    entries: &[(Event, Recorded)],
    last: &mut Option<(Event, Option<Outcome>)>,
    number: u64,
    part: Part,
) -> Result<(), TextFault>
    ensures { (made_of : Config)
        → Leaves (builder_with (TraceBuilder.Events made_of entries.now last.old)
        (TraceLine.Recorded number part)) result (TraceBuilder.Events made_of entries.now last.new) }
{
    let Some((event, recorded)) = last.take() else {
        return Err(TextFault::Bad);
    };
    if !is_next_number(entries, number) {
        return Err(TextFault::Bad);
    }
    let outcome = recorded_with(alloc, recorded, part)?;
    *last = Some((event, Some(outcome)));
    Ok(())
}

/// Whether the next event has this number, from 1.
fn is_next_number(entries: &[(Event, Recorded)], number: u64) -> bool
    ensures { result ≡ (number == length entries.now + 1) }
{
    number == entries.len() as u64 + 1
}

/// Adds the last event with its recorded outcome to those before it.
pub fn add_last(
    alloc: Global,
    entries: &mut Items<(Event, Recorded)>,
    last: Option<(Event, Option<Outcome>)>,
) -> Result<(), OutOfMemory>
    ensures { OnOk result (entries.new ≡ entries.old ++ option_to_list last) }
{
    let Some((event, recorded)) = last else {
        return Ok(());
    };
    let recorded = Recorded::of(alloc, recorded)?;
    let before = mem::replace(entries, Items::new(alloc));
    *entries = with_item(before, (event, recorded))?;
    Ok(())
}
