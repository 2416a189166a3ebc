//! What a station knows of a scanner's slots: what it tells its port of their targets, and whether their data comes.

ghost use Rattle.std.specs.Prelude.{◌≡◌, position, OnOk};
ghost use Rattle.std.specs.List.{list_any};
ghost use Rattle.station_lines.specs.Watch.Slots.{awaits_size, data_len, ended_slot, link_report_of, fed, idle_slot, is_id, is_opening, is_renewed, is_starved, is_tick, opened, serves, waits, with_groups};

use crate::watch::groups::{datagram_id, opened_group};
use crate::watch::traffic::slot_id;
use cip_events::{Answer, Delivery, Event, Notice, SlotPhase, Verdict};
use cip_tables::{Config, Device, SlotReport};
use cip_types::{Node, OutOfMemory};
use std::alloc::Global;
use udp_runner::{DataGroup, add_group};

/// The bytes of a datagram before its data: the number of items, the sequenced address item, the head of the connected data item, and
/// the sequence count.
const BEFORE_DATA: usize = 20;

/// What a station tells its port of the target of a slot.
#[derive(Clone, Copy, PartialEq, Eq)]
pub enum LinkReport {
    /// A request to it was not answered in time, and no slot of it is established: its stream is to be opened anew.
    Renew(u32),
    /// A connection with it is established.
    Succeed(u32),
}

/// What is known of one slot.
#[derive(Clone, Copy, PartialEq, Eq)]
pub struct SlotWatch {
    pub target: Node,
    /// Whether the target sends to a group.
    pub multicast: bool,
    /// The standard's number of its state.
    pub state: u8,
    /// The bytes of data that its datagrams are to have.
    pub takes: u64,
    /// Whether no datagram of the slot's connection was accepted since it was established.
    pub unfed: bool,
    /// Whether a datagram of another size came since it was established.
    pub missized: bool,
    /// The connection id of its datagrams.
    pub id: Option<u32>,
    /// The group that the reply named; none of a slot that is idle.
    pub group: Option<DataGroup>,
}

/// Why a slot gets no data.
#[derive(Clone, Copy, PartialEq, Eq)]
pub enum StarvedCause {
    /// No multicast datagram came. The reply named this group.
    NoDatagram(Option<DataGroup>),
    /// Its datagrams have so many bytes of data, and it takes so many.
    WrongSize { came: u64, takes: u64 },
}

/// A slot that gets no data.
#[derive(Clone, Copy, PartialEq, Eq)]
pub struct Starved {
    pub slot: u32,
    pub target: Node,
    pub cause: StarvedCause,
}

/// What is known of a scanner's slots, and what is to be told.
#[derive(Drop)]
pub struct SlotWatches {
    slots: Vec<SlotWatch>,
    link_reports: Vec<LinkReport>,
    starved: Vec<Starved>,
    /// Whether the groups of the slots may have changed since they were told.
    regrouped: bool,
}

impl SlotWatches {
    /// The slots of a scanner; none of an adapter.
    pub fn of(alloc: Global, config: &Config) -> Result<SlotWatches, OutOfMemory> {
        let mut slots = Vec::new(alloc);
        if let Config::Scanner(profile) = config {
            for slot in profile.slots.as_slice() {
                slots.push(SlotWatch {
                    target: slot.target,
                    multicast: slot.multicast,
                    state: SlotPhase::Idle.number(),
                    takes: slot.in_len,
                    unfed: false,
                    missized: false,
                    id: None,
                    group: None,
                })?;
            }
        }
        Ok(SlotWatches {
            slots,
            link_reports: Vec::new(alloc),
            starved: Vec::new(alloc),
            regrouped: false,
        })
    }

    /// Notes an event and its answer at a device, which is as the event left it. The fault: an allocation was refused, and not all
    /// that is to be told is kept.
    pub fn note<D: Device>(
        &mut self,
        device: &D,
        event: &Event,
        answer: &Answer,
    ) -> Result<(), OutOfMemory> {
        if let Event::Datagram { peer, bytes } = event {
            let id = datagram_id(bytes.as_slice());
            if is_accepted(&answer.verdict) {
                self.feed(*peer, id);
            }
            if is_missized(&answer.verdict) {
                self.missize(*peer, id, data_len(bytes.as_slice().len()))?;
            }
        }
        for notice in answer.notices.as_slice() {
            if let Some(slot) = ended_slot(event, notice) {
                self.starve(slot)?;
            }
            let before = self.follow(notice);
            if let Some(link_report) = link_report_of(event, before, notice) {
                self.report(device, event, link_report)?;
            }
            self.forget(notice);
        }
        Ok(())
    }

    /// Notes the state of the slot of a notice. Its state before.
    fn follow(&mut self, notice: &Notice) -> Option<u8> {
        let Notice::Slot(slot, state) = notice else {
            return None;
        };
        let place = watch_mut(&mut self.slots, *slot)?;
        let before = place.state;
        *place = SlotWatch {
            state: *state,
            ..*place
        };
        Some(before)
    }

    /// Notes a slot whose connection ended as time passed: it is to be told if its data never came. The fault: an allocation was
    /// refused.
    fn starve(&mut self, slot: u32) -> Result<(), OutOfMemory> {
        match self.starved_at(slot) {
            Some(starved) => Ok(self.starved.push(starved)?),
            None => Ok(()),
        }
    }

    /// A datagram of this target and id was accepted.
    fn feed(&mut self, target: Node, id: Option<u32>) {
        let Some(id) = id else {
            return;
        };
        for slot in self.slots.iter_mut() {
            *slot = fed(*slot, target, id);
        }
    }

    /// A datagram of this target and id came with so many bytes of data, and its slot takes another number. It is told once for each
    /// connection. The fault: an allocation was refused.
    fn missize(&mut self, target: Node, id: Option<u32>, came: u64) -> Result<(), OutOfMemory> {
        let Some(id) = id else {
            return Ok(());
        };
        match missized_at(self.slots.as_slice(), target, id) {
            Some(index) => self.report_size(index, came),
            None => Ok(()),
        }
    }

    /// Tells of the slot at this place that a datagram came with so many bytes of data. The fault: an allocation was refused.
    fn report_size(&mut self, index: usize, came: u64) -> Result<(), OutOfMemory> {
        let (Some(place), Ok(slot)) = (self.slots.get_mut(index), u32::try_from(index)) else {
            return Ok(());
        };
        let watch = *place;
        *place = SlotWatch {
            missized: true,
            ..watch
        };
        self.starved.push(Starved {
            slot,
            target: watch.target,
            cause: StarvedCause::WrongSize {
                came,
                takes: watch.takes,
            },
        })?;
        Ok(())
    }

    /// Notes a report on the link of a slot, and what it says of the slot. That its stream is to be opened anew is told only if no
    /// slot of its target is established and the slot does not open already. The fault: an allocation was refused.
    fn report<D: Device>(
        &mut self,
        device: &D,
        event: &Event,
        link_report: LinkReport,
    ) -> Result<(), OutOfMemory> {
        match link_report {
            LinkReport::Succeed(slot) => {
                self.link_reports.push(link_report)?;
                let (id, group) = (slot_id(device, slot), reply_group(event));
                if let Some(place) = watch_mut(&mut self.slots, slot) {
                    *place = opened(*place, id, group);
                    self.regrouped = true;
                }
                Ok(())
            }
            LinkReport::Renew(slot) => match self.target(slot) {
                Some(target) if is_renewed(self.slots.as_slice(), target, device.slot(slot)) => {
                    Ok(self.link_reports.push(link_report)?)
                }
                _ => Ok(()),
            },
        }
    }

    /// Forgets the group of a slot that a notice says to be idle.
    fn forget(&mut self, notice: &Notice) {
        let Some(slot) = idle_slot(notice) else {
            return;
        };
        if let Some(place) = watch_mut(&mut self.slots, slot) {
            *place = SlotWatch {
                group: None,
                ..*place
            };
            self.regrouped = true;
        }
    }

    /// Appends the groups of the slots, each once, if they may have changed since the last time. Whether they may have. The only
    /// fault is a refused allocation, and then they are told the next time.
    pub fn push_groups(&mut self, groups: &mut Vec<DataGroup>) -> Result<bool, OutOfMemory> {
        if !self.regrouped {
            return Ok(false);
        }
        add_groups(self.slots.as_slice(), groups)?;
        self.regrouped = false;
        Ok(true)
    }

    /// A slot whose data never came. It is answered once for each connection.
    fn starved_at(&mut self, slot: u32) -> Option<Starved> {
        let place = watch_mut(&mut self.slots, slot)?;
        let watch = *place;
        if !is_starved(watch) {
            return None;
        }
        *place = SlotWatch {
            unfed: false,
            ..watch
        };
        Some(Starved {
            slot,
            target: watch.target,
            cause: StarvedCause::NoDatagram(watch.group),
        })
    }

    /// Takes the next thing that the port is to be told, the last one first.
    pub fn next_link_report(&mut self) -> Option<LinkReport> {
        self.link_reports.pop()
    }

    /// Takes the next slot that gets no data, the last one first.
    pub fn next_starved(&mut self) -> Option<Starved> {
        self.starved.pop()
    }

    /// The target of a slot.
    pub fn target(&self, slot: u32) -> Option<Node> {
        let slot = usize::try_from(slot).ok()?;
        Some(self.slots.get(slot)?.target)
    }
}

/// Adds the groups of slots, each once. The only fault is a refused allocation.
fn add_groups(slots: &[SlotWatch], groups: &mut Vec<DataGroup>) -> Result<(), OutOfMemory>
    ensures { OnOk result (groups.new.items ≡ with_groups slots.now groups.old.items) }
{
    for slot in slots {
        add_group(groups, slot.group)?;
    }
    Ok(())
}

/// The slot that a notice says to be idle.
fn idle_slot(notice: &Notice) -> Option<u32>
    ensures { result ≡ idle_slot notice.now }
{
    let Notice::Slot(slot, state) = notice else {
        return None;
    };
    if *state == SlotPhase::Idle.number() {
        return Some(*slot);
    }
    None
}

/// What is known of a slot.
fn watch_mut(slots: &mut Vec<SlotWatch>, slot: u32) -> Option<&mut SlotWatch> {
    slots.get_mut(usize::try_from(slot).ok()?)
}

/// The group that the reply of an event names.
fn reply_group(event: &Event) -> Option<DataGroup> {
    match event {
        Event::Frame { stream: _, bytes } => opened_group(bytes.as_slice()),
        _ => None,
    }
}

/// What a notice in the answer to an event has a station tell its port of the target of a slot that was in this state: a connection is
/// established; or at a tick a request was not answered in time, and then the target's stream is to be opened anew.
fn link_report_of(event: &Event, before: Option<u8>, notice: &Notice) -> Option<LinkReport>
    ensures { result ≡ link_report_of event.now before notice.now }
{
    let Notice::Slot(slot, state) = notice else {
        return None;
    };
    if *state == SlotPhase::Established.number() {
        return Some(LinkReport::Succeed(*slot));
    }
    if is_tick(event) && waits(before) {
        return Some(LinkReport::Renew(*slot));
    }
    None
}

/// Whether a slot in this state waits for the answer to a request.
fn waits(state: Option<u8>) -> bool
    ensures { result ≡ waits state }
{
    match state {
        Some(state) => {
            state == SlotPhase::Opening.number() || state == SlotPhase::Closing.number()
        }
        None => false,
    }
}

/// The slot of a notice whose connection, or the request for one, ended as time passed.
fn ended_slot(event: &Event, notice: &Notice) -> Option<u32>
    ensures { result ≡ ended_slot event.now notice.now }
{
    let Notice::Slot(slot, state) = notice else {
        return None;
    };
    if is_tick(event)
        && (*state == SlotPhase::Idle.number() || *state == SlotPhase::TimedOut.number())
    {
        return Some(*slot);
    }
    None
}

/// Whether the stream of a slot in this state, whose request was not answered, is to be opened anew: no slot of its target is
/// established, and it has not sent the next Forward_Open over it, as a tidy one does whose Forward_Close was not answered.
fn is_renewed(slots: &[SlotWatch], target: Node, report: Option<SlotReport>) -> bool
    ensures { result ≡ is_renewed slots.now target report }
{
    !serves_any(slots, target) && !is_opening(report)
}

/// Whether a slot in this state waits for the reply to a Forward_Open.
fn is_opening(report: Option<SlotReport>) -> bool
    ensures { result ≡ is_opening report }
{
    match report {
        Some(SlotReport::Opening) => true,
        _ => false,
    }
}

/// Whether a slot of this target is established.
fn serves_any(slots: &[SlotWatch], target: Node) -> bool
    ensures { result ≡ list_any (serves target) slots.now }
{
    slots.iter().any(|watch| serves(watch, target))
}

/// Whether a slot is established, and is of this target.
fn serves(watch: &SlotWatch, target: Node) -> bool
    ensures { result ≡ serves target watch.now }
{
    watch.state == SlotPhase::Established.number() && watch.target == target
}

/// Whether time passed.
fn is_tick(event: &Event) -> bool
    ensures { result ≡ is_tick event.now }
{
    matches!(event, Event::Tick { ms: _ })
}

/// Whether a datagram was accepted.
fn is_accepted(verdict: &Verdict) -> bool {
    match verdict {
        Verdict::Delivered(delivery) => matches!(
            *delivery,
            Delivery::Applied | Delivery::Idle | Delivery::Heartbeat | Delivery::Duplicate
        ),
        _ => false,
    }
}

/// Whether a datagram had another size than its connection.
fn is_missized(verdict: &Verdict) -> bool {
    match verdict {
        Verdict::Delivered(delivery) => *delivery == Delivery::WrongSize,
        _ => false,
    }
}

/// The bytes of data of a datagram of so many bytes: the data follow the heads of its items and the sequence count.
///
/// Volume 2, chapter 2, sequenced address item, connected data item.
fn data_len(len: usize) -> u64
    ensures { result ≡ data_len len }
{
    len.saturating_sub(BEFORE_DATA) as u64
}

/// The place of the first slot of this target and this id of which no datagram of another size was told.
fn missized_at(slots: &[SlotWatch], target: Node, id: u32) -> Option<usize>
    ensures { result ≡ position (awaits_size target id) slots.now }
{
    slots
        .iter()
        .position(|watch| awaits_size(watch, target, id))
}

/// Whether a slot is of this target and this id, and no datagram of another size was told of it.
fn awaits_size(watch: &SlotWatch, target: Node, id: u32) -> bool
    ensures { result ≡ awaits_size target id watch.now }
{
    watch.target == target && is_id(watch.id, id) && !watch.missized
}

/// A slot after its connection was established, with the id of its datagrams and the group that the reply named. Without an id it
/// is not watched.
fn opened(watch: SlotWatch, id: Option<u32>, group: Option<DataGroup>) -> SlotWatch
    ensures { result ≡ opened watch id group }
{
    match id {
        Some(id) => SlotWatch {
            unfed: true,
            missized: false,
            id: Some(id),
            group,
            ..watch
        },
        None => SlotWatch {
            unfed: false,
            missized: false,
            id: None,
            group: None,
            ..watch
        },
    }
}

/// A slot after a datagram of this target and this id was accepted.
fn fed(watch: SlotWatch, target: Node, id: u32) -> SlotWatch
    ensures { result ≡ fed watch target id }
{
    if watch.target != target || !is_id(watch.id, id) {
        return watch;
    }
    SlotWatch {
        unfed: false,
        ..watch
    }
}

/// Whether this is the id.
fn is_id(id: Option<u32>, expected: u32) -> bool
    ensures { result ≡ is_id id expected }
{
    match id {
        Some(id) => id == expected,
        None => false,
    }
}

/// Whether the data of a slot, whose connection timed out, never came, as where its host does not receive the group.
fn is_starved(watch: SlotWatch) -> bool
    ensures { result ≡ is_starved watch }
{
    watch.multicast && watch.unfed
}
