//! How far the placing of events has come, and one event more.

ghost use Rattle.std.specs.Prelude.{◌≡◌, ◌<◌, ◌+◌, [], ◌∷◌, ◌++◌, List, Option, Ok, IsOk, IfOk, OnOk, IfSome, IfNone, OnSome, MatchBool, length, replicate, set, slice_index};
ghost use Rattle.cip_events.specs.declared.event.Event.{Event};
ghost use Rattle.cip_events.specs.declared.event.Event.TheVariants.{StreamCut};
ghost use Rattle.segment_world.specs.declared.transit.direction.Direction.{Direction};
ghost use Rattle.segment_world.specs.declared.act.Act.TheVariants as act;
ghost use Rattle.segment_world.specs.World.{ReportedEvent, happens};
ghost use Rattle.settling.specs.declared.search.cause.Search.TheVariants as seek;
ghost use Rattle.settling.specs.Search.Causes.{CanCome, Causes, CutReaches};
ghost use Rattle.settling.specs.Search.Histories.{events_of_all};
ghost use Rattle.settling.specs.Search.Placements.{rest, CausesNext, FewerLeft, IsReachable, Moved, Preserves, StuckHere};
ghost use Rattle.settling.specs.Search.Schedules.{IsPermitted};

use crate::search::cause::{Search, cause};
use crate::search::cut::cut_way;
use crate::search::histories::{events_left, events_of, placed_at};
use cip_tables::{Device, Event, StepFault};
use cip_types::OutOfMemory;
use device_lock::History;
use segment_world::{Act, ActFault, Direction, World};
use std::alloc::Global;
use std::marker::Model;

/// A world, the acts that led to it, and how many events of each device are placed. Beside them, for each device, the
/// place among the sent datagrams where its next one is looked for first.
#[derive(Drop)]
pub struct Placement<D: Device + Drop> {
    world: World<D>,
    acts: Vec<Act>,
    placed: Vec<usize>,
    search_from: Vec<usize>,
}

impl<D: Device + Drop> Model for Placement<D> {
    ghost use Rattle.settling.specs.Search.Placements.{Placement as Placed};

    ghost Value = { Placed };

    ghost view = { λ p. record { world = p.world; acts = p.acts.items; placed = p.placed.items } };

    ghost invariant = { λ _. Unit {0} };
}

/// One act that can be done.
pub fn perform<D: Device + Drop>(
    world: &mut World<D>,
    acts: &mut Vec<Act>,
    act: Act,
) -> Result<(), OutOfMemory>
    requires { IsOk (happens world.old act) }
    ensures acts { OnOk result (acts.new.items ≡ acts.old.items ++ act ∷ []) }
    ensures world { OnOk result
        ((reported : Option ReportedEvent) × (happens world.old act ≡ Ok (reported, world.new))) }
{
    match world.act(&act) {
        Ok(_) => {
            acts.push(act)?;
            Ok(())
        }
        Err(ActFault::OutOfMemory) => Err(OutOfMemory),
        Err(ActFault::Step(StepFault::OutOfMemory)) => Err(OutOfMemory),
        Err(_) => unreachable!(),
    }
}

/// One event more of a device is placed, of at most so many.
fn place_more(placed: &mut Vec<usize>, device: u32, most: usize)
    requires device { device < length placed.old.items }
    requires more { slice_index placed.old.items device < most }
    ensures { placed.new.items ≡ set placed.old.items device (slice_index placed.old.items device + 1) }
{
    placed[device as usize] += 1;
}

fn set_place(places: &mut Vec<usize>, device: u32, place: usize) {
    if let Some(known) = places.get_mut(device as usize) {
        *known = place;
    }
}

impl<D: Device + Drop> Placement<D> {
    /// No event is placed.
    pub fn new(alloc: Global, world: World<D>, devices: usize) -> Result<Placement<D>, OutOfMemory>
        ensures { IfOk result (λ p. p ≡ record { world = world; acts = []; placed = replicate devices 0 }) }
    {
        Ok(Placement {
            world,
            acts: Vec::new(alloc),
            placed: vec![in alloc; 0; devices]?,
            search_from: vec![in alloc; 0; devices]?,
        })
    }

    /// The acts. Takes no memory.
    pub fn into_acts(self) -> Vec<Act>
        ensures { result.items ≡ self.acts }
    {
        let Placement {
            world: _,
            acts,
            placed: _,
            search_from: _,
        } = self;
        acts
    }

    /// How many events of a device are placed. Takes no memory.
    pub fn place_of(&self, device: u32) -> usize
        ensures { result ≡ slice_index self.now.placed device }
    {
        placed_at(&self.placed, device)
    }

    /// The next event of a device. Takes no memory.
    pub fn next<'a>(&self, histories: &'a [History], device: u32) -> Option<&'a Event>
        ensures none { IfNone result (rest (events_of_all histories.now) self.now.placed device ≡ []) }
        ensures some { IfSome result
            (λ e. (es : List Event) × (rest (events_of_all histories.now) self.now.placed device ≡ e.now ∷ es)) }
    {
        match events_left(histories, &self.placed, device) {
            [] => None,
            [event, ..] => Some(event),
        }
    }

    /// The act that brings the device this event now.
    fn cause_of(
        &self,
        alloc: Global,
        device: u32,
        event: &Event,
        search: Search,
    ) -> Result<Option<Act>, OutOfMemory>
        requires device { device < length self.now.world.tables }
        ensures none { IfOk result (λ o. IfNone o (search ≡ seek.All → CanCome self.now.world device event.now → ⊥)) }
        ensures some { IfOk result (λ o. IfSome o (Causes self.now.world device event.now)) }
    {
        cause(alloc, &self.world, device, event, search)
    }

    /// The direction in which a cut of this stream, where it may be made, brings its mark to the device.
    fn way_of(&self, histories: &[History], stream: u16, device: u32) -> Option<Direction>
        ensures none { IfNone result
            (IsPermitted (rest (events_of_all histories.now) self.now.placed) self.now.world (act.CutStream stream)
            → (d : Direction) → CutReaches self.now.world stream device d → ⊥) }
        ensures may { OnSome result
            (IsPermitted (rest (events_of_all histories.now) self.now.placed) self.now.world (act.CutStream stream)) }
        ensures reaches { IfSome result (CutReaches self.now.world stream device) }
    {
        cut_way(&self.world, histories, &self.placed, stream, device)
    }

    /// Where the next datagram of a device is looked for first.
    fn search_near(&self, device: u32) -> Search {
        Search::Near(placed_at(&self.search_from, device))
    }

    /// Notes where the next datagram of a device is to be looked for first: behind the one that an act delivers, or, where
    /// a search found none, among those that are still to be sent.
    fn note_search(&mut self, device: u32, event: &Event, act: Option<&Act>)
        ensures { self.new ≡ self.old }
    {
        let place = match (event, act) {
            (_, Some(Act::Deliver { index, .. })) => index.saturating_add(1),
            (Event::Datagram { .. }, None) => self.world.sent_count(),
            _ => return,
        };
        set_place(&mut self.search_from, device, place);
    }

    /// The act, which brings the device its next event.
    fn place_event(
        &mut self,
        histories: &[History],
        device: u32,
        act: Act,
    ) -> Result<(), OutOfMemory>
        requires device { device < length histories.now }
        requires reachable { IsReachable (events_of_all histories.now) self.old }
        requires causes { CausesNext (events_of_all histories.now) self.old device act }
        ensures kept { OnOk result (Preserves (events_of_all histories.now) self.old self.new) }
        ensures less { OnOk result (FewerLeft (events_of_all histories.now) self.old self.new) }
    {
        let most = events_of(histories, device).len();
        perform(&mut self.world, &mut self.acts, act)?;
        place_more(&mut self.placed, device, most);
        Ok(())
    }

    /// A cut, whose mark reaches the device in this direction.
    fn cut_stream(
        &mut self,
        _histories: &[History],
        _device: u32,
        stream: u16,
        _direction: Direction,
    ) -> Result<(), OutOfMemory>
        requires reachable { IsReachable (events_of_all _histories.now) self.old }
        requires may { IsPermitted (rest (events_of_all _histories.now) self.old.placed) self.old.world
            (act.CutStream stream) }
        requires reaches { CutReaches self.old.world stream _device _direction }
        ensures kept { OnOk result (Preserves (events_of_all _histories.now) self.old self.new) }
        ensures causes { OnOk result
            (Causes self.new.world _device (StreamCut stream) (act.NextFrame stream _direction)) }
        ensures placed { OnOk result (self.new.placed ≡ self.old.placed) }
    {
        perform(&mut self.world, &mut self.acts, Act::CutStream { stream })?;
        Ok(())
    }

    /// Places the next event of a device, if an act brings it now, and, where it is a datagram, a short search finds
    /// it.
    pub fn try_near(
        &mut self,
        alloc: Global,
        histories: &[History],
        device: u32,
    ) -> Result<bool, OutOfMemory>
        requires device { device < length histories.now }
        requires reachable { IsReachable (events_of_all histories.now) self.old }
        ensures kept { OnOk result (Preserves (events_of_all histories.now) self.old self.new) }
        ensures moved { IfOk result (Moved (events_of_all histories.now) self.old self.new) }
    {
        let Some(event) = self.next(histories, device) else {
            return Ok(false);
        };
        let found = self.cause_of(alloc, device, event, self.search_near(device))?;
        self.note_search(device, event, found.as_ref());
        let Some(act) = found else {
            return Ok(false);
        };
        self.place_event(histories, device, act)?;
        Ok(true)
    }

    /// Places the next event of a device, by an act now, or after one cut that may be made. Without one nothing
    /// changes.
    pub fn try_all(
        &mut self,
        alloc: Global,
        histories: &[History],
        device: u32,
    ) -> Result<bool, OutOfMemory>
        requires device { device < length histories.now }
        requires reachable { IsReachable (events_of_all histories.now) self.old }
        ensures kept { OnOk result (Preserves (events_of_all histories.now) self.old self.new) }
        ensures moved { IfOk result
            (λ moved. MatchBool moved (FewerLeft (events_of_all histories.now) self.old self.new)
            ((self.new ≡ self.old) × StuckHere (events_of_all histories.now) self.old device)) }
    {
        let Some(event) = self.next(histories, device) else {
            return Ok(false);
        };
        if let Some(act) = self.cause_of(alloc, device, event, Search::All)? {
            self.note_search(device, event, Some(&act));
            self.place_event(histories, device, act)?;
            return Ok(true);
        }
        let Event::StreamCut { stream } = event else {
            return Ok(false);
        };
        let Some(direction) = self.way_of(histories, *stream, device) else {
            return Ok(false);
        };
        self.cut_stream(histories, device, *stream, direction)?;
        self.place_event(
            histories,
            device,
            Act::NextFrame {
                stream: *stream,
                direction,
            },
        )?;
        Ok(true)
    }
}
