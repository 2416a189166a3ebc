//! The network of a story, and the lines of its acts.

ghost use Rattle.cip_tables.specs.Step.{AcceptsAll};

use crate::story::{StoryAct, StoryName};
use cip_events::{Answer, Event, Outcome, StepFault};
use cip_tables::{Config, Device};
use cip_types::OutOfMemory;
use segment_world::{Act, ActFault, Call, Direction, Plant, RestartFault, WorldFault, receiver_of};
use std::alloc::Global;
use std::fmt::Display;
use trace_outcomes::write_outcome;

/// The devices of a story on their network, how many events each has had, and the lines of its acts so far.
#[derive(Drop)]
pub(crate) struct PlayedWorld<D: Device + Drop> {
    alloc: Global,
    plant: Plant<D>,
    names: Vec<StoryName>,
    events: Vec<u64>,
    text: String,
}

impl<D: Device + Drop> PlayedWorld<D> {
    /// Fresh devices. The faults are those of their network.
    pub fn new(
        alloc: Global,
        names: Vec<StoryName>,
        configs: Vec<Config>,
    ) -> Result<PlayedWorld<D>, WorldFault>
        requires accepts { AcceptsAll D.accepts }
    {
        let Ok(events) = vec![in alloc; 0; names.len()] else {
            return Err(WorldFault::OutOfMemory);
        };
        Ok(PlayedWorld {
            alloc,
            plant: Plant::new(alloc, configs)?,
            names,
            events,
            text: String::new(alloc),
        })
    }

    /// The lines of the acts so far.
    pub fn text(&self) -> &str {
        self.text.as_str()
    }

    /// Forgets the lines of the acts so far.
    pub fn clear(&mut self) {
        self.text.clear();
    }

    /// Performs an act of a device. Appends the outcome of the event that it makes behind the device's name, as in its trace,
    /// or the reason why the act was refused. OutOfMemory is the only fault.
    pub fn perform(&mut self, device: usize, act: &StoryAct) -> Result<(), OutOfMemory>
        requires accepts { AcceptsAll D.accepts }
    {
        let place = place_of(device);
        match act {
            StoryAct::Opens(to) => self.act(
                place,
                &Act::OpenStream {
                    from: place,
                    to: place_of(*to),
                },
            ),
            StoryAct::Forth(stream) => self.take_frame(place, *stream, Direction::Forth),
            StoryAct::Back(stream) => self.take_frame(place, *stream, Direction::Back),
            StoryAct::Takes(index) => self.act(
                place,
                &Act::Deliver {
                    index: *index as usize,
                    device: place,
                },
            ),
            StoryAct::Cuts(stream) => self.cut(place, *stream),
            StoryAct::Restarts(incarnation) => self.restart(place, *incarnation),
            StoryAct::Own(event) => self.call(place, event),
        }
    }

    fn act(&mut self, device: u32, act: &Act) -> Result<(), OutOfMemory> {
        match self.plant.act(act) {
            Ok(Some(answer)) => self.push_answer(device, answer),
            Ok(None) => Ok(()),
            Err(ActFault::OutOfMemory | ActFault::Step(StepFault::OutOfMemory)) => Err(OutOfMemory),
            Err(fault) => self.push_refusal(fault),
        }
    }

    fn call(&mut self, device: u32, event: &Event) -> Result<(), OutOfMemory> {
        match Call::of_event(self.alloc, event)? {
            Some(call) => self.act(device, &Act::Local { device, call }),
            None => Ok(()),
        }
    }

    /// The device takes from a direction of a stream. It is to be the one at the end of that direction.
    fn take_frame(
        &mut self,
        device: u32,
        stream: u16,
        direction: Direction,
    ) -> Result<(), OutOfMemory> {
        if let Some(ends) = self.plant.world().endpoints(stream) {
            let life = receiver_of(ends, direction);
            if self.plant.is_living(life) && self.plant.life(device) != Some(life) {
                return self.push_refusal(ActFault::NoSuchStream);
            }
        }
        self.act(device, &Act::NextFrame { stream, direction })
    }

    /// A stream of the device breaks.
    fn cut(&mut self, device: u32, stream: u16) -> Result<(), OutOfMemory> {
        if let Some(ends) = self.plant.world().endpoints(stream) {
            let life = self.plant.life(device);
            if life != Some(ends.from) && life != Some(ends.to) {
                return self.push_refusal(ActFault::NoSuchStream);
            }
        }
        self.act(device, &Act::CutStream { stream })
    }

    fn restart(&mut self, device: u32, incarnation: u8) -> Result<(), OutOfMemory>
        requires accepts { AcceptsAll D.accepts }
    {
        match self.plant.restart(device, incarnation) {
            Ok(()) => Ok(()),
            Err(RestartFault::OutOfMemory) => Err(OutOfMemory),
            Err(fault) => self.push_refusal(fault),
        }
    }

    /// Appends the lines of an answer, each behind the name of the device.
    fn push_answer(&mut self, device: u32, answer: Answer) -> Result<(), OutOfMemory> {
        let place = device as usize;
        let (Some(name), Some(count)) = (self.names.get(place), self.events.get_mut(place)) else {
            return Ok(());
        };
        *count = count.wrapping_add(1);
        let outcome: Outcome = Ok(answer);
        let lines = write_outcome(self.alloc, *count, &outcome)?;
        push_lines(&mut self.text, name.as_str(), lines.as_str())
    }

    /// Appends the reason why an act or a restart was refused.
    fn push_refusal<F: Display + Drop>(&mut self, fault: F) -> Result<(), OutOfMemory> {
        let line = format!(in self.alloc; "{fault}\n")?;
        Ok(self.text.push_str(line.as_str())?)
    }
}

/// The index of a device in the network.
fn place_of(device: usize) -> u32 {
    u32::try_from(device).unwrap_or(u32::MAX)
}

/// Appends lines, each behind a name.
fn push_lines(text: &mut String, name: &str, lines: &str) -> Result<(), OutOfMemory> {
    for line in lines.lines() {
        text.push_str(name)?;
        text.push(' ')?;
        text.push_str(line)?;
        text.push('\n')?;
    }
    Ok(())
}
