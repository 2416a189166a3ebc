//! A plant: devices on a simulated network that restart.

ghost use Rattle.std.specs.Prelude.{◌≡◌, ◌<◌, true, None, IfOk, IfErr, OnOk, OnErr, length, slice_get};
ghost use Rattle.std.specs.Option.{IfSome};
ghost use Rattle.cip_types.specs.Ids.{is_block};
ghost use Rattle.cip_tables.specs.Step.{AcceptsAll, config_fault};
ghost use Rattle.segment_world.specs.Configs.{world_fault, IsRefused};
ghost use Rattle.segment_world.specs.Follows.{ActFollows, takes_no_memory, NeverOutOfMemory};
ghost use Rattle.segment_world.specs.declared.act.Act.TheVariants as Act;
ghost use Rattle.segment_world.specs.Lives.Plants.{opening_plant, life_of, is_living, happens_at_lives, happens_if, at_life, between_lives, frame_at};
ghost use Rattle.segment_world.specs.Lives.Restarts.{RestartFollows, ids_of_next, restarts, restarted};

use crate::lives::configs::{copies, first_lives, is_taken, number_of, with_incarnation};
use crate::lives::fault::RestartFault;
use crate::lives::severing::sever;
use crate::{
    Act, ActFault, Call, Direction, MOST_STREAM_NUMBERS, World, WorldFault, receiver_of,
    world_fault,
};
use cip_events::Answer;
use cip_tables::{Config, Device};
use cip_types::{IdBlock, OutOfMemory};
use std::alloc::Global;
use std::marker::Model;

/// Devices on a simulated network that restart. The lives of the devices are a world, in the order in which they began.
///
/// It keeps the allocator that it was made with.
#[derive(Drop)]
pub struct Plant<D: Device> {
    alloc: Global,
    world: World<D>,
    configs: Vec<Config>,
    current: Vec<u32>,
}

impl<D: Device> Model for Plant<D> {
    ghost use Rattle.std.specs.Prelude.{◌≡◌, None};
    ghost use Rattle.segment_world.specs.Configs.{first_fault};
    ghost use Rattle.segment_world.specs.Lives.Plants.{Plant as Lives};

    ghost Value = { Lives };

    ghost view = { λ p. record { world = p.world; configs = p.configs.items; current = p.current.items } };

    ghost invariant = { λ p. first_fault p.configs.items ≡ None };
}

impl<D: Device + Drop> Plant<D> {
    /// Makes a plant of fresh devices, in the order of their configurations. An error drops the configurations.
    ///
    /// The errors are those of a world, in the same order: `SameIncarnation`; `SameNode`; `Profile`; `OutOfMemory`.
    pub fn new(alloc: Global, configs: Vec<Config>) -> Result<Plant<D>, WorldFault>
        requires accepts { AcceptsAll D.accepts }
        ensures opening { IfOk result (λ plant. plant ≡ opening_plant configs.items) }
        ensures good { IfOk result (λ _. world_fault configs.items ≡ None) }
        ensures fault { IfErr result (IsRefused (world_fault configs.items)) }
    {
        if let Some(fault) = world_fault(&configs) {
            return Err(fault);
        }
        let Ok(own) = copies(alloc, &configs) else {
            return Err(WorldFault::OutOfMemory);
        };
        let Ok(current) = first_lives(alloc, &configs) else {
            return Err(WorldFault::OutOfMemory);
        };
        match World::new(alloc, configs) {
            Ok(world) => Ok(Plant {
                alloc,
                world,
                configs: own,
                current,
            }),
            Err(fault) => Err(fault),
        }
    }

    /// Restarts a device: its streams are cut, and its next life begins with a fresh table, of the configuration of its
    /// last life with this incarnation. If the profile states its connection ids, those of the next life are what the last one has
    /// left of them. What it sent is still on its way. A restart that fails leaves the plant unchanged.
    ///
    /// The errors, in order: `NoSuchDevice`; `UsedIncarnation` if a life of this plant has the incarnation, and the profile states
    /// no connection ids; `ZeroIncarnation`; `OutOfMemory`.
    pub fn restart(&mut self, device: u32, incarnation: u8) -> Result<(), RestartFault>
        requires accepts { AcceptsAll D.accepts }
        ensures { RestartFollows (restarts self.old device incarnation) self.old result self.new }
    {
        let Some(life) = self.life(device) else {
            return Err(RestartFault::NoSuchDevice);
        };
        let Some(config) = self.configs.get(life as usize) else {
            return Err(RestartFault::NoSuchDevice);
        };
        if is_taken(incarnation, config, &self.configs) {
            return Err(RestartFault::UsedIncarnation);
        }
        if incarnation == 0 {
            return Err(RestartFault::ZeroIncarnation);
        }
        let Ok(config) = config.copy(self.alloc) else {
            return Err(RestartFault::OutOfMemory);
        };
        let Ok(ids) = self.ids_behind(life, config.stated_ids()) else {
            return Err(RestartFault::OutOfMemory);
        };
        let named = with_incarnation(incarnation, config);
        let config = named.with_ids(ids);
        match self.replace(device, life, config) {
            Ok(()) => Ok(()),
            Err(_) => Err(RestartFault::OutOfMemory),
        }
    }
}

impl<D: Device> Plant<D> {
    /// The connection ids that the life behind this one states, which are a block: if it states some, what it has left of them.
    /// `OutOfMemory` is the only error.
    fn ids_behind(&self, life: u32, stated: Option<IdBlock>) -> Result<Option<IdBlock>, OutOfMemory>
        requires { IfSome stated (λ block. is_block block ≡ true) }
        ensures value { IfOk result (λ ids. ids ≡ ids_of_next self.now life stated) }
        ensures block { IfOk result (λ ids. IfSome ids (λ block. is_block block ≡ true)) }
    {
        let Some(block) = stated else {
            return Ok(None);
        };
        let Some(copied) = self.world.table(life) else {
            return Ok(Some(block));
        };
        let copy = copied?;
        let table = copy.table();
        Ok(Some(table.next_ids()))
    }
}

impl<D: Device + Drop> Plant<D> {
    /// Ends the life of a device, and begins its next one. `OutOfMemory` is the only error, and leaves the plant unchanged.
    fn replace(&mut self, device: u32, life: u32, config: Config) -> Result<(), OutOfMemory>
        requires accepts { D.accepts config ≡ true }
        requires good { config_fault config ≡ None }
        requires there { device < length self.old.current }
        ensures restarted { OnOk result (self.new ≡ restarted device life config self.old) }
        ensures kept { OnErr result (self.new ≡ self.old) }
    {
        // (a world never opens more)
        if self.world.stream_count() > MOST_STREAM_NUMBERS {
            return Err(OutOfMemory);
        }
        let own = config.copy(self.alloc)?;
        let next = number_of(self.world.len())?;
        self.configs.reserve(1)?;
        self.world.add(config)?;
        sever(&mut self.world, life);
        self.configs.push_reserved(own);
        self.current[device as usize] = next;
        Ok(())
    }
}

// ACTS

impl<D: Device> Plant<D> {
    /// Performs one act, as a world does: at the present lives of the devices that it names. An act that fails leaves the
    /// plant unchanged.
    ///
    /// The errors of each act are those of a world, in the same order. `NextFrame` also fails with `StreamEmpty` if the end
    /// that would receive is a life that has ended. `Deliver` and `CutStream` take no memory.
    pub fn act(&mut self, act: &Act) -> Result<Option<Answer>, ActFault>
        ensures follows { ActFollows (happens_at_lives self.old act.now) self.old.world result self.new.world }
        ensures lives { (self.new.configs ≡ self.old.configs) × (self.new.current ≡ self.old.current) }
        ensures no_memory { takes_no_memory act.now ≡ true → NeverOutOfMemory result }
    {
        match act {
            Act::Local { device, call } => self.local(*device, call),
            Act::Deliver { index, device } => self.deliver(*index, *device),
            Act::NextFrame { stream, direction } => self.next_frame(*stream, *direction),
            Act::OpenStream { from, to } => self.open_stream(*from, *to),
            Act::CutStream { stream } => self.world.act(&Act::CutStream { stream: *stream }),
        }
    }

    fn local(&mut self, device: u32, call: &Call) -> Result<Option<Answer>, ActFault>
        ensures follows { ActFollows
            (happens_if self.old.world (at_life (λ life. Act.Local life call.now) (life_of self.old device)))
            self.old.world result self.new.world }
        ensures lives { (self.new.configs ≡ self.old.configs) × (self.new.current ≡ self.old.current) }
    {
        match self.life(device) {
            Some(life) => self.world.local(life, call),
            None => Err(ActFault::NoSuchDevice),
        }
    }

    fn deliver(&mut self, index: usize, device: u32) -> Result<Option<Answer>, ActFault>
        ensures follows { ActFollows
            (happens_if self.old.world (at_life (λ life. Act.Deliver index life) (life_of self.old device)))
            self.old.world result self.new.world }
        ensures lives { (self.new.configs ≡ self.old.configs) × (self.new.current ≡ self.old.current) }
        ensures no_memory { NeverOutOfMemory result }
    {
        match self.life(device) {
            Some(life) => self.world.act(&Act::Deliver {
                index,
                device: life,
            }),
            None => Err(ActFault::NoSuchDevice),
        }
    }

    fn next_frame(&mut self, stream: u16, direction: Direction) -> Result<Option<Answer>, ActFault>
        ensures follows { ActFollows
            (happens_if self.old.world
            (frame_at stream direction self.old.current (slice_get self.old.world.streams stream)))
            self.old.world result self.new.world }
        ensures lives { (self.new.configs ≡ self.old.configs) × (self.new.current ≡ self.old.current) }
    {
        let Some(ends) = self.world.endpoints(stream) else {
            return Err(ActFault::NoSuchStream);
        };
        if !self.is_living(receiver_of(ends, direction)) {
            return Err(ActFault::StreamEmpty);
        }
        self.world.act(&Act::NextFrame { stream, direction })
    }

    fn open_stream(&mut self, from: u32, to: u32) -> Result<Option<Answer>, ActFault>
        ensures follows { ActFollows
            (happens_if self.old.world (between_lives (life_of self.old from) (life_of self.old to)))
            self.old.world result self.new.world }
        ensures lives { (self.new.configs ≡ self.old.configs) × (self.new.current ≡ self.old.current) }
    {
        let Some(from) = self.life(from) else {
            return Err(ActFault::NoSuchDevice);
        };
        let Some(to) = self.life(to) else {
            return Err(ActFault::NoSuchDevice);
        };
        self.world.act(&Act::OpenStream { from, to })
    }
}

// LOOK-UPS

impl<D: Device> Plant<D> {
    /// Returns the number of devices.
    pub fn len(&self) -> usize
        ensures { result ≡ length self.now.current }
    {
        self.current.len()
    }

    /// Returns the life that a device lives, if there is the device: its index in the world of the lives.
    pub fn life(&self, device: u32) -> Option<u32>
        ensures { result ≡ life_of self.now device }
    {
        self.current.get(device as usize).copied()
    }

    /// Returns whether a life has not ended.
    pub fn is_living(&self, life: u32) -> bool
        ensures { result ≡ is_living self.now.current life }
    {
        self.current.iter().any(|other| *other == life)
    }

    /// Returns the world of the lives: their tables, what was sent, and the streams.
    pub fn world(&self) -> &World<D>
        ensures { result.now ≡ self.now.world }
    {
        &self.world
    }
}
