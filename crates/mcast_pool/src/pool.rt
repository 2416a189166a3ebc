//! The producers of a device's connections.

ghost use Rattle.std.specs.Prelude.{◌≡◌, ◌≤◌, ◌<◌, ◌+◌, ◌^◌, ◌++◌, [], Some, None, length, map, true, IfOk, vec_len, vec_capacity};
ghost use Rattle.std.specs.Option.{option_map};
ghost use Rattle.cip_datagram.specs.Datagram.{datagram_text};
ghost use Rattle.cip_productions.specs.Productions.{production_datagram};
ghost use Rattle.mcast_pool.specs.Groups.{has_number, begun, production_of, producer_of, touched, produced_group, produced_if_due, written_and_changed, numbered, IsInUse, subscribers, joined_group, change_first, joined_by, joined, left, is_last, first_due, FitsGroup, MayProduce, AreGroups};

use crate::group::{
    Group, begun, has_number, produce_if_due, produced_group, touched, write_group,
};
use crate::groups::{find_with_hint, index_for, index_of, index_with_hint, subscribe, unsubscribe};
use cip_datagram::{Datagram, write_datagram};
use cip_productions::{Producer, Production, next_count};
use cip_types::{ConnId, Ms, OutOfMemory};
use std::alloc::Global;
use std::marker::Model;

/// The most connections that the producers of a device serve.
///
/// Volume 1, chapter 3, Connection Manager object: how many connections there can be is the device's
/// choice.
pub const MOST_SUBSCRIBERS: usize = 64;

/// The producers of a device's connections, which contracts see as their groups in the order in which they
/// started. Only `new` takes memory.
///
/// Volume 1, chapter 3, class 1 transport; Volume 2, chapter 3, multicast connections.
#[derive(Drop)]
pub struct Pool {
    groups: Vec<Group>,
}

impl Model for Pool {
    ghost use Rattle.std.specs.Prelude.{List};
    ghost use Rattle.mcast_pool.specs.declared.group.Group.{Group};
    ghost use Rattle.std.specs.Prelude.{vec_capacity};
    ghost use Rattle.mcast_pool.specs.Groups.{IsPool};

    ghost Value = { List Group };

    ghost view = { λ p. p.groups.items };

    ghost invariant = { λ p. IsPool p.groups.items (vec_capacity p.groups) };
}

/// What a joining connection receives: the connection id and the number of its producer, and whether it starts it.
#[derive(Clone, Copy)]
pub struct Joined {
    pub id: ConnId,
    pub number: u32,
    pub fresh: bool,
}

/// What a connection that joins this producer receives.
fn join_result(producer: &Producer, fresh: bool) -> Joined
    ensures { result ≡ record { id = producer.now.id; number = producer.now.production.producer; fresh = fresh } }
{
    Joined {
        id: producer.id,
        number: producer.production.producer,
        fresh,
    }
}

/// Appends the next datagram of a producer, with these data. Takes no memory.
fn append_datagram(producer: &Producer, input: &[u8], out: &mut Vec<u8>)
    requires short { length input.now ≤ 65533 }
    requires space { vec_len out.old + (20 + length input.now) ≤ vec_capacity out.old }
    ensures { out.new.items
        ≡ out.old.items ++ datagram_text (production_datagram producer.now.id producer.now.production input.now) }
{
    let datagram = Datagram {
        connection: producer.id,
        sequence: producer.production.sequence,
        count: next_count(&producer.production),
        data: input,
    };
    write_datagram(&datagram, out);
}

impl Pool {
    /// No producers, with capacity for the most that there can be. Out of memory is the only fault.
    pub fn new(alloc: Global) -> Result<Self, OutOfMemory>
        ensures { IfOk result (λ pool. pool ≡ []) }
    {
        Ok(Pool {
            groups: Vec::with_capacity(alloc, MOST_SUBSCRIBERS)?,
        })
    }

    /// How many producers there are. Takes no memory.
    pub fn len(&self) -> usize
        ensures len { result ≡ length self.now }
        ensures groups { AreGroups self.now }
        ensures few { subscribers self.now ≤ 64 }
    {
        self.groups.len()
    }

    /// The producers, in the order in which they began. Takes no memory.
    pub fn as_slice(&self) -> &[Group]
        ensures groups { result.now ≡ self.now }
        ensures sound { AreGroups self.now }
    {
        &self.groups
    }

    /// The group of a producer's number. Takes no memory.
    pub fn group(&self, number: u32) -> Option<Group>
        ensures { result ≡ numbered number self.now }
    {
        self.group_with_hint(number, 0)
    }

    /// The same. The search tries one index first. Takes no memory.
    pub fn group_with_hint(&self, number: u32, hint: usize) -> Option<Group>
        ensures { result ≡ numbered number self.now }
    {
        find_with_hint(&self.groups, number, hint)
    }

    /// A connection joins the group of its producer's point, if it shares its producer and there is such a group;
    /// else it starts its own producer, with its own id, number and production. Takes no memory.
    ///
    /// Volume 2, chapter 3, multicast connections.
    pub fn join(&mut self, producer: Producer, shared: bool, api: u32) -> Joined
        requires few { subscribers self.old < 64 }
        requires fits { FitsGroup (begun producer shared api) }
        requires unused { joined_group shared producer.point self.old ≡ None
            → numbered producer.production.producer self.old ≡ None }
        ensures joined { result ≡ joined_by producer (joined_group shared producer.point self.old) }
        ensures groups { self.new ≡ joined (begun producer shared api) self.old }
    {
        match index_for(&self.groups, shared, producer.point) {
            Some(at) => {
                let serving = subscribe(&mut self.groups, at, producer.point);
                join_result(&serving, false)
            }
            None => {
                self.groups.push_reserved(begun(producer, shared, api));
                join_result(&producer, true)
            }
        }
    }

    /// A connection leaves its producer, which is removed with its last connection. True if it is removed. Takes no
    /// memory.
    pub fn leave(&mut self, number: u32) -> bool
        requires { IsInUse number self.old }
        ensures last { Some result ≡ option_map is_last (numbered number self.old) }
        ensures groups { self.new ≡ left number self.old }
    {
        self.leave_with_hint(number, 0)
    }

    /// The same; the search for the producer tries one index first. Takes no memory.
    pub fn leave_with_hint(&mut self, number: u32, hint: usize) -> bool
        requires { IsInUse number self.old }
        ensures last { Some result ≡ option_map is_last (numbered number self.old) }
        ensures groups { self.new ≡ left number self.old }
    {
        // The number is in use, so its group is in the list.
        let at = index_with_hint(&self.groups, number, hint).unwrap();
        unsubscribe(&mut self.groups, number, at)
    }

    /// The producers of a point have new data. One that produces at changes of state, and whose inhibit time runs,
    /// is due at its end. Takes no memory.
    ///
    /// Volume 1, chapter 3, production triggers and production inhibit time.
    pub fn touched(&mut self, point: u32, clock: Ms)
        requires { clock.0 ≤ 2 ^ 48 }
        ensures { self.new ≡ map (touched clock point) self.old }
    {
        for group in self.groups.iter_mut() {
            *group = touched(*group, clock, point);
        }
    }

    /// A producer produces: it appends its next datagram with these data (a run/idle header among them, if it has
    /// one), and has produced. Takes no memory.
    ///
    /// Volume 1, chapter 3, class 1 transport; Volume 2, chapter 2, sequenced address item.
    pub fn produce(&mut self, number: u32, clock: Ms, input: &[u8], out: &mut Vec<u8>)
        requires time { clock.0 ≤ 2 ^ 48 }
        requires may { MayProduce clock (numbered number self.old) }
        requires short { length input.now ≤ 65533 }
        requires space { vec_len out.old + (20 + length input.now) ≤ vec_capacity out.old }
        ensures datagram { Some out.new.items
            ≡ option_map (λ group. out.old.items
            ++ datagram_text (production_datagram group.producer.id group.producer.production input.now))
            (numbered number self.old) }
        ensures groups { self.new ≡ change_first (has_number number) (produced_group clock) self.old }
    {
        // The producer may produce, so its group is in the list.
        let at = index_of(&self.groups, number).unwrap();
        let group = &mut self.groups[at];
        append_datagram(&group.producer, input, out);
        *group = produced_group(*group, clock);
    }

    /// All producers that are due have produced. Takes no memory.
    ///
    /// Volume 1, chapter 3, production triggers.
    pub fn produce_due(&mut self, clock: Ms)
        requires { clock.0 ≤ 2 ^ 48 }
        ensures { self.new ≡ map (produced_if_due clock) self.old }
    {
        for group in self.groups.iter_mut() {
            produce_if_due(group, clock);
        }
    }

    /// The producers of a point have new data, and those that a change of state makes produce at once have
    /// produced. Takes no memory.
    ///
    /// Volume 1, chapter 3, production triggers and production inhibit time.
    pub fn write(&mut self, point: u32, clock: Ms)
        requires { clock.0 ≤ 2 ^ 48 }
        ensures { self.new ≡ map (written_and_changed clock point) self.old }
    {
        for group in self.groups.iter_mut() {
            write_group(group, clock, point);
        }
    }

    /// When the first producer is due; `u64::MAX` if there is none. Takes no memory.
    pub fn first_due(&self) -> u64
        ensures { result ≡ first_due self.now }
    {
        let mut first = u64::MAX;
        for at in (0..self.groups.len()).rev() {
            first = first.min(self.groups[at].producer.production.due.0);
        }
        first
    }

    /// When a producer is due. Takes no memory.
    pub fn due(&self, number: u32) -> Ms
        requires { IsInUse number self.now }
        ensures { Some result ≡ option_map (λ group. group.producer.production.due) (numbered number self.now) }
    {
        self.production(number).due
    }

    /// The production of a producer. The search tries one index first. Takes no memory.
    #[inline(always)]
    pub fn production_with_hint(&self, number: u32, hint: usize) -> Production
        requires { IsInUse number self.now }
        ensures { Some result ≡ option_map production_of (numbered number self.now) }
    {
        self.producer_with_hint(number, hint).production
    }

    /// The producer of a number. The search tries one index first. Takes no memory.
    #[inline(always)]
    pub fn producer_with_hint(&self, number: u32, hint: usize) -> Producer
        requires { IsInUse number self.now }
        ensures { Some result ≡ option_map producer_of (numbered number self.now) }
    {
        // The number is in use, so its group is in the list.
        find_with_hint(&self.groups, number, hint).unwrap().producer
    }

    /// The index to try first for the producer after this one: the next one, if this one is at the index. Takes no
    /// memory.
    #[inline(always)]
    pub fn hint_after(&self, number: u32, hint: usize) -> usize
        ensures { result ≤ hint + 1 }
    {
        match self.groups.get(hint) {
            Some(group) if has_number(group, number) => hint.saturating_add(1),
            _ => hint,
        }
    }

    /// The production of a producer. Takes no memory.
    pub fn production(&self, number: u32) -> Production
        requires { IsInUse number self.now }
        ensures { Some result ≡ option_map production_of (numbered number self.now) }
    {
        self.production_with_hint(number, 0)
    }
}
