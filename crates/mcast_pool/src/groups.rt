//! Groups, in the order in which they started.

ghost use Rattle.std.specs.Prelude.{◌≡◌, ◌+◌, ◌<◌, Some, find, vec_capacity};
ghost use Rattle.std.specs.List.{position};
ghost use Rattle.std.specs.Option.{option_map};
ghost use Rattle.mcast_pool.specs.Groups.{has_number, serves, producer_of, one_more, change_first, left, is_last, numbered, index_for, subscribers, AreGroups};

use crate::group::{Group, has_number, serves};
use cip_productions::Producer;

pub(crate) fn index_of(groups: &[Group], number: u32) -> Option<usize>
    ensures { result ≡ position (has_number number) groups.now }
{
    groups.iter().position(|group| has_number(group, number))
}

fn index_serving(groups: &[Group], point: u32) -> Option<usize>
    ensures { result ≡ position (serves point) groups.now }
{
    groups.iter().position(|group| serves(group, point))
}

/// The index of the group that a connection of the point joins, if it shares its producer.
pub(crate) fn index_for(groups: &[Group], shared: bool, point: u32) -> Option<usize>
    ensures { result ≡ index_for shared point groups.now }
{
    if shared {
        index_serving(groups, point)
    } else {
        None
    }
}

fn find_group(groups: &[Group], number: u32) -> Option<Group>
    ensures { result ≡ numbered number groups.now }
{
    groups
        .iter()
        .copied()
        .find(|group| has_number(group, number))
}

/// The group of a producer's number. The search tries one index first.
#[inline(always)]
pub(crate) fn find_with_hint(groups: &[Group], number: u32, hint: usize) -> Option<Group>
    requires { AreGroups groups.now }
    ensures { result ≡ numbered number groups.now }
{
    if hint >= groups.len() || !has_number(&groups[hint], number) {
        return find_group(groups, number);
    }
    Some(groups[hint])
}

/// The index of the group of a producer's number. The search tries one index first.
pub(crate) fn index_with_hint(groups: &[Group], number: u32, hint: usize) -> Option<usize>
    requires { AreGroups groups.now }
    ensures { result ≡ position (has_number number) groups.now }
{
    if hint >= groups.len() || !has_number(&groups[hint], number) {
        return index_of(groups, number);
    }
    Some(hint)
}

/// Adds a connection to the group of a point, and answers its producer.
pub(crate) fn subscribe(groups: &mut Vec<Group>, at: usize, point: u32) -> Producer
    requires index { position (serves point) groups.old.items ≡ Some at }
    requires groups { AreGroups groups.old.items }
    requires few { subscribers groups.old.items < 64 }
    ensures producer { Some result ≡ option_map producer_of (find (serves point) groups.old.items) }
    ensures groups { groups.new.items ≡ change_first (serves point) one_more groups.old.items }
    ensures capacity { vec_capacity groups.new ≡ vec_capacity groups.old }
{
    let group = &mut groups[at];
    group.subscribers += 1;
    group.producer
}

/// Removes a connection from a producer, and the producer with its last one. True if that was the last.
pub(crate) fn unsubscribe(groups: &mut Vec<Group>, number: u32, at: usize) -> bool
    requires index { position (has_number number) groups.old.items ≡ Some at }
    requires groups { AreGroups groups.old.items }
    ensures last { Some result ≡ option_map is_last (numbered number groups.old.items) }
    ensures groups { groups.new.items ≡ left number groups.old.items }
    ensures capacity { vec_capacity groups.new ≡ vec_capacity groups.old }
{
    if groups[at].subscribers == 1 {
        groups.remove(at);
        true
    } else {
        let group = &mut groups[at];
        group.subscribers -= 1;
        false
    }
}
