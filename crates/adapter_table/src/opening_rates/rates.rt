//! The openings of each node in its second.

ghost use Rattle.std.specs.Prelude.{◌≡◌, filter, find, IfOk};
ghost use Rattle.adapter_table.specs.OpeningRates.Rates.{count_in, counted, counted_openings, has_opened_enough, is_of, one_more, runs, runs_for, runs_for_another, with_room};

use cip_types::{Ms, Node, OutOfMemory};
use std::alloc::Global;

/// The milliseconds of a node's second.
const NODE_SECOND_MS: u64 = 1_000;

/// The most nodes whose openings are counted.
const MOST_NODES: usize = 64;

/// How many connections of either class a node has opened in the 1,000 ms from the first of them on, and the time of
/// that one.
///
/// Volume 1, chapter 3, Connection Manager object.
#[derive(Clone, Copy, PartialEq, Eq)]
pub struct NodeOpenings {
    pub node: Node,
    pub since: Ms,
    pub count: u16,
}

impl NodeOpenings {
    /// Whether the second runs: it began less than 1,000 ms ago.
    fn runs(&self, clock: Ms) -> bool
        ensures { result ≡ runs clock self.now }
    {
        clock.0.saturating_sub(self.since.0) < NODE_SECOND_MS
    }

    fn is_of(&self, node: Node) -> bool
        ensures { result ≡ is_of node self.now }
    {
        self.node.0 == node.0
    }

    fn runs_for(&self, clock: Ms, node: Node) -> bool
        ensures { result ≡ runs_for clock node self.now }
    {
        self.runs(clock) && self.is_of(node)
    }

    fn runs_for_another(&self, clock: Ms, node: Node) -> bool
        ensures { result ≡ runs_for_another clock node self.now }
    {
        self.runs(clock) && !self.is_of(node)
    }
}

/// The openings of a node in its second, if that runs.
fn find_running(openings: &[NodeOpenings], clock: Ms, node: Node) -> Option<NodeOpenings>
    ensures { result ≡ find (runs_for clock node) openings.now }
{
    openings
        .iter()
        .copied()
        .find(|counted| counted.runs_for(clock, node))
}

fn count_in(found: Option<NodeOpenings>) -> u16
    ensures { result ≡ count_in found }
{
    match found {
        Some(counted) => counted.count,
        None => 0,
    }
}

/// Whether a node has opened as many connections in its second as it can, if that is stated. Takes no memory.
///
/// Volume 1, chapter 3, Connection Manager object.
pub fn has_opened_enough(
    most: Option<u16>,
    clock: Ms,
    node: Node,
    openings: &[NodeOpenings],
) -> bool
    ensures { result ≡ has_opened_enough most clock node openings.now }
{
    match most {
        Some(most) => most <= count_in(find_running(openings, clock, node)),
        None => false,
    }
}

/// With one opening more, of the second that runs, or of one that begins now.
fn one_more(clock: Ms, node: Node, found: Option<NodeOpenings>) -> NodeOpenings
    ensures { result ≡ one_more clock node found }
{
    match found {
        Some(counted) => NodeOpenings {
            count: counted.count.saturating_add(1),
            ..counted
        },
        None => NodeOpenings {
            node,
            since: clock,
            count: 1,
        },
    }
}

/// The other nodes whose seconds run.
fn running_others(
    alloc: Global,
    clock: Ms,
    node: Node,
    openings: &[NodeOpenings],
) -> Result<Vec<NodeOpenings>, OutOfMemory>
    ensures { IfOk result (λ others. others.items ≡ filter (runs_for_another clock node) openings.now) }
{
    let mut others = Vec::new(alloc);
    for counted in openings {
        if counted.runs_for_another(clock, node) {
            others.push(*counted)?;
        }
    }
    Ok(others)
}

/// The first of 64 nodes makes room. Takes no memory.
fn make_room(openings: &mut Vec<NodeOpenings>)
    ensures { openings.new.items ≡ with_room openings.old.items }
{
    if openings.len() >= MOST_NODES {
        let _first = openings.remove(0);
    }
}

/// The openings with one more, of a node that can open. `OutOfMemory` is the only error.
fn counted(
    alloc: Global,
    clock: Ms,
    node: Node,
    openings: &[NodeOpenings],
) -> Result<Vec<NodeOpenings>, OutOfMemory>
    ensures { IfOk result (λ next. next.items ≡ counted clock node openings.now) }
{
    let mut next = running_others(alloc, clock, node, openings)?;
    make_room(&mut next);
    next.push(one_more(clock, node, find_running(openings, clock, node)))?;
    Ok(next)
}

/// The openings once a node has opened a connection, which is counted where it is stated how many there can be.
/// `OutOfMemory` is the only error.
///
/// Volume 1, chapter 3, Connection Manager object.
pub fn counted_openings(
    alloc: Global,
    most: Option<u16>,
    clock: Ms,
    node: Node,
    openings: &[NodeOpenings],
) -> Result<Vec<NodeOpenings>, OutOfMemory>
    ensures { IfOk result (λ next. next.items ≡ counted_openings most clock node openings.now) }
{
    match most {
        Some(_) => counted(alloc, clock, node, openings),
        None => Ok(Vec::from_slice(alloc, openings)?),
    }
}
