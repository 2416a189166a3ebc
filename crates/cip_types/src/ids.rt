//! Connection ids that a device draws: the blocks that it holds, and the id of each number.

ghost use Rattle.std.specs.Prelude.{◌≡◌, ◌<◌, ◌≤◌, ◌∷◌, [], true, IfOk, OnOk, OnErr};
ghost use Rattle.std.specs.List.{list_any};
ghost use Rattle.cip_types.specs.Ids.{are_blocks, are_ids, end_number, end_of, first_block, id_at, ids_behind, ids_left, ids_of_incarnation, is_apart, is_block, is_continued, may_take, part_of_ids, shares_ids, with_block};

use crate::OutOfMemory;
use crate::limits::{IDS_PER_INCARNATION, MOST_ID_BLOCKS};
use crate::names::ConnId;
use std::alloc::Global;

/// A block of connection ids that follow one another: the first, and how many they are.
///
/// Volume 1, chapter 3, network connection ids.
#[derive(Clone, Copy, PartialEq, Eq)]
pub struct IdBlock {
    pub first: u32,
    pub count: u32,
}

impl IdBlock {
    /// The ids that begin with an incarnation: its byte is their high byte, and their low 24 bits count from 1.
    pub fn of_incarnation(incarnation: u8) -> IdBlock
        ensures { result ≡ ids_of_incarnation incarnation }
    {
        IdBlock {
            first: u32::from(incarnation) * IDS_PER_INCARNATION + 1,
            count: IDS_PER_INCARNATION - 1,
        }
    }

    /// The first number behind the block.
    pub fn end(&self) -> u64
        ensures { result ≡ end_of self.now }
    {
        u64::from(self.first) + u64::from(self.count)
    }

    /// Whether no id of the block is 0, and each has 32 bits.
    pub fn is_block(&self) -> bool
        ensures { result ≡ is_block self.now }
    {
        self.first >= 1 && self.end() <= 1 << 32
    }

    /// Whether an id is of both blocks.
    pub fn shares_ids(&self, other: &IdBlock) -> bool
        ensures { result ≡ shares_ids self.now other.now }
    {
        let first = self.first.max(other.first);
        u64::from(first) < self.end().min(other.end())
    }
}

/// The block that a device begins with: the one that its profile states, or the ids of its incarnation.
pub fn first_block(incarnation: u8, ids: Option<IdBlock>) -> IdBlock
    ensures { result ≡ first_block incarnation ids }
{
    match ids {
        Some(block) => block,
        None => IdBlock::of_incarnation(incarnation),
    }
}

/// Whether the incarnation is not 0, and the ids that a device begins with are a block.
pub fn are_ids(incarnation: u8, ids: Option<IdBlock>) -> bool
    ensures { result ≡ are_ids incarnation ids }
{
    incarnation != 0 && first_block(incarnation, ids).is_block()
}

/// The block of a next life, where a life has left so many ids of this one: never its first one, so that no two lives begin with
/// one id. Behind the last id of all there is none.
pub fn ids_behind(block: IdBlock, left: u32) -> IdBlock
    requires { is_block block ≡ true }
    ensures { result ≡ ids_behind block left }
{
    let count = left.min(block.count.saturating_sub(1));
    match u32::try_from(block.end() - u64::from(count)) {
        Ok(first) => IdBlock { first, count },
        Err(_) => IdBlock {
            first: block.first,
            count: 0,
        },
    }
}

/// The ids of a device of a plant of so many devices: all ids in equal parts, as near as can be, which no two devices share.
pub fn part_of_ids(device: u32, devices: u32) -> IdBlock
    requires { device < devices }
    ensures { result ≡ part_of_ids device devices }
{
    let count = u32::MAX / devices;
    IdBlock {
        first: device * count + 1,
        count,
    }
}

/// The id of a number, from 1, at blocks that are laid one behind the other. Takes no memory.
pub fn id_at(blocks: &[IdBlock], number: u32) -> ConnId
    requires blocks { are_blocks blocks.now ≡ true }
    requires number { 1 ≤ number }
    ensures { result ≡ id_at blocks.now number }
{
    match blocks {
        [] => ConnId(0),
        [block, rest @ ..] => {
            if number <= block.count {
                ConnId(block.first + (number - 1))
            } else {
                id_at(rest, number - block.count)
            }
        }
    }
}

/// One block. OutOfMemory is the only fault.
pub fn one_block(alloc: Global, block: IdBlock) -> Result<Vec<IdBlock>, OutOfMemory>
    ensures { IfOk result (λ blocks. blocks.items ≡ block ∷ []) }
{
    let mut blocks = Vec::new(alloc);
    blocks.push(block)?;
    Ok(blocks)
}

/// The number of which there is no id any more: behind the last one of the blocks, and at most 2^32 - 1. Takes no memory.
pub fn end_number(blocks: &[IdBlock]) -> u32
    ensures { result ≡ end_number blocks.now }
{
    match blocks {
        [] => 1,
        [block, rest @ ..] => block.count.saturating_add(end_number(rest)),
    }
}

/// How many ids are left, from a number on. Takes no memory.
pub fn ids_left(blocks: &[IdBlock], number: u32) -> u32
    ensures { result ≡ ids_left blocks.now number }
{
    end_number(blocks).saturating_sub(number)
}

/// Whether a device that holds these blocks can take a further one: it is a block, it has no id of theirs, and they are not the
/// most yet. Takes no memory.
pub fn may_take(blocks: &[IdBlock], block: IdBlock) -> bool
    ensures { result ≡ may_take blocks.now block }
{
    is_apart(blocks, block) && blocks.len() < MOST_ID_BLOCKS
}

/// Whether it is a block, and has no id of these ones.
fn is_apart(blocks: &[IdBlock], block: IdBlock) -> bool
    ensures { result ≡ is_apart blocks.now block }
{
    block.is_block() && !shares_any(blocks, block)
}

/// Whether the block has an id of one of these.
fn shares_any(blocks: &[IdBlock], block: IdBlock) -> bool
    ensures { result ≡ list_any (shares_ids block) blocks.now }
{
    blocks.iter().any(|other| block.shares_ids(other))
}

/// Adds a further block. One that begins where the last one ends continues it, and takes no memory. Without memory for it the
/// blocks stay.
pub fn add_block(blocks: &mut Vec<IdBlock>, block: IdBlock) -> Result<(), OutOfMemory>
    requires blocks { are_blocks blocks.old.items ≡ true }
    requires further { may_take blocks.old.items block ≡ true }
    ensures ok { OnOk result (blocks.new.items ≡ with_block blocks.old.items block) }
    ensures err { OnErr result (blocks.new.items ≡ blocks.old.items) }
{
    if is_continued(blocks, block) {
        let last = blocks.len() - 1;
        blocks[last].count += block.count;
        return Ok(());
    }
    blocks.push(block)?;
    Ok(())
}

/// Whether a block begins where the last one ends.
fn is_continued(blocks: &[IdBlock], block: IdBlock) -> bool
    ensures { result ≡ is_continued blocks.now block }
{
    match blocks.last() {
        Some(last) => last.end() == u64::from(block.first),
        None => false,
    }
}
