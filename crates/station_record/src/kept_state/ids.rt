//! The connection ids of a station: from where on none was given, and the block that it reserves next.

ghost use Rattle.std.specs.Prelude.{◌≡◌, ◌+◌, ◌≤◌, ◌^◌};
ghost use Rattle.station_record.specs.KeptState.Ids.{behind, drawn_ids, ends_circle, given_back, life_block, next_block, unused_ids, wants_block, with_reserved};

use cip_types::IdBlock;

/// How many ids are reserved at a time.
pub const BLOCK_IDS: u32 = 4_096;

/// How many ids there are: all numbers of 32 bits but 0.
pub const ALL_IDS: u32 = u32::MAX;

/// From where on no connection id was given, and how many ids are left before those come again that were given first.
#[derive(Clone, Copy, PartialEq, Eq)]
pub struct KeptIds {
    /// 1 to 2^32 - 1.
    pub from: u32,
    pub left: u32,
}

impl KeptIds {
    /// The ids of a state that is made: they begin at a drawn place, and none was given.
    pub fn drawn(number: u32) -> KeptIds
        ensures { result ≡ drawn_ids number }
    {
        KeptIds {
            from: number % ALL_IDS + 1,
            left: ALL_IDS,
        }
    }

    /// The block that is reserved next. It ends with the last id of all, if it would go over that.
    pub fn next_block(&self) -> IdBlock
        ensures { result ≡ next_block self.now }
    {
        let KeptIds { from, .. } = *self;
        let behind = (1u64 << 32) - u64::from(from);
        IdBlock {
            first: from,
            count: behind.min(u64::from(BLOCK_IDS)) as u32,
        }
    }

    /// Whether the next block has ids that were given: fewer are left than it has.
    pub fn ends_circle(&self) -> bool
        ensures { result ≡ ends_circle self.now }
    {
        self.left < self.next_block().count
    }

    /// What is kept once the next block is reserved.
    pub fn with_reserved(&self) -> KeptIds
        ensures { result ≡ with_reserved self.now }
    {
        let block = self.next_block();
        let left = if self.left < block.count {
            ALL_IDS
        } else {
            self.left
        };
        KeptIds {
            from: behind(block),
            left: left - block.count,
        }
    }

    /// What is kept where so many ids of what was reserved were not given.
    pub fn given_back(&self, unused: u32) -> KeptIds
        ensures { result ≡ given_back self.now unused }
    {
        let all = u64::from(ALL_IDS);
        let place = (u64::from(self.from.saturating_sub(1)) + all - u64::from(unused)) % all;
        KeptIds {
            from: place as u32 + 1,
            left: self.left.saturating_add(unused),
        }
    }
}

/// The number behind a block: 1 follows the last one.
fn behind(block: IdBlock) -> u32
    requires { block.first + block.count ≤ 2 ^ 32 }
    ensures { result ≡ behind block }
{
    match u32::try_from(block.end()) {
        Ok(number) => number,
        Err(_) => 1,
    }
}

/// The ids of a life, of the block that it has reserved: they begin at a drawn place of its first half.
pub fn life_block(block: IdBlock, drawn: u32) -> IdBlock
    requires { block.first + block.count ≤ 2 ^ 32 }
    ensures { result ≡ life_block block drawn }
{
    let place = drawn % (block.count / 2 + 1);
    IdBlock {
        first: block.first.saturating_add(place),
        count: block.count - place,
    }
}

/// Whether a device with so many ids left wants a further block: half of one is used.
pub fn wants_block(left: u32) -> bool
    ensures { result ≡ wants_block left }
{
    left <= BLOCK_IDS / 2
}

/// How many of so many ids of a life are reserved again, where its device has so many left: never its first one, so that no two
/// lives begin with one id.
pub fn unused_ids(left: u32, all: u32) -> u32
    ensures { result ≡ unused_ids left all }
{
    left.min(all.saturating_sub(1))
}

/// Where a device's further blocks of connection ids come from. Contracts see it as a relation: from the supply, where a device
/// has so many ids left, by the block that it gives, to the supply behind it.
pub trait IdSupply {
    ghost use Rattle.std.specs.Prelude.{ℕ, Option};
    ghost use Rattle.cip_types.specs.declared.ids.IdBlock.{IdBlock};

    ghost supplies: { Self → ℕ → Option IdBlock → Self → Type 0 };

    /// A further block for a device that has so many ids left, if there is one now. Never waits.
    fn next_block(&mut self, left: u32) -> Option<IdBlock>
        ensures { supplies self.old left result self.new };
}

/// No further blocks: the device has all of its ids from the beginning.
#[derive(Clone, Copy)]
pub struct NoSupply;

impl IdSupply for NoSupply {
    ghost use Rattle.std.specs.Prelude.{◌≡◌, None};

    ghost supplies = { λ old left block new. block ≡ None };

    fn next_block(&mut self, _left: u32) -> Option<IdBlock> {
        None
    }
}
