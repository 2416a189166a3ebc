//! The blocks of connection ids on their way from the state's file to a device: when one is reserved, and what is given back.

ghost use Rattle.std.specs.Prelude.{◌≡◌};
ghost use Rattle.station_rim.specs.IdWays.{asks, begun_way, ends_way_circle, given_back_state, is_resting, kept_in, next_reserved, noted, reserving, supplied};

use cip_types::IdBlock;
use station_record::{KeptIds, StationState, unused_ids, wants_block, with_ids};

/// A life's ids: the state on the medium, and what is reserved and not taken yet.
#[derive(Clone, Copy, PartialEq, Eq)]
pub(crate) struct IdWay {
    /// The state on the medium.
    pub state: StationState,
    /// From where on no id was given when the device took its last block.
    pub taken: KeptIds,
    /// How many ids the device has had.
    pub all: u32,
    /// A further block is wanted.
    pub is_desired: bool,
    /// The state of a further block is being written.
    pub is_busy: bool,
    /// A further block that is reserved, and that the device has not taken.
    pub ready: Option<IdBlock>,
}

impl IdWay {
    /// The ids of a life that begins with a block, which this state has reserved, as its ids say.
    pub(crate) fn begin(state: StationState, ids: KeptIds, block: IdBlock) -> IdWay
        ensures { result ≡ begun_way state ids block }
    {
        IdWay {
            state,
            taken: ids,
            all: block.count,
            is_desired: false,
            is_busy: false,
            ready: None,
        }
    }

    /// The block that a device takes, if one is ready.
    pub(crate) fn supplied(&self) -> Option<IdBlock>
        ensures { result ≡ supplied self.now }
    {
        self.ready
    }

    /// The way once a device with so many ids left has asked: it takes what is ready, or a block is wanted where it has few left.
    pub(crate) fn requested(&self, left: u32) -> IdWay
        ensures { result ≡ asks self.now left }
    {
        match self.ready {
            Some(block) => IdWay {
                taken: kept_in(self.state, self.taken),
                all: self.all.saturating_add(block.count),
                ready: None,
                ..*self
            },
            None => IdWay {
                is_desired: self.is_desired || wants_block(left),
                ..*self
            },
        }
    }

    /// Whether nothing is to be reserved now.
    pub(crate) fn is_resting(&self) -> bool
        ensures { result ≡ is_resting self.now }
    {
        !self.is_desired || self.ready.is_some()
    }

    /// The state that reserves the next block, and that block.
    pub(crate) fn next_reserved(&self) -> (StationState, IdBlock)
        ensures { result ≡ next_reserved self.now }
    {
        let ids = kept_in(self.state, self.taken);
        (with_ids(self.state, ids.with_reserved()), ids.next_block())
    }

    /// Whether the next block has ids that were given before: all others have been given since.
    pub(crate) fn ends_circle(&self) -> bool
        ensures { result ≡ ends_way_circle self.now }
    {
        kept_in(self.state, self.taken).ends_circle()
    }

    /// The way while the state of the next block is being written.
    pub(crate) fn reserving(&self) -> IdWay
        ensures { result ≡ reserving self.now }
    {
        IdWay {
            is_busy: true,
            ..*self
        }
    }

    /// The way once that state was written, or not: then the block stays wanted.
    pub(crate) fn noted(&self, is_written: bool) -> IdWay
        ensures { result ≡ noted self.now is_written }
    {
        let (state, block) = self.next_reserved();
        if !is_written {
            return IdWay {
                is_busy: false,
                ..*self
            };
        }
        IdWay {
            state,
            is_desired: false,
            is_busy: false,
            ready: Some(block),
            ..*self
        }
    }

    /// The state in which the ids that a life did not give can be reserved again, where its device has so many left.
    pub(crate) fn given_back(&self, left: u32) -> StationState
        ensures { result ≡ given_back_state self.now left }
    {
        let unused = unused_ids(left, self.all);
        with_ids(self.state, self.taken.given_back(unused))
    }
}

/// From where on no id was given, as a state says.
fn kept_in(state: StationState, taken: KeptIds) -> KeptIds
    ensures { result ≡ kept_in state taken }
{
    match state.ids {
        Some(ids) => ids,
        None => taken,
    }
}
