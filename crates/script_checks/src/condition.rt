//! What a script asks of a device.

ghost use Rattle.std.specs.Prelude.{◌≡◌, IfOk};

use cip_types::{Items, Node, OutOfMemory};
use std::alloc::Global;

/// The state of a slot's connection.
///
/// Volume 1, chapter 3, connection object state.
#[derive(Clone, Copy, PartialEq, Eq)]
pub enum ExpectedState {
    Idle,
    Opening,
    Established,
    TimedOut,
    Closing,
}

/// Whether a connection owns an output of an adapter, and which one.
///
/// Volume 1, chapter 3, application connection types.
#[derive(Clone, Copy, PartialEq, Eq)]
pub enum OwnerState {
    /// No connection owns it.
    Unowned,
    /// No connection owns it, and one that owned it has timed out.
    Lost,
    /// A connection owns it whose newest data has the mode run.
    Running,
    /// A connection owns it whose newest data has the mode idle.
    Idle,
    /// A connection of this originator owns it.
    Of(Node),
}

/// What a script asks of a device: it holds or not, at each moment.
#[derive(PartialEq, Drop)]
pub enum Condition {
    /// A point of an adapter holds these bytes.
    Output { point: u32, bytes: Items<u8> },
    /// The image of a scanner's slot holds these bytes.
    Image { slot: u32, bytes: Items<u8> },
    /// The connection of a scanner's slot has this state.
    Slot { slot: u32, state: ExpectedState },
    /// An output of an adapter is owned so.
    Owner { point: u32, owner: OwnerState },
}

impl Condition {
    /// A copy of the condition. The only fault is a refused allocation.
    pub fn copy(&self, alloc: Global) -> Result<Condition, OutOfMemory>
        ensures { IfOk result (λ copy. copy ≡ self.now) }
    {
        match self {
            Condition::Output { point, bytes } => {
                let bytes = Items::copy_of(alloc, bytes.as_slice())?;
                Ok(Condition::Output {
                    point: *point,
                    bytes,
                })
            }
            Condition::Image { slot, bytes } => {
                let bytes = Items::copy_of(alloc, bytes.as_slice())?;
                Ok(Condition::Image { slot: *slot, bytes })
            }
            Condition::Slot { slot, state } => Ok(Condition::Slot {
                slot: *slot,
                state: *state,
            }),
            Condition::Owner { point, owner } => Ok(Condition::Owner {
                point: *point,
                owner: *owner,
            }),
        }
    }
}
