//! What a book answers.

use cip_tables::{Answer, Event, StepFault};
use cip_types::OutOfMemory;
use std::alloc::AllocError;
use thiserror::Error;

/// The account of one event: its position in the book of its device, and the answer of the device.
#[derive(Drop)]
pub struct Receipt {
    /// The incarnation byte of the device.
    pub device: u8,
    /// The number of segments that the book had handed out.
    pub segment: u16,
    /// The number of events of the segment before this one.
    pub index: u32,
    pub event: Event,
    pub answer: Answer,
}

/// Why a book refused an event. The book is then as it was.
#[derive(Clone, Copy, Debug, PartialEq, Eq, Error)]
pub enum BookFault {
    /// The device refused the event, or an allocation was refused.
    #[error(transparent)]
    Step(StepFault),
    /// The segment holds 1,048,576 events.
    #[error("the segment is full")]
    TraceFull,
}

impl From<StepFault> for BookFault {
    ghost use Rattle.std.specs.Prelude.{◌≡◌};
    ghost use Rattle.device_lock.specs.declared.receipt.BookFault.TheVariants.{Step};

    ghost from_gives = { λ fault book. book ≡ Step fault };

    fn from(fault: StepFault) -> BookFault {
        BookFault::Step(fault)
    }
}

impl From<OutOfMemory> for BookFault {
    ghost use Rattle.std.specs.Prelude.{◌≡◌};
    ghost use Rattle.cip_events.specs.declared.event.StepFault.TheVariants as fault;
    ghost use Rattle.device_lock.specs.declared.receipt.BookFault.TheVariants.{Step};

    ghost from_gives = { λ _ book. book ≡ Step fault.OutOfMemory };

    fn from(_error: OutOfMemory) -> BookFault {
        BookFault::Step(StepFault::OutOfMemory)
    }
}

impl From<AllocError> for BookFault {
    ghost use Rattle.std.specs.Prelude.{◌≡◌};
    ghost use Rattle.cip_events.specs.declared.event.StepFault.TheVariants as fault;
    ghost use Rattle.device_lock.specs.declared.receipt.BookFault.TheVariants.{Step};

    ghost from_gives = { λ _ book. book ≡ Step fault.OutOfMemory };

    fn from(_error: AllocError) -> BookFault {
        BookFault::Step(StepFault::OutOfMemory)
    }
}
