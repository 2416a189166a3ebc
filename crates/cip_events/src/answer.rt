//! Answers without bytes, accepted deliveries, and whether two answers are the same.

ghost use Rattle.std.specs.Prelude.{◌≡◌, ◌↔◌, IsTrue};
ghost use Rattle.cip_events.specs.Answers.{is_accepted, plain_answer};

use crate::event::{Answer, Delivery, Verdict};
use cip_types::Items;
use std::alloc::Global;

impl Answer {
    /// An answer of a verdict alone: no frame, datagram or notice. Takes no memory.
    pub fn plain(alloc: Global, verdict: Verdict) -> Answer
        ensures { result ≡ plain_answer verdict }
    {
        Answer {
            frames: Items::new(alloc),
            datagrams: Items::new(alloc),
            verdict,
            notices: Items::new(alloc),
        }
    }

    /// Whether the other answer is the same, in each of its frames, datagrams and notices. Takes no memory.
    pub fn same(&self, other: &Answer) -> bool
        ensures { IsTrue result ↔ (self.now ≡ other.now) }
    {
        self == other
    }
}

impl Delivery {
    /// Whether the datagram was accepted.
    pub fn is_accepted(self) -> bool
        ensures { result ≡ is_accepted self }
    {
        match self {
            Delivery::Applied | Delivery::Idle | Delivery::Heartbeat | Delivery::Duplicate => true,
            Delivery::Old | Delivery::UnknownId | Delivery::WrongSize | Delivery::Malformed => {
                false
            }
        }
    }
}
