//! What a scanner remembers: nothing, or hints.

ghost use Rattle.std.specs.Prelude.{◌≡◌};
ghost use Rattle.scanner_table.specs.declared.table.ScannerTable.{ScannerTable};
ghost use Rattle.scanner_slots.specs.Bounding.{IsHinted, IsNoLater, with_deadline};

use crate::bounds::Bounds;
use cip_types::{ConnId, Ms};

/// What a scanner remembers beside its slots. No outcome shows it.
pub trait Hints: Drop {
    ghost use Rattle.scanner_slots.specs.declared.bounds.Bounds.{Bounds};

    ghost bounds: { Self → Bounds };

    /// Nothing is known of the slots yet.
    fn new() -> Self
        ensures { (t : ScannerTable) → IsHinted (bounds result) t };

    /// The bounds on the times of the slots.
    fn bounds(&self) -> Bounds
        ensures { result ≡ bounds self.now };

    /// Takes these bounds, or earlier ones.
    fn set_bounds(&mut self, times: Bounds)
        ensures { IsNoLater (bounds self.new) times };

    /// A connection has got this deadline.
    fn await_deadline(&mut self, deadline: Ms)
        ensures { IsNoLater (bounds self.new) (with_deadline (bounds self.old) deadline) };

    /// The number of the slot at which the datagrams of an id were found last. The caller tests whether they are for it.
    fn consumer(&self, id: ConnId) -> Option<u32>;

    /// The datagrams of an id were found at the slot of this number.
    fn remember_consumer(&mut self, id: ConnId, number: u32)
        ensures { bounds self.new ≡ bounds self.old };
}

/// Nothing is remembered: each event looks at all slots.
#[derive(Drop)]
pub struct NoHints;

impl Hints for NoHints {
    ghost bounds = { λ _. record { deadlines = record { 0 = 0 }; retries = record { 0 = 0 }; dues = record { 0 = 0 } } };

    fn new() -> Self {
        NoHints
    }

    fn bounds(&self) -> Bounds {
        Bounds {
            deadlines: Ms(0),
            retries: Ms(0),
            dues: Ms(0),
        }
    }

    fn set_bounds(&mut self, _times: Bounds) {}

    fn await_deadline(&mut self, _deadline: Ms) {}

    fn consumer(&self, _id: ConnId) -> Option<u32> {
        None
    }

    fn remember_consumer(&mut self, _id: ConnId, _number: u32) {}
}

/// The number of places for the slots at which datagrams were found.
const PLACES: usize = 64;

/// Bounds on the times of the slots, and where the datagrams of an id were found last: the number of the slot, at the
/// place of the id's remainder by 64.
#[derive(Drop)]
pub struct SlotHints {
    bounds: Bounds,
    consumers: [u32; PLACES],
}

impl Hints for SlotHints {
    ghost bounds = { λ h. h.bounds };

    fn new() -> Self {
        SlotHints {
            bounds: Bounds {
                deadlines: Ms(0),
                retries: Ms(0),
                dues: Ms(0),
            },
            consumers: [0; PLACES],
        }
    }

    #[inline(always)]
    fn bounds(&self) -> Bounds {
        self.bounds
    }

    fn set_bounds(&mut self, times: Bounds) {
        self.bounds = times;
    }

    #[inline(always)]
    fn await_deadline(&mut self, deadline: Ms) {
        if deadline.0 < self.bounds.deadlines.0 {
            self.bounds.deadlines = deadline;
        }
    }

    #[inline(always)]
    fn consumer(&self, id: ConnId) -> Option<u32> {
        Some(self.consumers[id.0 as usize % PLACES])
    }

    fn remember_consumer(&mut self, id: ConnId, number: u32) {
        self.consumers[id.0 as usize % PLACES] = number;
    }
}
