//! The transaction.

ghost use Rattle.std.specs.Prelude.{◌≡◌, ◌≤◌, ◌^◌, true, None};
ghost use Rattle.cip_types.specs.Ids.{are_blocks};
ghost use Rattle.scanner_table.specs.Profiles.{profile_fault};

use crate::undo::Undo;
use cip_events::{Frame, Notice};
use scanner_slots::ScannerState;
use scanner_table::ScannerProfile;
use std::alloc::Global;

/// A scanner's table as changed so far, with the requests and notices so far, and with what the changed parts held before.
#[derive(Drop)]
pub struct Transaction<'a> {
    /// The allocator of the scanner.
    pub alloc: Global,
    /// The profile of the scanner.
    pub profile: &'a ScannerProfile,
    pub scanner: ScannerState,
    pub(crate) frames: Vec<Frame>,
    pub(crate) notices: Vec<Notice>,
    pub(crate) undo: Undo,
    /// The profile has no fault.
    pub ghost faultless: { profile_fault profile.now ≡ None },
    /// The clock does not pass its end.
    pub ghost time: { scanner.clock.0 ≤ 2 ^ 48 },
    /// No two of the blocks of connection ids have an id in common.
    pub ghost blocks: { are_blocks scanner.ids.items ≡ true },
    /// The number of the next connection id is not 0.
    pub ghost begins: { 1 ≤ scanner.next_id },
}
