//! The beginning of a transaction.

ghost use Rattle.std.specs.Prelude.{◌≡◌, ◌≤◌, ◌^◌, true, None};
ghost use Rattle.cip_types.specs.Ids.{are_blocks};
ghost use Rattle.scanner_table.specs.Profiles.{profile_fault};
ghost use Rattle.scanner_slots.specs.Views.{table_of};
ghost use Rattle.scanner_transactions.specs.Transactions.{begun, view_transaction};
ghost use Rattle.scanner_transactions.specs.Undoing.{state_of, state_before};

use crate::transaction::Transaction;
use crate::undo::Undo;
use cip_types::Ms;
use scanner_slots::ScannerState;
use scanner_table::ScannerProfile;
use std::alloc::Global;
use std::mem;

/// Returns a table without slots, streams and explicit requests. Takes no memory.
fn empty(alloc: Global) -> ScannerState {
    ScannerState {
        slots: Vec::new(alloc),
        run: false,
        clock: Ms(0),
        ids: Vec::new(alloc),
        next_id: 0,
        next_serial: 0,
        next_request: 0,
        streams: Vec::new(alloc),
        explicit: Vec::new(alloc),
    }
}

impl<'a> Transaction<'a> {
    /// Begins a transaction on the table, without requests and notices. Takes no memory.
    ///
    /// It takes the table over, and leaves one without slots, streams and explicit requests until the transaction ends.
    pub fn begin(
        alloc: Global,
        profile: &'a ScannerProfile,
        scanner: &mut ScannerState,
    ) -> Transaction<'a>
        requires faultless { profile_fault profile.now ≡ None }
        requires time { scanner.old.clock.0 ≤ 2 ^ 48 }
        requires blocks { are_blocks scanner.old.ids.items ≡ true }
        requires begins { 1 ≤ scanner.old.next_id }
        ensures effect { view_transaction result ≡ begun (table_of profile.now scanner.old) }
        ensures profile { result.profile.now ≡ profile.now }
        ensures scanner { result.scanner ≡ scanner.old }
        ensures kept { state_before result ≡ state_of scanner.old }
    {
        let scanner = mem::replace(scanner, empty(alloc));
        let undo = Undo {
            slots: Vec::new(alloc),
            streams: None,
            explicit: None,
            clock: scanner.clock,
            next_id: scanner.next_id,
            next_serial: scanner.next_serial,
            next_request: scanner.next_request,
        };
        Transaction {
            alloc,
            profile,
            scanner,
            frames: Vec::new(alloc),
            notices: Vec::new(alloc),
            undo,
        }
    }
}
