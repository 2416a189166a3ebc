//! A scanner that finds the slot of a datagram by one look, and that compares three times to find that a tick is idle. Each
//! of its steps is the table's.
#![tactic(auto)]

use scanner::Scanner;
use scanner_slots::SlotHints;

/// A scanner with hints: bounds on the times of its slots, and where the datagrams of an id were found last. Contracts see
/// it as its table.
pub type FastScanner = Scanner<SlotHints>;
