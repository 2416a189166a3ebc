//! What a scanner says of its slots.

ghost use Rattle.std.specs.Prelude.{◌≡◌, ◌≤◌, ◌^◌};
ghost use Rattle.scanner_table.specs.States.{target_report, report_at};
ghost use Rattle.scanner_table.specs.WellFormed.{IsWellFormed};
ghost use Rattle.scanner_slots.specs.Views.{table_of};

use cip_productions::age_of;
use cip_types::Ms;
use scanner_slots::{ScannerState, slot_at};
use scanner_table::{ScannerProfile, SlotConnection, SlotReport, SlotState, TargetReport};

/// Returns what is known of an open connection at a time.
fn target_report(clock: Ms, connection: &SlotConnection) -> TargetReport
    requires waits { connection.now.watchdog.0 ≤ 5120000 }
    requires time { clock.0 ≤ 2 ^ 48 }
    ensures { result ≡ target_report clock connection.now }
{
    TargetReport {
        triad: connection.link.triad,
        o_t_id: connection.link.o_t_id,
        t_o_id: connection.link.t_o_id,
        o_t_api_ms: connection.o_t_api_ms,
        t_o_api_ms: connection.t_o_api_ms,
        age: age_of(
            clock,
            connection.last,
            connection.watchdog,
            connection.deadline,
        ),
    }
}

/// Returns the state of the slot of a number, if there is one, at the scanner's clock. Takes no memory.
///
/// Volume 1, chapter 3, connection object state.
pub fn slot_report(
    profile: &ScannerProfile,
    scanner: &ScannerState,
    number: u32,
) -> Option<SlotReport>
    requires whole { IsWellFormed (table_of profile.now scanner.now) }
    ensures { result ≡ report_at (table_of profile.now scanner.now) number }
{
    let indexed = slot_at(profile.slots.as_slice(), &scanner.slots, number)?;
    Some(match &indexed.slot.state {
        SlotState::Idle => SlotReport::Idle,
        SlotState::Opening(_) => SlotReport::Opening,
        SlotState::Established(connection) => {
            SlotReport::Established(target_report(scanner.clock, connection))
        }
        SlotState::TimedOut(_) => SlotReport::TimedOut,
        SlotState::Closing(_) => SlotReport::Closing,
    })
}
