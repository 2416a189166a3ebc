//! What connections tell of a device.

ghost use Rattle.std.specs.Prelude.{◌≡◌};
ghost use Rattle.std.specs.List.{list_any};
ghost use Rattle.adapter_table.specs.Objects.{io_state_of, is_owning, is_run, is_running};

use adapter_table::{IoState, Mode, Row, is_established};
use app_rules::{ConnectionsView, ListView};
use cip_productions::Kind;

/// Whether a connection is an established exclusive owner.
///
/// Volume 1, chapter 5, Identity object, attribute 5, bit 0.
pub fn is_owning(row: &Row) -> bool
    ensures { result ≡ is_owning row.now }
{
    is_established(row) && row.kind == Kind::ExclusiveOwner
}

/// Whether the newest data are in run mode.
fn is_run(mode: Option<Mode>) -> bool
    ensures { result ≡ is_run mode }
{
    match mode {
        Some(Mode::Run) => true,
        Some(Mode::Idle) => false,
        None => false,
    }
}

/// Whether a connection is established, and its newest data are in run mode.
///
/// Volume 1, chapter 5, Identity object, attribute 5, bits 4 to 7.
pub fn is_running(row: &Row) -> bool
    ensures { result ≡ is_running row.now }
{
    is_established(row) && is_run(row.mode)
}

fn is_any_owning(rows: &[Row]) -> bool
    ensures { result ≡ list_any is_owning rows.now }
{
    rows.iter().any(|row| is_owning(row))
}

fn is_any_running(rows: &[Row]) -> bool
    ensures { result ≡ list_any is_running rows.now }
{
    rows.iter().any(|row| is_running(row))
}

/// What connections tell.
pub(crate) fn io_state(rows: &[Row]) -> IoState
    ensures { result ≡ io_state_of rows.now }
{
    IoState {
        owned: is_any_owning(rows),
        running: is_any_running(rows),
        established: ListView(rows).has_established(),
        timed_out: ListView(rows).has_timed_out(),
    }
}
