//! When a page gets its next snapshot.

ghost use Rattle.std.specs.Prelude.{◌≡◌};
ghost use Rattle.page_feed.specs.Pauses.{mode_code, owner_code, pause_between, rest_until};

use adapter_table::{ConnectionReport, Mode};

/// A snapshot behind a change of owner, mode or state follows the last one after so many milliseconds.
const CHANGE_PAUSE_MS: u64 = 20;

/// One behind another event follows after so many.
const EVENT_PAUSE_MS: u64 = 200;

/// If there was no event, the next one follows after so many: the page says that a device is there.
const BEAT_PAUSE_MS: u64 = 500;

/// A snapshot that is due, but could not be handed over, is tried again after so many milliseconds.
const RETRY_MS: u64 = 10;

/// The milliseconds from one snapshot to the next: behind a change of owner, mode or state, or behind another event.
pub(crate) fn pause_between(has_changed: bool, has_moved: bool) -> u64
    ensures { result ≡ pause_between has_changed has_moved }
{
    if has_changed {
        CHANGE_PAUSE_MS
    } else if has_moved {
        EVENT_PAUSE_MS
    } else {
        BEAT_PAUSE_MS
    }
}

/// How long a turn waits at most for a snapshot that follows the last one by this pause, if so many milliseconds have passed.
pub(crate) fn rest_until(pause_ms: u64, passed_ms: u64) -> u64
    ensures { result ≡ rest_until pause_ms passed_ms }
{
    RETRY_MS.max(pause_ms.saturating_sub(passed_ms))
}

/// A number that says who owns an output: 0 for nobody, else the mode of the owner's newest data.
pub(crate) fn owner_code(owner: Option<ConnectionReport>) -> u8
    ensures { result ≡ owner_code owner }
{
    match owner {
        Some(report) => mode_code(report.mode),
        None => 0,
    }
}

fn mode_code(mode: Option<Mode>) -> u8
    ensures { result ≡ mode_code mode }
{
    match mode {
        None => 1,
        Some(Mode::Idle) => 2,
        Some(Mode::Run) => 3,
    }
}
