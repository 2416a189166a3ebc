//! The clock of a trace: the milliseconds of its ticks.

ghost use Rattle.std.specs.Prelude.{◌≡◌};
ghost use Rattle.trace_text.specs.Clock.{later, is_refused, time_after};

use crate::kept::Recorded;
use cip_events::Event;

/// The time of a trace's clock after an event, with its outcome if that is recorded. A refused tick does not pass.
pub fn time_after(time: u64, event: &Event, recorded: &Recorded) -> u64
    ensures { result ≡ time_after time event.now recorded.now }
{
    match event {
        Event::Tick { ms } => later(time, *ms, is_refused(recorded)),
        _ => time,
    }
}

/// The time, this number of milliseconds later if they are not refused.
fn later(time: u64, ms: u32, refused: bool) -> u64
    ensures { result ≡ later time ms refused }
{
    if refused {
        time
    } else {
        time.wrapping_add(u64::from(ms))
    }
}

/// Whether the recorded outcome is a fault.
fn is_refused(recorded: &Recorded) -> bool
    ensures { result ≡ is_refused recorded.now }
{
    match recorded.get() {
        Some(Err(_)) => true,
        _ => false,
    }
}
