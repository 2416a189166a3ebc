//! When an alarm rings.

ghost use Rattle.std.specs.Prelude.{◌≡◌};
ghost use Rattle.station_port.specs.Alarm.Alarms.{alarm_step, ns_behind, sets_anew};

use std::time::Instant;

/// An alarm that rings at most so many nanoseconds behind the end of a wait stays as it is: two readings of the clock for
/// one end differ by less.
const MOST_LATE_NS: u64 = 20_000;

/// What the thread of an alarm does next.
#[derive(Clone, Copy, PartialEq, Eq)]
pub enum AlarmStep {
    /// It waits until the alarm is set.
    Rest,
    /// It waits until the alarm is set anew, and at most for so many nanoseconds.
    Sleep(u64),
    /// It rings.
    Ring,
}

/// What the thread of an alarm that is set to this time does now. Times are in nanoseconds; an alarm at 0 is not set.
pub fn alarm_step(due_ns: u64, now_ns: u64) -> AlarmStep
    ensures { result ≡ alarm_step due_ns now_ns }
{
    if due_ns == 0 {
        AlarmStep::Rest
    } else if now_ns < due_ns {
        AlarmStep::Sleep(due_ns - now_ns)
    } else {
        AlarmStep::Ring
    }
}

/// Whether an alarm that is set to this time is set to the end of a wait that begins now: not for a wait that has ended,
/// nor if it still rings within the wait, or at most 20 us behind its end. One that rings earlier ends the wait, and the
/// next wait sets it again.
pub fn sets_anew(due_ns: u64, now_ns: u64, end_ns: u64) -> bool
    ensures { result ≡ sets_anew due_ns now_ns end_ns }
{
    let rings_in_time = now_ns < due_ns && due_ns.saturating_sub(MOST_LATE_NS) <= end_ns;
    now_ns < end_ns && !rings_in_time
}

/// The nanoseconds from an origin to a moment: none if there is no origin, or it is behind the moment. At most 2^64 - 1,
/// which are 584 years.
pub fn ns_behind(origin: Option<Instant>, moment: Instant) -> u64
    ensures { result ≡ ns_behind origin moment }
{
    let Some(origin) = origin else {
        return 0;
    };
    let ns = moment.duration_since(origin).as_nanos();
    ns.min(u128::from(u64::MAX)) as u64
}
