//! What is due happens.

ghost use Rattle.device_laws.specs.DueTicks.{DueTicksAct};

/// A tick up to the time at which something is due at a device answers something: `due_at`, from which a device says
/// when it needs time, is no time at which nothing happens. It holds of each table.
///
/// Volume 1, chapter 3, connection timeouts, inactivity watchdog, production triggers.
pub fn due_ticks_act()
    ensures { DueTicksAct }
{}
