//! NOP, by which a scanner keeps its streams open.

ghost use Rattle.std.specs.Prelude.{◌≡◌, ◌+◌, ◌-◌, ◌^◌, min, nat_le, if◌then◌else◌};

/// A scanner sends NOP once in so many milliseconds: half of the inactivity time-out that targets usually have.
const PERIOD_MS: u64 = 60_000;

/// The message NOP without data. Its command is 0, and so is each other field of its header. No target replies to it.
///
/// Volume 2, chapter 2, NOP.
pub const NOP: [u8; 24] = [0; 24];

/// When NOP is to be sent next.
#[derive(Clone, Copy)]
pub struct NopTimer {
    due_ms: u64,
}

impl NopTimer {
    /// A timer that was begun at the time 0.
    pub fn begin() -> NopTimer
        ensures { result.due_ms ≡ 60000 }
    {
        NopTimer { due_ms: PERIOD_MS }
    }

    /// Whether NOP is to be sent now. If it is, the next one is due a period later.
    pub fn is_due(&mut self, now_ms: u64) -> bool
        ensures due { result ≡ nat_le self.old.due_ms now_ms }
        ensures next { self.new.due_ms ≡ (if result then min (now_ms + 60000) (2 ^ 64 - 1) else self.old.due_ms) }
    {
        if now_ms < self.due_ms {
            return false;
        }
        self.due_ms = now_ms.saturating_add(PERIOD_MS);
        true
    }
}
