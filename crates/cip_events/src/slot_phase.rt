//! The state of a scanner's slot, as notices number it.

ghost use Rattle.std.specs.Prelude.{◌≡◌};
ghost use Rattle.cip_events.specs.Phases.{phase_number, phase_of};

/// The state of a slot's connection, without what belongs to it.
///
/// Volume 1, chapter 3, connection object state.
#[derive(Clone, Copy, Debug, PartialEq, Eq)]
pub enum SlotPhase {
    /// The slot has no connection.
    Idle,
    /// The slot waits for the reply to its Forward_Open.
    Opening,
    /// The connection is open.
    Established,
    /// The connection timed out.
    TimedOut,
    /// The slot waits for the reply to its Forward_Close.
    Closing,
}

impl SlotPhase {
    /// The number of the state in notices and traces.
    pub fn number(self) -> u8
        ensures { result ≡ phase_number self }
    {
        match self {
            SlotPhase::Idle => 0,
            SlotPhase::Opening => 2,
            SlotPhase::Established => 3,
            SlotPhase::TimedOut => 4,
            SlotPhase::Closing => 6,
        }
    }

    /// The state of this number. A trace may record a number that no state has.
    pub fn of(number: u8) -> Option<SlotPhase>
        ensures { result ≡ phase_of number }
    {
        match number {
            0 => Some(SlotPhase::Idle),
            2 => Some(SlotPhase::Opening),
            3 => Some(SlotPhase::Established),
            4 => Some(SlotPhase::TimedOut),
            6 => Some(SlotPhase::Closing),
            _ => None,
        }
    }
}
