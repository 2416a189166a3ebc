//! Which numbers are within the window of a connection or of a slot. Each call does nothing: its contract is the law.

ghost use Rattle.device_laws.specs.Windows.{NearNumbersAreAccepted, FarNumbersChangeNoSlot, NearNumbersAreAcceptedBySlots};

/// A datagram of the connection's size whose number is newer than the newest one, and ahead of it by less than what the
/// maker states and two more for each interval of its producer since then, is accepted: the watchdog begins again. So a
/// burst of lost datagrams below the watchdog never locks an owner out.
///
/// Volume 1, chapter 3, class 1 transport and inactivity watchdog.
pub fn near_numbers_are_accepted()
    ensures { NearNumbersAreAccepted }
{}

/// At a scanner whose profile has the same limit, a datagram whose number is ahead of the slot's newest one by as much as
/// the window at this time, or more, changes nothing. Its verdict is `Old`, or `WrongSize` if it has another size.
///
/// Volume 1, chapter 3, class 1 transport.
pub fn numbers_far_ahead_change_no_slot()
    ensures { FarNumbersChangeNoSlot }
{}

/// And one of the slot's size whose number is newer and within the window is accepted.
///
/// Volume 1, chapter 3, class 1 transport and inactivity watchdog.
pub fn near_numbers_are_accepted_by_slots()
    ensures { NearNumbersAreAcceptedBySlots }
{}
