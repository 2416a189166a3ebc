//! What the limits that the maker of an adapter states keep from its connections.

ghost use Rattle.device_laws.specs.StatedLimits.{AnotherNodeClosesNothing, AnotherNodeEndsNothing, FarNumbersChangeNothing};

/// A Forward_Close of another node than the one that opened the connection leaves the table of an adapter as it is, but for its count as
/// a close that is refused, and nothing is reported, if the maker has only openers close. So it is over a stream and over none.
///
/// - `data`: of a connection of class 1. It speaks of whole tables.
/// - `messages`: of a class 3 connection.
///
/// Volume 1, chapter 3, Forward_Close service.
pub fn another_node_closes_nothing()
    ensures data { AnotherNodeClosesNothing }
    ensures messages { AnotherNodeEndsNothing }
{}

/// A datagram whose number is ahead of the connection's newest one by as much as the window at this time, or more, leaves
/// the table of an adapter as it is: the connection, its watchdog and its output. Its verdict is `Old`, or `WrongSize` if
/// it has another size. The window is what the maker states, and two more for each interval of the producer since then.
///
/// Volume 1, chapter 3, class 1 transport.
pub fn numbers_far_ahead_change_nothing()
    ensures { FarNumbersChangeNothing }
{}
