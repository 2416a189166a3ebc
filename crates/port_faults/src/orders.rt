//! Orders to a port, which a test gives between the turns of its device: all streams are cut, nothing happens for a while, a
//! datagram of any bytes is sent.

mod marks;
mod order;
mod port;

pub use marks::{StreamMark, StreamMarks};
pub use order::{OrderedPort, PortOrder};
pub use port::OrderPort;
