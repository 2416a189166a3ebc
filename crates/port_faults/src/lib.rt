//! Ports around a port, which disturb it on purpose.
//!
//! A faulty port loses, repeats, delays and reorders what arrives, by a seed. `orders` is a port that takes orders: its streams are cut,
//! it pauses, it sends bytes of any kind.
#![tactic(auto)]

mod hold;
mod orders;
mod port;
mod rates;

pub use hold::{DatagramHold, HeldDatagram, MOST_WAITING};
pub use orders::{OrderPort, OrderedPort, PortOrder, StreamMark, StreamMarks};
pub use port::FaultyPort;
pub use rates::{DatagramImpairment, FaultRates};
