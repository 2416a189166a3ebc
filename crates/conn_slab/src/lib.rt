//! The connections of an adapter: records under keys, found by triad in opening order and by peer and O->T id,
//! and one producer for each group of them.
//!
//! Volume 1, chapter 3, connection object and application connection types; Volume 2, chapter 3, multicast
//! connections.
#![tactic(auto)]

mod bounds;
mod connections;
mod index;
mod peers;
mod producers;
mod reception;
mod record;
mod rows;

pub use connections::Connections;
pub use peers::{Peer, Peers};
pub use producers::is_on_change;
pub use reception::Received;
pub use rows::Rows;
