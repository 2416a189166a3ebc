//! When a station's streams end and begin. Of an adapter: which stream has been silent for too long, and which one makes
//! room for a new connection. Of a scanner: which stream to a target is to be opened now, which is given up, and when a
//! closed one is tried again.

mod choice;
mod keeper;
mod laws;
mod links;

pub use keeper::{KeptStream, Place, StreamKeeper};
pub use laws::owners_stay;
pub use links::{LinkState, TargetLink, TargetLinks};
