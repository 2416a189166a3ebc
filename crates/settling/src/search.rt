//! The search for a schedule of acts whose events are the histories of several devices.

mod cause;
mod cut;
mod finding;
mod histories;
mod lowest;
mod place;
mod placement;
mod streams;

pub use finding::{check_configs, find_schedule};
pub use histories::{byte_at, byte_of};
pub use lowest::lower_of;
pub use place::Unplaced;
