//! A plant: many devices in one process, each at an address of its own, from its file to its end.
#![tactic(auto)]

mod endings;
mod failure;
mod lives;
mod opening;
mod paths;
mod reports;
mod running;
mod setups;

pub use failure::PlantFailure;
pub use lives::work;
pub use opening::{PlantSetting, names_in};
pub use running::run_plant;
