//! Devices on a simulated network that restart: a plant. A life of a device ends with a restart. The next one begins with a
//! fresh table and an incarnation byte that no life had. The lives are the devices of a world, so its laws hold of lives.

mod configs;
mod fault;
pub mod laws;
mod plant;
mod severing;

pub use fault::RestartFault;
pub use plant::Plant;
