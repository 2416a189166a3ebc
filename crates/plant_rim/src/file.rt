//! The file of a plant, read: its devices, each with its profile, address, faults and script.

mod acts;
mod calls;
mod draft;
mod faults;
mod line;
mod plant;
mod reading;
mod texts;
mod values;

pub use calls::{read_plant_call, read_typed_call};
pub use faults::{PlantFault, PlantLineFault, push_fault};
pub use plant::{FaultOptions, MOST_DEVICES, MOST_SCRIPT_LINES, PlantDevice, PlantFile, PlantWord};
pub use reading::{read_plant, read_script_file};
