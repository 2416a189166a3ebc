//! The lines of a story of a simulated network: its devices, and an act a line.

mod acts;
mod faults;
mod line;
mod names;

pub use acts::StoryAct;
pub use faults::{StoryLineFault, StoryReadFault};
pub use line::{StoryDevice, StoryLine, read_line};
pub use names::StoryName;
