//! The command that plays a story of a simulated network: it prints what each act comes to.
//!
//! `story` reads the lines of a story: its devices, and an act a line.
#![tactic(auto)]

mod cast;
mod command;
mod failure;
mod played;
mod story;

pub use command::play_world;
pub use failure::WorldFailure;
pub use story::{
    StoryAct, StoryDevice, StoryLine, StoryLineFault, StoryName, StoryReadFault, read_line,
};
