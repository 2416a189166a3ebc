//! A scanner over its slots, generic in what it remembers beside them. Each of its steps is the step of the scanner's
//! table.
#![tactic(auto)]

mod answers;
mod engine;
mod events;
mod explicit;
mod made;
mod slots;
mod states;
mod streams;
mod ticks;

pub use engine::Scanner;
