//! An adapter over any table of connections, whose every step is the step of the table that contracts see.
//!
//! `state` is what an adapter holds and each change of it: the whole answer is made before anything changes. `engine` takes the
//! events, and says which change each asks for.
#![tactic(auto)]

mod engine;
mod state;

pub use engine::Adapter;
