//! The connection points of an adapter and the bytes that they hold.
//!
//! Volume 1, chapter 5, Assembly object.
#![tactic(auto)]

mod fault;
mod set;
mod values;

pub use fault::PointFault;
pub use set::AssemblySet;
