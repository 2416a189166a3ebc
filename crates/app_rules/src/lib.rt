//! The checks of a request to open a connection, which `admit` lists: they admit it as a connection, or refuse it
//! by the first check that fails. Running counts answer what checks ask of all connections: how many owners each output
//! has, and how many connections support the listen-only ones of each input.
//!
//! Volume 1, chapter 3, Forward_Open, application connection types, and the Connection Manager's extended status codes.
#![tactic(auto)]

mod checks;
mod class3_connections;
mod connections;
mod counts;
mod describing;
mod intervals;
mod paths;
mod questions;
mod rules;
mod view;

pub use adapter_table::Admission;
pub use checks::admit;
pub use class3_connections::{Class3Times, admit_class3};
pub use connections::{ConnectionsView, ListView};
pub use counts::Count;
pub use intervals::{opening_refusal, whole_request};
pub use rules::Rules;
pub use view::{Class3View, View};
