//! What a host counts of the interface of a port: the requests that read it, and the files of the host that say it.

mod host_files;
mod host_lines;
mod requested;
mod requests;

pub use host_files::{interface_of, link_counters};
pub use requested::CountersRequested;
pub use requests::names_link;
