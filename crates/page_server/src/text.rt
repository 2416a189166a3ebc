//! The page of a station, as a browser gets it: its markup and style, and its script. Between both stands the word of the page.

mod front;
mod script;

pub use front::PAGE_FRONT;
pub use script::PAGE_REST;
