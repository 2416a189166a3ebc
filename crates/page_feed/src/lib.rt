//! What stations tell their page: snapshots of a device with the last events and troubles in words, through a place for one
//! text of each device.
#![tactic(auto)]

mod connections;
mod facts;
mod feed;
mod last_events;
mod names;
mod pauses;
mod place;
mod points;
mod rows;
mod snapshots;
mod troubles;
mod waits;

pub use facts::StationFacts;
pub use feed::PageFeed;
pub use place::{FeedEnd, PageEnd, page_place};
