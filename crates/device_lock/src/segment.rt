//! A part of what happened at a device.

use cip_tables::{Event, TableCopy};
use cip_types::Items;

/// Some events of a device, one after another, and its table before the first of them.
#[derive(Drop)]
pub struct Segment {
    pub opening: TableCopy,
    pub events: Items<Event>,
}
