//! The class 3 connections of an adapter, and the requests that its application has to answer.

use crate::class3::Class3Connection;
use crate::requests::Waiting;
use cip_types::Items;

/// The class 3 connections in the order in which they were opened, the requests that wait for the application in the
/// order of their numbers, and the number of the next one.
#[derive(PartialEq, Drop)]
pub struct Messaging {
    pub class3_connections: Items<Class3Connection>,
    pub waiting: Items<Waiting>,
    pub next_number: u64,
}
