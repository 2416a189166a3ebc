//! The state of an adapter that the checks read.

use adapter_table::Profile;

/// The state of an adapter that the checks of an open request read: its profile, the bytes of its configuration,
/// its connections, how many connection ids are left, whether a class 3 connection has the triad of the request,
/// and whether the node that sent it has opened as many connections in its second as the maker states.
///
/// Volume 1, chapter 3, Connection Manager object.
#[derive(Drop)]
pub struct View<'a, C> {
    pub profile: &'a Profile,
    pub config: Option<&'a [u8]>,
    pub connections: &'a C,
    pub ids_left: u32,
    pub talks: bool,
    pub opened_enough: bool,
}

/// The state of an adapter that the checks of a request to open a class 3 connection read: its profile, whether a
/// connection of any class and state has the triad of the request, how many connection ids are left, how many
/// class 3 connections there are, how many of them the node has that sent the request, and whether it has opened as many
/// connections in its second as the maker states.
///
/// Volume 1, chapter 3, transport class 3 and Connection Manager object.
#[derive(Clone, Copy)]
pub struct Class3View<'a> {
    pub profile: &'a Profile,
    pub in_use: bool,
    pub ids_left: u32,
    pub count: usize,
    pub node_count: usize,
    pub opened_enough: bool,
}
