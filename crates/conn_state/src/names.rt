//! The identity of a connection, before and after its target answers.

use cip_types::{ConnId, Triad};

/// A requested connection: its triad, and its T->O id. For a multicast connection the target chooses that id.
///
/// Volume 1, chapter 3, Forward_Open service.
#[derive(Clone, Copy, PartialEq, Eq)]
pub struct Requested {
    pub triad: Triad,
    pub t_o_id: Option<ConnId>,
}

/// An open connection: its triad, and the id of the datagrams of each direction.
///
/// Volume 1, chapter 3, connection triad and network connection ids.
#[derive(Clone, Copy, PartialEq, Eq)]
pub struct Link {
    pub triad: Triad,
    pub o_t_id: ConnId,
    pub t_o_id: ConnId,
}
