//! Samples of the definitions of tables, networks and laws: inputs and results byte for byte, worked out by hand. The crate has
//! no code. The check computes the samples in `proofs/`, so a definition that comes to mean something else fails there. No crate
//! stands on this one: a sample that is added here has no other crate proved again.
//!
//! - Tables: requests, datagrams and replies at devices of the profile of this line; and what the definitions give where two
//!   things meet, as two targets, two slots, two moments, the last of a number.
//! - Networks: a plant whose adapter restarts; the marks on a new stream, the queues of a cut and of a closed stream, the
//!   sender's address of a delivered datagram, the order of faults, what settles; turns at an output, and ids in requests,
//!   replies and datagrams.
//! - Order: a chronicle and the laws of order at small schedules, which an adapter and scanners play from fresh devices.
//! - Laws: each law of order passes a test at any chronicle, and a chronicle that is bent against the law fails the test. So no
//!   law can come to claim less unseen.
#![tactic(auto)]
