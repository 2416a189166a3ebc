//! Production and acceptance of one connection's datagrams, at an adapter and at a scanner: sequence numbers,
//! counts and due times.
#![tactic(auto)]

mod acceptance;
mod age;
mod beginning;
mod kind;
mod outgoing;
mod producing;
mod production;
mod window;

pub use acceptance::{Accepted, accepts_sequence, is_duplicate};
pub use age::{Age, age_of};
pub use beginning::{first_deadline, first_production};
pub use kind::Kind;
pub use outgoing::{by_due, by_number, same_producer, sent_by};
pub use producing::{
    changed, deferred, due_again, is_free, is_produced_on_change, is_production_due, next_count,
    produced,
};
pub use production::{Producer, Production};
pub use window::{
    FARTHEST_NUMBER, accepts_number, is_near, pace_of, since_accepted, steady_numbers_are_near,
};
