//! Laws of what an adapter answers to inquiries and to the services of its objects. A law call does nothing; its contract states
//! the law.
//!
//! They are apart from the laws of connections, since nothing stands on them.
#![tactic(auto)]

mod identities;
mod inquiries;
mod services;

pub use identities::{identities_agree, the_owned_bit_says_owners};
pub use inquiries::inquiries_change_nothing;
pub use services::{
    attributes_read_back, gets_change_nothing, messages_connect_nothing, objects_are_listed,
    own_services_ask_alone, packets_are_their_services, requests_are_counted_once,
    resets_are_reported, routes_serve_alike,
};
