//! The words of a trace: numbers, addresses, bytes, as they are read and as they are written.
//!
//! `point_names` are the names of points, slots and bits, in comment lines of a profile. `status_words` are the words of statuses and
//! refusals.
#![tactic(auto)]

mod point_names;
mod status_words;
mod words;
mod written;

pub use point_names::{
    BadName, DeviceNames, NameKind, NameLineFault, Named, Names, ReadNames, name_kind, name_text,
    named_by, nothing_named_changes_no_byte, push_labelled, read_names,
};
pub use status_words::{
    encap_words, extended_name, push_encap, push_fault, push_general, push_reason, push_refusals,
    push_unopened, status_name,
};
pub use words::{TextFault, Words, read_u64};
pub use written::{
    push_bytes, push_digits, push_last_bytes, push_node, push_nodes, push_number, push_text,
};
