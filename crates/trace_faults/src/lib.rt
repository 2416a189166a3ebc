//! Why a text is no trace, in words: which line is bad, and its first character or word that makes it so, with what is
//! allowed there; or which fault its profile has, in which line and word, with the value and what is allowed.
#![tactic(auto)]

mod defect_words;
mod lexical;
mod profile_draft;
mod profile_faults;
mod profile_words;
mod reasons;
mod text_faults;
mod text_lines;

pub use lexical::{Character, bad_character};
pub use profile_draft::line_number;
pub use profile_faults::{
    Defect, LineName, PacketDirection, ProfileReason, WaitingTime, WordPlace, adapter_reason,
    config_reason, scanner_reason,
};
pub use reasons::{BadWord, LineReason, WordReason, reason_of};
pub use text_faults::explain_fault;
