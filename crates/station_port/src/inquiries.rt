//! Which inquiries over UDP a station gives its device, and when: at most so many in a second; one to its own address at once,
//! one that came by broadcast after a delay that is drawn, so that the devices of a network do not answer at one moment.

mod asking;
mod budget;
mod delays;
mod gate;
mod hold;

pub use asking::{Asker, InquirySocket, asker_of, has_length, is_broadcast};
pub use budget::{InquiryBudget, MOST_IN_A_SECOND};
pub use delays::{drawn_delay, longest_delay};
pub use gate::InquiryGate;
pub use hold::{HeldInquiry, InquiryHold, MOST_HELD};
