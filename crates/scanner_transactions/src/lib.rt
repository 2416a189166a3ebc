//! A transaction on a scanner's table: the effects of one event on one slot after another, the requests and notices that
//! they add, and the table that they leave.
//!
//! A transaction takes the table over. Each effect on a slot is a call with the slot's number, whose contract is the
//! definition of the effect; a number that no slot has changes nothing. Before a slot changes, the transaction keeps what the
//! slot held, and no more. A transaction whose call found no memory is undone, which takes no memory: the table is then as it
//! was at the beginning.
//!
//! `SlotState` carries the life of a slot. The typed states of `conn_state` judge a successful reply to its Forward_Open;
//! otherwise they are for programs that keep connections of their own.
#![tactic(auto)]

mod beginning;
mod changes;
mod closing;
mod expiries;
mod finishing;
mod messages;
mod narrowing;
mod opening;
mod replies;
mod running;
mod sessions;
mod streams;
mod transaction;
mod undo;

pub use expiries::{expire_all, move_on};
pub use messages::{MessageOutcome, receive_message};
pub use running::{give_up_overdue, lose_target, open_ready, open_target};
pub use sessions::{cut_stream, register, renew_session};
pub use transaction::Transaction;
