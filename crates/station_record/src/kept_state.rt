//! What a station keeps from one start to the next: its incarnation, its serial number, the first connection serial number of its
//! start, and from where on no connection id was given, as a text.

mod ids;
mod laws;
mod state;
mod text;

pub use ids::{IdSupply, KeptIds, NoSupply, life_block, unused_ids, wants_block};
pub use laws::reads_back;
pub use state::{StationState, begin_state, drawn_serials, kept_ids, with_ids};
pub use text::{push_state, read_state};
