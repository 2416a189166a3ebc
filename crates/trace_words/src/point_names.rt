//! The names of points, slots and bits, which comment lines of a profile say, and of the devices of a plant; and the lines of a
//! station with these names behind them. A device never looks at them.

mod devices;
mod labels;
mod line;
mod names;
mod text;

pub use devices::DeviceNames;
pub use labels::{nothing_named_changes_no_byte, push_labelled};
pub use line::{NameKind, Named, name_kind, named_by};
pub use names::{BadName, NameLineFault, Names, ReadNames, read_names};
pub use text::name_text;
