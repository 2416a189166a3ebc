//! The table of a device of either kind, the interface `Device`, the type `AnyDevice` of devices of either kind, copies of
//! tables, runs, and the laws of every run.
//! The crate offers the public names of the events and of both tables again.
#![tactic(auto)]

mod any_device;
mod copy;
mod device;
mod ids;
pub mod laws;
mod streams;
mod table;
mod totals;

pub use adapter_table::{
    Action, AdapterTable, Admission, AnyConnection, Class3Report, ConnectionReport, ConsumedPoint,
    ConsumerCounts, InputPoint, MakerLimits, Mode, NodeLimits, OutputPoint, Places, PointValue,
    Profile, Row, State, Stream,
};
pub use any_device::AnyDevice;
pub use cip_events::{
    Answer, Consumers, Delivery, Event, Frame, NewFault, Notice, Outcome, OutgoingDatagram,
    ProfileFault, Reason, Recipient, SmallBytes, StepFault, Verdict,
};
pub use cip_productions::{Accepted, Age, Kind, Production};
pub use cip_router::{
    Command, EncapStatus, Refusal, Reply, RouterRequest, Status, read_router_request,
};
pub use copy::TableCopy;
pub use device::{Device, run};
pub use scanner_table::{
    PendingClose, PendingOpen, ScannerProfile, ScannerTable, Session, Slot, SlotConfig,
    SlotConnection, SlotReport, SlotState, Stage, TargetReport, TargetStream,
};
pub use streams::StreamReport;
pub use table::{Config, DeviceTable};
pub use totals::DeviceTotals;
