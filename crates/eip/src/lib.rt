//! One name for all that a maker of a device uses: devices and their profiles, events and answers, the runner that
//! drives a device over a port and a clock, ports over memory and over sockets, the rules by which an adapter's streams
//! end and make room, replies to who looks for devices, books of events, and what a test sends in a controller's place. Each
//! item is explained in the crate that it comes from.
#![tactic(auto)]

pub use adapter_engine::FastAdapter;
pub use cip_encap::SocketAddress;
pub use cip_events::Arrival;
pub use cip_netparams::Trigger;
pub use cip_tables::{
    Action, Age, Answer, AnyConnection, AnyDevice, Class3Report, Config, ConnectionReport,
    ConsumerCounts, Delivery, Device, DeviceTotals, Event, Frame, InputPoint, Kind, MakerLimits,
    Mode, NewFault, NodeLimits, Notice, Outcome, OutgoingDatagram, OutputPoint, Places, Profile,
    ProfileFault, Reason, Recipient, ScannerProfile, SlotConfig, SlotReport, StepFault,
    StreamReport, TableCopy, TargetReport, Verdict, run,
};
pub use cip_types::{ConnId, Fault, Identity, Items, Mismatch, Ms, Node, OutOfMemory, Triad};
pub use device_lock::{Book, BookFault, History, LockedDevice, Receipt, Segment};
pub use fast_device::FastDevice;
pub use list_identity::{NameFault, ProductName, StationIdentity, identity_reply, inquiry_reply};
pub use plain_engine::{PlainAdapter, PlainDevice, PlainScanner};
pub use scanner_engine::FastScanner;
pub use socket_port::{
    DatagramRoute, DatagramRoutes, Destination, KeptStream, OpenFault, Place, SocketPort,
    StreamKeeper, SystemClock,
};
pub use test_requests::{ConnectionRequest, SentData, datagram_bytes, open_request};
pub use udp_runner::{
    Clock, MemoryPort, Observer, Output, Port, PortFault, RunFault, SentOutput, SteppedClock,
    Unobserved, act, drive, drive_watched, turn_waiting,
};
