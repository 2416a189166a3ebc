//! The refusals of the message router and of the Connection Manager, and their statuses.

ghost use Rattle.std.specs.Prelude.{◌≡◌, ◌≢◌};
ghost use Rattle.cip_router.specs.Refusals.{status_code, status_fault, refusal_code, refusal_fault};

use cip_types::Fault;

/// The reason of a refused connection. The profile chooses the code of each check among the standard's.
///
/// Volume 1, chapter 3, Connection Manager extended status codes.
#[derive(Clone, Copy, PartialEq, Eq)]
pub enum Refusal {
    /// A connection of the same triad is established.
    InUse,
    /// The transport class or the trigger is not served.
    Trigger,
    /// Another connection owns the output, or the configuration would change under a connection.
    Ownership,
    /// No connection has this triad.
    NotFound,
    /// The multiplier is reserved, or a redundant owner is requested.
    Parameter,
    /// A requested packet interval is out of range.
    PacketInterval,
    /// No connection id or no free connection is left.
    OutOfConnections,
    /// The key has another vendor or product code.
    VendorOrProduct,
    /// The key has another device type.
    DeviceType,
    /// The key does not accept the device's revision.
    Revision,
    /// The path names no application points.
    Path,
    /// No connection of another kind supports a listen-only one.
    NoSupport,
    /// The production inhibit time is above the T->O packet interval.
    InhibitTime,
    /// The O->T connection type is not served.
    ConsumedType,
    /// The T->O connection type is not served.
    ProducedType,
    /// The data segment is not as long as the configuration.
    ConfigurationSize,
    /// The O->T size does not fit the consumed point.
    ConsumedSize,
    /// The T->O size does not fit the produced point.
    ProducedSize,
    /// No configuration has this instance.
    ConfigurationPath,
    /// No consumed point has this instance.
    ConsumedPath,
    /// No produced point has this instance.
    ProducedPath,
    /// A segment of the path is unreadable.
    Segment,
}

impl Refusal {
    /// The extended status of the refusal.
    pub fn code(self) -> u16
        ensures { result ≡ refusal_code self }
    {
        match self {
            Refusal::InUse => 0x0100,
            Refusal::Trigger => 0x0103,
            Refusal::Ownership => 0x0106,
            Refusal::NotFound => 0x0107,
            Refusal::Parameter => 0x0108,
            Refusal::PacketInterval => 0x0111,
            Refusal::OutOfConnections => 0x0113,
            Refusal::VendorOrProduct => 0x0114,
            Refusal::DeviceType => 0x0115,
            Refusal::Revision => 0x0116,
            Refusal::Path => 0x0117,
            Refusal::NoSupport => 0x0119,
            Refusal::InhibitTime => 0x011B,
            Refusal::ConsumedType => 0x0123,
            Refusal::ProducedType => 0x0124,
            Refusal::ConfigurationSize => 0x0126,
            Refusal::ConsumedSize => 0x0127,
            Refusal::ProducedSize => 0x0128,
            Refusal::ConfigurationPath => 0x0129,
            Refusal::ConsumedPath => 0x012A,
            Refusal::ProducedPath => 0x012B,
            Refusal::Segment => 0x0315,
        }
    }

    /// General status 1, connection failure, with the extended status of the refusal.
    pub fn fault(self) -> Fault
        ensures value { result ≡ refusal_fault self }
        ensures some { result.general ≢ 0 }
    {
        Fault {
            general: 1,
            extended: Some(self.code()),
        }
    }
}

/// The reason of a request that the message router refuses.
///
/// Volume 1, appendix B, general status codes.
#[derive(Clone, Copy, PartialEq, Eq)]
pub enum Status {
    /// The request path is unreadable.
    PathSegment,
    /// No such object is served.
    PathDestination,
    /// The object has no such service.
    Service,
    /// The data of the request are too short.
    NotEnoughData,
    /// The object has no such attribute, or none is named.
    Attribute,
    /// The data of the request are too long.
    TooMuchData,
    /// The attribute can only be read.
    NotSettable,
    /// The requester has no permission for the service: the connection is another node's.
    PrivilegeViolation,
    /// The device is in a state that forbids the service.
    StateConflict,
    /// A parameter of the service has no such value.
    InvalidParameter,
    /// The device has no room for another request that waits for its application.
    ResourceUnavailable,
    /// The reply is longer than a message of its connection may be.
    ReplyTooLarge,
    /// The application did not answer in time.
    VendorSpecific,
}

impl Status {
    /// The general status of the refusal.
    pub fn code(self) -> u8
        ensures { result ≡ status_code self }
    {
        match self {
            Status::PathSegment => 0x04,
            Status::PathDestination => 0x05,
            Status::Service => 0x08,
            Status::NotEnoughData => 0x13,
            Status::Attribute => 0x14,
            Status::TooMuchData => 0x15,
            Status::NotSettable => 0x0E,
            Status::PrivilegeViolation => 0x0F,
            Status::StateConflict => 0x10,
            Status::InvalidParameter => 0x20,
            Status::ResourceUnavailable => 0x02,
            Status::ReplyTooLarge => 0x11,
            Status::VendorSpecific => 0x1F,
        }
    }

    /// The general status of the refusal, without an extended status.
    pub fn fault(self) -> Fault
        ensures value { result ≡ status_fault self }
        ensures some { result.general ≢ 0 }
    {
        Fault {
            general: self.code(),
            extended: None,
        }
    }
}
