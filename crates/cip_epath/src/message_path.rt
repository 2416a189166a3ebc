//! Reading the path of a class 3 connection.

ghost use Rattle.std.specs.Prelude.{◌≡◌, Result, Option};
ghost use Rattle.std.specs.Option.{option_map};
ghost use Rattle.cip_epath.specs.declared.fault.PathFault.{PathFault};
ghost use Rattle.cip_epath.specs.ElectronicKey.{KeyFields, view_key};
ghost use Rattle.cip_epath.specs.Segment.{view_segment};
ghost use Rattle.cip_epath.specs.Path.{IsReading};
ghost use Rattle.cip_epath.specs.Reading.{Gives, seen};
ghost use Rattle.cip_epath.specs.MessagePath.{IsMessagePath, message_path_reading};
ghost use Rattle.cip_epath.specs.MessageBuilder.{view_message_builder, after_class as state_after_class, after_instance as state_after_instance, next_message, message_of};

use crate::class::MESSAGE_ROUTER;
use crate::fault::PathFault;
use crate::key::ElectronicKey;
use crate::reading::segment_of;
use crate::segment::{LogicalType, Segment};

/// The state of the walk over the path of a class 3 connection.
#[derive(Clone, Copy)]
pub enum MessageBuilder {
    Start,
    Keyed(ElectronicKey),
    /// The message router's class, behind an optional key.
    Classed(Option<ElectronicKey>),
    /// Its class and its instance.
    Whole(Option<ElectronicKey>),
    /// A segment was out of place, or of another object.
    Misplaced,
}

/// The state after a class, behind an optional key.
fn after_class(key: Option<ElectronicKey>, class: u32) -> MessageBuilder
    ensures { view_message_builder result ≡ state_after_class (option_map view_key key) class }
{
    if class == MESSAGE_ROUTER {
        MessageBuilder::Classed(key)
    } else {
        MessageBuilder::Misplaced
    }
}

/// The state after an instance of the message router's class.
fn after_instance(key: Option<ElectronicKey>, instance: u32) -> MessageBuilder
    ensures { view_message_builder result ≡ state_after_instance (option_map view_key key) instance }
{
    if instance == 1 {
        MessageBuilder::Whole(key)
    } else {
        MessageBuilder::Misplaced
    }
}

impl MessageBuilder {
    /// The state after one more segment.
    pub fn then(self, segment: Segment<'_>) -> MessageBuilder
        ensures { view_message_builder result
            ≡ next_message (view_segment segment.entry) (view_message_builder self) }
    {
        match (segment, self) {
            (Segment::ElectronicKey(key), MessageBuilder::Start) => MessageBuilder::Keyed(key),
            (Segment::Logical(LogicalType::Class, class), MessageBuilder::Start) => {
                after_class(None, class)
            }
            (Segment::Logical(LogicalType::Class, class), MessageBuilder::Keyed(key)) => {
                after_class(Some(key), class)
            }
            (Segment::Logical(LogicalType::Instance, instance), MessageBuilder::Classed(key)) => {
                after_instance(key, instance)
            }
            _ => MessageBuilder::Misplaced,
        }
    }
}

/// The key of a finished walk.
pub fn finished_message(builder: MessageBuilder) -> Result<Option<ElectronicKey>, PathFault>
    ensures { Gives (option_map view_key) result (message_of (view_message_builder builder)) }
{
    match builder {
        MessageBuilder::Whole(key) => Ok(key),
        _ => Err(PathFault::Shape),
    }
}

/// The key of the segments, from the front on.
fn walked_message(bytes: &[u8]) -> Result<Option<ElectronicKey>, PathFault>
    ensures { seen (option_map view_key) result ≡ message_path_reading bytes.now }
{
    let mut rest = bytes;
    let mut builder = MessageBuilder::Start;
    while !rest.is_empty() {
        let (segment, after) = segment_of(rest)?;
        builder = builder.then(segment);
        rest = after;
    }
    finished_message(builder)
}

/// Reads the path of a class 3 connection: the message router, class 2 and instance 1, behind an optional electronic
/// key. It answers the key. The faults are those of `read_path`: `Shape` where every segment is readable and they are
/// others than these.
///
/// Volume 1, chapter 3, connection path, and chapter 5, Message Router object.
pub fn read_message_path(bytes: &[u8]) -> Result<Option<ElectronicKey>, PathFault>
    // The result is a reading of the bytes.
    ensures reading { IsReading IsMessagePath bytes.now (seen (option_map view_key) result) }
    // The bytes have no other reading.
    ensures only { (other : Result (Option KeyFields) PathFault) → IsReading IsMessagePath bytes.now other
        → seen (option_map view_key) result ≡ other }
    // The same as a function of the bytes.
    ensures value { seen (option_map view_key) result ≡ message_path_reading bytes.now }
{
    walked_message(bytes)
}
