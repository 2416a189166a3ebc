//! Over which streams a device sends.

ghost use Rattle.device_laws.specs.OwnStreams.{DevicesSendOverTheirStreams};

use crate::replies_carry_opened_ids;

/// A frame that a device sends over a stream goes over an open stream of its table, or over the stream that the event opens.
/// So a device that has not received the mark that a stream has opened cannot send on it.
///
/// Volume 2, chapter 2, encapsulation sessions over TCP.
pub fn devices_send_over_their_streams()
    ensures { DevicesSendOverTheirStreams }
{
    replies_carry_opened_ids();
}
