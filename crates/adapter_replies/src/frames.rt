//! Readings of frames.

ghost use Rattle.std.specs.Prelude.{◌≡◌};
ghost use Rattle.std.specs.Str.{bytes_eq};
ghost use Rattle.cip_types.specs.Fields.{fields_at};
ghost use Rattle.cip_encap.specs.Connected.{view_connected};
ghost use Rattle.cip_encap.specs.Message.{header_widths, view_message};
ghost use Rattle.cip_encap.specs.Packet.{view_packet};
ghost use Rattle.cip_encap.specs.Reading.{seen};
ghost use Rattle.cip_router.specs.Frames.{frame_reading, protocol_text, wrong_length_of};
ghost use Rattle.adapter_table.specs.Encapsulation.{connected_items_for, described_frame, described_message, discarded, frame_for, is_list, items_for};
ghost use Rattle.adapter_replies.specs.Routes.{view_frame};

use crate::replies::PROTOCOL;
use crate::routes::RequestHeader;
use adapter_table::Description;
use cip_encap::command::{LIST_SERVICES, NOP};
use cip_encap::{
    CommonPacket, ConnectedPacket, ItemFault, MessageView, read_any_connected_items,
    read_any_items, read_connected_items, read_items, read_message, read_message_header,
};

/// The bytes of a frame, read.
///
/// Volume 2, chapter 2, encapsulation messages.
#[derive(Clone, Copy)]
pub enum FrameView<'a> {
    /// Too few bytes for a header.
    NoHeader,
    /// A header whose length field is not the length of the bytes behind it.
    BadLength(RequestHeader),
    /// A whole message, with its data.
    Whole(RequestHeader, &'a [u8]),
}

/// The commands of messages without data: ListServices, ListIdentity and ListInterfaces.
///
/// Volume 2, chapter 2, encapsulation commands.
const LISTS: [u16; 3] = [LIST_SERVICES, 0x0063, 0x0064];

/// The header of bytes that are no whole message.
fn misfit_frame(bytes: &[u8]) -> FrameView<'_>
    ensures { view_frame result ≡ wrong_length_of (fields_at header_widths bytes.now) }
{
    match read_message_header(bytes) {
        Some((header, _rest)) => FrameView::BadLength(RequestHeader::of_header(&header)),
        None => FrameView::NoHeader,
    }
}

/// Reads the bytes of a frame. The status and options of a request are ignored.
#[tactic(auto, unfolding(cip_router::specs::Frames::frame_reading))]
fn read_frame(bytes: &[u8]) -> FrameView<'_>
    ensures { view_frame result ≡ frame_reading bytes.now }
{
    match read_message(bytes) {
        Ok(message) => FrameView::Whole(RequestHeader::of_message(&message), message.data),
        Err(_) => misfit_frame(bytes),
    }
}

/// Whether the messages of a command have no data.
fn is_list(command: u16) -> bool
    ensures { result ≡ is_list command }
{
    command == LISTS[0] || command == LISTS[1] || command == LISTS[2]
}

/// A message that is discarded, taken for a NOP, which has no reply.
fn discarded(message: MessageView<'_>) -> FrameView<'_>
    ensures { view_frame result ≡ discarded (view_message message.entry) }
{
    let header = RequestHeader {
        command: NOP,
        session: message.session,
        context: message.context,
    };
    FrameView::Whole(header, message.data)
}

/// A whole message of these bytes, as a described device takes it.
fn described_message<'a>(bytes: &'a [u8], message: MessageView<'a>) -> FrameView<'a>
    ensures { view_frame result
        ≡ described_message (fields_at header_widths bytes.now) (view_message message.entry) }
{
    if message.options != 0 {
        return discarded(message);
    }
    if is_list(message.command) && !message.data.is_empty() {
        return misfit_frame(bytes);
    }
    FrameView::Whole(RequestHeader::of_message(&message), message.data)
}

/// Reads the bytes of a frame as a described device does: a message with options is discarded, and data of a command
/// that has none are of a wrong length.
#[tactic(auto, unfolding(adapter_table::specs::Encapsulation::described_frame))]
fn read_described_frame(bytes: &[u8]) -> FrameView<'_>
    ensures { view_frame result ≡ described_frame bytes.now }
{
    match read_message(bytes) {
        Ok(message) => described_message(bytes, message),
        Err(_) => misfit_frame(bytes),
    }
}

/// Reads the bytes of a frame, as a device takes them that is described or not. Only a described one judges the options
/// of a message, and the length of a message of a command without data.
///
/// Volume 2, chapter 2, encapsulation messages and commands.
pub fn read_frame_for<'a>(description: &Option<Description>, bytes: &'a [u8]) -> FrameView<'a>
    ensures { view_frame result ≡ frame_for description.now bytes.now }
{
    match description {
        Some(_) => read_described_frame(bytes),
        None => read_frame(bytes),
    }
}

/// Reads the items around a request, as a device takes them that is described or not. Only a described one skips items behind the
/// request that nobody knows.
///
/// Volume 2, chapter 2, common packet format.
pub fn read_items_for<'a>(
    description: &Option<Description>,
    body: &'a [u8],
) -> Result<CommonPacket<'a>, ItemFault>
    ensures { seen view_packet result ≡ items_for description.now body.now }
{
    match description {
        Some(_) => read_any_items(body),
        None => read_items(body),
    }
}

/// Reads the items around a message of a class 3 connection, likewise.
///
/// Volume 2, chapter 2, common packet format.
pub fn read_connected_items_for<'a>(
    description: &Option<Description>,
    body: &'a [u8],
) -> Result<ConnectedPacket<'a>, ItemFault>
    ensures { seen view_connected result ≡ connected_items_for description.now body.now }
{
    match description {
        Some(_) => read_any_connected_items(body),
        None => read_connected_items(body),
    }
}

/// Whether the data of RegisterSession request protocol version 1, without option flags.
///
/// Volume 2, chapter 2, RegisterSession.
pub fn is_protocol(body: &[u8]) -> bool
    ensures { result ≡ bytes_eq body.now protocol_text }
{
    body == PROTOCOL.as_slice()
}
