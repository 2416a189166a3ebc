//! Inquiries, and the messages that are one.

ghost use Rattle.std.specs.Prelude.{◌≡◌};
ghost use Rattle.std.specs.Option.{option_map};
ghost use Rattle.cip_encap.specs.Message.{view_message};
ghost use Rattle.list_identity.specs.Inquiries.{inquiry_of, inquired, is_bare, inquiry_in, inquiry_message};

use cip_encap::{MessageView, command, read_message};

/// The command of a ListIdentity request and of its reply.
const LIST_IDENTITY: u16 = 0x0063;

/// The command of a ListInterfaces request and of its reply.
const LIST_INTERFACES: u16 = 0x0064;

/// A command that a station answers without a session.
///
/// Volume 2, chapter 2, encapsulation commands.
#[derive(Clone, Copy, Debug, PartialEq, Eq)]
pub enum Inquiry {
    /// ListServices: which services the device has.
    Services,
    /// ListIdentity: which device it is.
    Identity,
    /// ListInterfaces: which other interfaces it has. It has none.
    Interfaces,
}

/// The inquiry of these bytes, with their message. None for other bytes than one whole message, another command, or a
/// message with a status, options or data.
pub(crate) fn inquiry_in(message: &[u8]) -> Option<(Inquiry, MessageView<'_>)>
    ensures { option_map (λ p. (p.0, view_message p.1)) result ≡ inquiry_in message.now }
{
    match read_message(message) {
        Ok(request) => inquiry_message(request),
        Err(_) => None,
    }
}

/// The inquiry of a message, with the message.
fn inquiry_message(message: MessageView<'_>) -> Option<(Inquiry, MessageView<'_>)>
    ensures { option_map (λ p. (p.0, view_message p.1)) result ≡ inquiry_message (view_message message.entry) }
{
    match inquired(&message) {
        Some(inquiry) => Some((inquiry, message)),
        None => None,
    }
}

/// The inquiry of a message.
fn inquired(message: &MessageView<'_>) -> Option<Inquiry>
    ensures { result ≡ inquired (view_message message.now) }
{
    if is_bare(message) {
        inquiry_of(message.command)
    } else {
        None
    }
}

/// Whether a message has no data, status or options.
fn is_bare(message: &MessageView<'_>) -> bool
    ensures { result ≡ is_bare (view_message message.now) }
{
    message.status == 0 && message.options == 0 && message.data.is_empty()
}

/// The inquiry of a command.
fn inquiry_of(command: u16) -> Option<Inquiry>
    ensures { result ≡ inquiry_of command }
{
    match command {
        command::LIST_SERVICES => Some(Inquiry::Services),
        LIST_IDENTITY => Some(Inquiry::Identity),
        LIST_INTERFACES => Some(Inquiry::Interfaces),
        _ => None,
    }
}
