//! What a message says of the session of its stream.

ghost use Rattle.std.specs.Prelude.{◌≡◌};
ghost use Rattle.cip_encap.specs.Message.{view_message};
ghost use Rattle.station_port.specs.Streams.Sessions.{answer_in, answer_of, asks_session};

use cip_encap::{MessageView, command, read_message};

/// What a message says of the session of its stream.
#[derive(Clone, Copy, PartialEq, Eq)]
pub enum SessionAnswer {
    /// Nothing.
    None,
    /// It is registered.
    Registered,
    /// It is refused.
    Refused,
}

/// Whether the bytes of a message begin with the command RegisterSession.
///
/// Volume 2, chapter 2, RegisterSession.
pub fn asks_session(message: &[u8]) -> bool
    ensures { result ≡ asks_session message.now }
{
    match message {
        [low, high, ..] => *low == 0x65 && *high == 0,
        _ => false,
    }
}

/// What these bytes, which a target sends, say of the session of their stream.
///
/// Volume 2, chapter 2, RegisterSession.
pub fn session_answer(message: &[u8]) -> SessionAnswer
    ensures { result ≡ answer_in message.now }
{
    match read_message(message) {
        Ok(message) => answer_of(&message),
        Err(_) => SessionAnswer::None,
    }
}

/// What a message, which a target sends, says of the session of its stream.
fn answer_of(message: &MessageView<'_>) -> SessionAnswer
    ensures { result ≡ answer_of (view_message message.now) }
{
    if message.command != command::REGISTER_SESSION {
        SessionAnswer::None
    } else if message.status == 0 {
        SessionAnswer::Registered
    } else {
        SessionAnswer::Refused
    }
}
