//! The commands of encapsulation messages, and the statuses of refused messages.

ghost use Rattle.std.specs.Prelude.{◌≡◌, ◌≢◌};
ghost use Rattle.cip_router.specs.Commands.{command_of, is_silent, encap_code};

use cip_encap::command;

/// The command of an encapsulation message.
///
/// Volume 2, chapter 2, encapsulation commands.
#[derive(Clone, Copy, PartialEq, Eq)]
pub enum Command {
    /// No operation.
    Nop,
    /// Lists the services of the device.
    ListServices,
    /// Opens a session on the stream.
    RegisterSession,
    /// Closes the session and its stream.
    UnregisterSession,
    /// Carries a request to the message router.
    SendRrData,
    /// Carries a message of a class 3 connection.
    SendUnitData,
    /// Any command that is not served.
    Other,
}

impl Command {
    /// The command of a number.
    pub fn of(code: u16) -> Command
        ensures { result ≡ command_of code }
    {
        match code {
            command::NOP => Command::Nop,
            command::LIST_SERVICES => Command::ListServices,
            command::REGISTER_SESSION => Command::RegisterSession,
            command::UNREGISTER_SESSION => Command::UnregisterSession,
            command::SEND_RR_DATA => Command::SendRrData,
            command::SEND_UNIT_DATA => Command::SendUnitData,
            _ => Command::Other,
        }
    }

    /// Whether a message of this command never has a reply.
    pub fn is_silent(self) -> bool
        ensures { result ≡ is_silent self }
    {
        match self {
            Command::Nop | Command::UnregisterSession => true,
            Command::ListServices
            | Command::RegisterSession
            | Command::SendRrData
            | Command::SendUnitData
            | Command::Other => false,
        }
    }
}

/// The reason of a refused encapsulation message.
///
/// Volume 2, chapter 2, encapsulation status codes.
#[derive(Clone, Copy, PartialEq, Eq)]
pub enum EncapStatus {
    /// The command is not served, or not on this stream.
    InvalidCommand,
    /// The data does not fit the command.
    IncorrectData,
    /// The session is not the stream's.
    InvalidSession,
    /// The length of the message does not fit the command, or its length field is wrong.
    InvalidLength,
    /// The protocol version is not served.
    UnsupportedVersion,
}

impl EncapStatus {
    /// The status of the reply, never 0.
    pub fn code(self) -> u32
        ensures value { result ≡ encap_code self }
        ensures some { result ≢ 0 }
    {
        match self {
            EncapStatus::InvalidCommand => 0x0001,
            EncapStatus::IncorrectData => 0x0003,
            EncapStatus::InvalidSession => 0x0064,
            EncapStatus::InvalidLength => 0x0065,
            EncapStatus::UnsupportedVersion => 0x0069,
        }
    }
}
