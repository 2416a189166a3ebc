//! The two services that open a connection.

ghost use Rattle.std.specs.Prelude.{◌≡◌};
ghost use Rattle.std.specs.Option.{option_map};
ghost use Rattle.cip_fwdopen.specs.Services.{is_large_open, open_service, open_service_of};
ghost use Rattle.cip_fwdopen.specs.Reply.{opened_service};

use crate::service::{FORWARD_OPEN, LARGE_FORWARD_OPEN, REPLY};

/// A service that opens a connection.
///
/// Volume 1, chapter 3, Connection Manager services.
#[derive(Clone, Copy, PartialEq, Eq)]
pub enum OpenService {
    /// Forward_Open: at most 511 bytes in each direction.
    ForwardOpen,
    /// Large_Forward_Open: any size.
    LargeForwardOpen,
}

impl OpenService {
    /// The service with this code, if it opens a connection.
    pub fn of(code: u8) -> Option<OpenService>
        ensures { option_map is_large_open result ≡ open_service_of code }
    {
        match code {
            FORWARD_OPEN => Some(OpenService::ForwardOpen),
            LARGE_FORWARD_OPEN => Some(OpenService::LargeForwardOpen),
            _ => None,
        }
    }

    /// Whether it is Large_Forward_Open, whose connection parameters have 32 bits.
    pub fn is_large(self) -> bool
        ensures { result ≡ is_large_open self }
    {
        match self {
            OpenService::ForwardOpen => false,
            OpenService::LargeForwardOpen => true,
        }
    }

    /// The service code of a request.
    pub fn code(self) -> u8
        ensures { result ≡ open_service (is_large_open self) }
    {
        match self {
            OpenService::ForwardOpen => FORWARD_OPEN,
            OpenService::LargeForwardOpen => LARGE_FORWARD_OPEN,
        }
    }

    /// The service code of a reply.
    pub fn reply_code(self) -> u8
        ensures { result ≡ opened_service (is_large_open self) }
    {
        match self {
            OpenService::ForwardOpen => FORWARD_OPEN | REPLY,
            OpenService::LargeForwardOpen => LARGE_FORWARD_OPEN | REPLY,
        }
    }
}
