//! Messages that stations send beside their devices.

ghost use Rattle.std.specs.Prelude.{◌≡◌};
ghost use Rattle.record_settling.specs.StreamNames.StationMessages.{is_of_station};

use cip_encap::command::{NOP, UNREGISTER_SESSION};
use cip_types::fields::u16_at;

/// Whether a message is one that stations send beside their devices: NOP and UnRegisterSession.
pub fn is_of_station(message: &[u8]) -> bool
    ensures { result ≡ is_of_station message.now }
{
    match u16_at(message) {
        Some((command, _)) => command == NOP || command == UNREGISTER_SESSION,
        None => false,
    }
}
