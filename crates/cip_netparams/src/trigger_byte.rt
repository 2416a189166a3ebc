//! The transport class and trigger byte.

ghost use Rattle.std.specs.Prelude.{◌≡◌, Some, IfSome, IfNone};
ghost use Rattle.cip_netparams.specs.declared.Trigger.{Trigger};
ghost use Rattle.cip_netparams.specs.Word.{IsTriggerByte, trigger_of, trigger_byte, is_message_trigger as message_test};

use crate::Trigger;

/// The class and trigger byte of a class 3 connection: class 3, the application object's trigger, and the direction bit
/// of a server.
const MESSAGE_TRIGGER: u8 = 0xA3;

/// Whether the class and trigger byte of a request is that of a class 3 connection. The direction bit is judged.
///
/// Volume 1, chapter 3, transport class and trigger.
pub fn is_message_trigger(byte: u8) -> bool
    ensures { result ≡ message_test byte }
{
    byte == MESSAGE_TRIGGER
}

impl Trigger {
    /// Reads the class and trigger byte of a request. The direction bit is not judged. None where the class is
    /// not 1, or the trigger is neither of these.
    ///
    /// Volume 1, chapter 3, transport class and trigger.
    pub fn read(byte: u8) -> Option<Trigger>
        ensures value { result ≡ trigger_of byte }
        ensures some { IfSome result (IsTriggerByte byte) }
        ensures none { IfNone result ((other : Trigger) → IsTriggerByte byte other → ⊥) }
    {
        match byte & 0x7F {
            0x01 => Some(Trigger::Cyclic),
            0x11 => Some(Trigger::ChangeOfState),
            _ => None,
        }
    }

    /// The class and trigger byte of a class 1 connection with this trigger, its direction bit zero.
    ///
    /// Volume 1, chapter 3, transport class and trigger.
    pub fn byte(self) -> u8
        ensures value { result ≡ trigger_byte self }
        ensures is_byte { IsTriggerByte result self }
        ensures read_back { trigger_of result ≡ Some self }
    {
        match self {
            Trigger::Cyclic => 0x01,
            Trigger::ChangeOfState => 0x11,
        }
    }
}
