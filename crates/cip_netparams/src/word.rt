//! Words of network connection parameters.

ghost use Rattle.std.specs.Prelude.{◌≡◌, ◌≤◌, ◌<◌};
ghost use Rattle.cip_netparams.specs.declared.NetParams.{NetParams};
ghost use Rattle.cip_netparams.specs.Word.{IsWord16, IsWord32, word16, word32, params16, params32, priority_code, type_code};

use crate::{ConnectionType, NetParams, Priority};

fn priority_of(bits: u32) -> Priority
    requires { bits < 4 }
    ensures { priority_code result ≡ bits }
{
    match bits {
        0 => Priority::Low,
        1 => Priority::High,
        2 => Priority::Scheduled,
        _ => Priority::Urgent,
    }
}

fn type_of(bits: u32) -> ConnectionType
    requires { bits < 4 }
    ensures { type_code result ≡ bits }
{
    match bits {
        0 => ConnectionType::Null,
        1 => ConnectionType::Multicast,
        2 => ConnectionType::PointToPoint,
        _ => ConnectionType::Reserved,
    }
}

fn priority_bits(priority: Priority) -> u32
    ensures { result ≡ priority_code priority }
{
    match priority {
        Priority::Low => 0,
        Priority::High => 1,
        Priority::Scheduled => 2,
        Priority::Urgent => 3,
    }
}

fn type_bits(kind: ConnectionType) -> u32
    ensures { result ≡ type_code kind }
{
    match kind {
        ConnectionType::Null => 0,
        ConnectionType::Multicast => 1,
        ConnectionType::PointToPoint => 2,
        ConnectionType::Reserved => 3,
    }
}

/// Reads the parameters of a word of 16 bits. The spare bit is not judged.
///
/// Volume 1, chapter 3, network connection parameters of Forward_Open.
pub fn read16(word: u16) -> NetParams
    ensures value { result ≡ params16 word }
    ensures carried { IsWord16 word result }
    ensures only { (other : NetParams) → IsWord16 word other → result ≡ other }
{
    NetParams {
        size: word & 0x1FF,
        variable: (word >> 9) & 1 == 1,
        priority: priority_of(u32::from(word >> 10) & 3),
        kind: type_of(u32::from(word >> 13) & 3),
        redundant: word >> 15 == 1,
    }
}

/// Reads the parameters of a word of 32 bits. The spare bits are not judged.
///
/// Volume 1, chapter 3, network connection parameters of Large_Forward_Open.
pub fn read32(word: u32) -> NetParams
    ensures value { result ≡ params32 word }
    ensures carried { IsWord32 word result }
    ensures only { (other : NetParams) → IsWord32 word other → result ≡ other }
{
    NetParams {
        size: (word & 0xFFFF) as u16,
        variable: (word >> 25) & 1 == 1,
        priority: priority_of((word >> 26) & 3),
        kind: type_of((word >> 29) & 3),
        redundant: word >> 31 == 1,
    }
}

/// Writes the parameters as a word of 16 bits, its spare bit zero. The size has at most nine bits.
///
/// Volume 1, chapter 3, network connection parameters of Forward_Open.
pub fn write16(params: &NetParams) -> u16
    requires { params.now.size ≤ 511 }
    ensures value { result ≡ word16 params.now 0 }
    ensures read_back { params16 result ≡ params.now }
{
    let word = u32::from(params.size)
        | u32::from(params.variable) << 9
        | priority_bits(params.priority) << 10
        | type_bits(params.kind) << 13
        | u32::from(params.redundant) << 15;
    word as u16
}

/// Writes the parameters as a word of 32 bits, its spare bits zero.
///
/// Volume 1, chapter 3, network connection parameters of Large_Forward_Open.
pub fn write32(params: &NetParams) -> u32
    ensures value { result ≡ word32 params.now 0 0 }
    ensures read_back { params32 result ≡ params.now }
{
    u32::from(params.size)
        | u32::from(params.variable) << 25
        | priority_bits(params.priority) << 26
        | type_bits(params.kind) << 29
        | u32::from(params.redundant) << 31
}
