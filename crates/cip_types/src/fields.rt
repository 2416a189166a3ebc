//! Reading little-endian numbers from bytes, and appending them.

ghost use Rattle.std.specs.Prelude.{◌≡◌, ◌+◌, ◌≤◌, ◌++◌, ◌∷◌, [], OnOk, OnErr, length};
ghost use Rattle.std.specs.Int.{w8, w16, w32, to_le_bytes};
ghost use Rattle.cip_types.specs.Fields.{Finds, field_at};
ghost use Rattle.cip_types.specs.Parts.{number_in};

use crate::memory::OutOfMemory;

/// The number of one byte at the front, and the bytes after it. None where there is no byte.
pub fn u8_at(bytes: &[u8]) -> Option<(u8, &[u8])>
    ensures { Finds (λ x. (x.0, x.1.now)) result (field_at w8 bytes.now) }
{
    match bytes {
        [] => None,
        [number, rest @ ..] => Some((*number, rest)),
    }
}

/// The number of two bytes at the front, and the bytes after it. None where there are fewer bytes.
pub fn u16_at(bytes: &[u8]) -> Option<(u16, &[u8])>
    ensures { Finds (λ x. (x.0, x.1.now)) result (field_at w16 bytes.now) }
{
    if bytes.len() < 2 {
        return None;
    }
    let (front, rest) = bytes.split_at(2);
    Some((u16::from_le_bytes([front[0], front[1]]), rest))
}

/// The number of four bytes at the front, and the bytes after it. None where there are fewer bytes.
pub fn u32_at(bytes: &[u8]) -> Option<(u32, &[u8])>
    ensures { Finds (λ x. (x.0, x.1.now)) result (field_at w32 bytes.now) }
{
    if bytes.len() < 4 {
        return None;
    }
    let (front, rest) = bytes.split_at(4);
    let number = u32::from_le_bytes([front[0], front[1], front[2], front[3]]);
    Some((number, rest))
}

/// The number of two bytes at a position.
pub fn u16_in(bytes: &[u8], at: usize) -> u16
    requires { at + 2 ≤ length bytes.now }
    ensures { result ≡ number_in w16 bytes.now at }
{
    let number = &bytes[at..at + 2];
    u16::from_le_bytes([number[0], number[1]])
}

/// The number of four bytes at a position.
pub fn u32_in(bytes: &[u8], at: usize) -> u32
    requires { at + 4 ≤ length bytes.now }
    ensures { result ≡ number_in w32 bytes.now at }
{
    let number = &bytes[at..at + 4];
    u32::from_le_bytes([number[0], number[1], number[2], number[3]])
}

/// Appends a number of one byte.
pub fn put_u8(out: &mut Vec<u8>, number: u8) -> Result<(), OutOfMemory>
    ensures ok { OnOk result (out.new.items ≡ out.old.items ++ number ∷ []) }
    ensures err { OnErr result (out.new.items ≡ out.old.items) }
{
    out.push(number)?;
    Ok(())
}

/// Appends a number of two bytes.
pub fn put_u16(out: &mut Vec<u8>, word: u16) -> Result<(), OutOfMemory>
    ensures ok { OnOk result (out.new.items ≡ out.old.items ++ to_le_bytes w16 word) }
    ensures err { OnErr result (out.new.items ≡ out.old.items) }
{
    out.extend_from_slice(&word.to_le_bytes())?;
    Ok(())
}

/// Appends a number of four bytes.
pub fn put_u32(out: &mut Vec<u8>, number: u32) -> Result<(), OutOfMemory>
    ensures ok { OnOk result (out.new.items ≡ out.old.items ++ to_le_bytes w32 number) }
    ensures err { OnErr result (out.new.items ≡ out.old.items) }
{
    out.extend_from_slice(&number.to_le_bytes())?;
    Ok(())
}

/// Appends bytes.
pub fn put_bytes(out: &mut Vec<u8>, bytes: &[u8]) -> Result<(), OutOfMemory>
    ensures ok { OnOk result (out.new.items ≡ out.old.items ++ bytes.now) }
    ensures err { OnErr result (out.new.items ≡ out.old.items) }
{
    out.extend_from_slice(bytes)?;
    Ok(())
}
