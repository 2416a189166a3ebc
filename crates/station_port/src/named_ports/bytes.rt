//! Parts of bytes.

ghost use Rattle.std.specs.Prelude.{◌≡◌, ◌+◌, ◌≤◌, drop, length};
ghost use Rattle.station_port.specs.NamedPorts.Naming.{be16_in, be32_in};

/// What is behind so many bytes: nothing, if there are no more.
pub(crate) fn behind(bytes: &[u8], count: usize) -> &[u8]
    ensures { result.now ≡ drop count bytes.now }
{
    if count <= bytes.len() {
        &bytes[count..]
    } else {
        &[]
    }
}

/// The number of 16 bits at a position, its most significant byte first.
pub(crate) fn be16_in(bytes: &[u8], at: usize) -> u16
    requires { at + 2 ≤ length bytes.now }
    ensures { result ≡ be16_in bytes.now at }
{
    let number = &bytes[at..at + 2];
    u16::from_be_bytes([number[0], number[1]])
}

/// The number of 32 bits at a position, its most significant byte first.
pub(crate) fn be32_in(bytes: &[u8], at: usize) -> u32
    requires { at + 4 ≤ length bytes.now }
    ensures { result ≡ be32_in bytes.now at }
{
    let number = &bytes[at..at + 4];
    u32::from_be_bytes([number[0], number[1], number[2], number[3]])
}
