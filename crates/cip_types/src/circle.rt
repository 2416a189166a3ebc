//! The order of sequence numbers.

ghost use Rattle.std.specs.Prelude.{◌≡◌, ◌↔◌, IsTrue};
ghost use Rattle.cip_types.specs.Circle.{IsNewer, is_newer};

/// Whether sequence number `a` of a sequenced address item is newer than `b`: ahead of it on the circle of
/// 32-bit numbers, by less than half of the circle.
///
/// Volume 2, chapter 2, sequenced address item.
pub fn newer32(a: u32, b: u32) -> bool
    ensures newer { IsTrue result ↔ IsNewer a b }
    // The same as a test.
    ensures value { result ≡ is_newer a b }
{
    a.wrapping_sub(b).cast_signed() > 0
}

/// Whether two sequence counts of class 1 data are the same. The later datagram then has no new data.
///
/// Volume 1, chapter 3, class 1 transports.
pub fn same16(a: u16, b: u16) -> bool
    ensures { IsTrue result ↔ (a ≡ b) }
{
    a == b
}
