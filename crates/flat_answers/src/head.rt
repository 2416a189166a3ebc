//! The items of an answer's bytes.

ghost use Rattle.std.specs.Prelude.{◌≡◌, ◌+◌, ◌≤◌, ◌++◌, length, take, drop};
ghost use Rattle.std.specs.Int.{w32, w64, to_le_bytes};
ghost use Rattle.flat_answers.specs.Flat.{head, item};
ghost use Rattle.flat_answers.specs.Places.{Puts};

/// The kind of an item, and its four numbers.
#[derive(Clone, Copy)]
pub struct ItemHeader {
    pub kind: u32,
    pub a: u32,
    pub b: u32,
    pub c: u32,
    pub d: u32,
}

/// An item of this kind with one number.
pub fn one_number(kind: u32, a: u32) -> ItemHeader
    ensures { result ≡ head kind a 0 0 0 }
{
    ItemHeader {
        kind,
        a,
        b: 0,
        c: 0,
        d: 0,
    }
}

/// Writes an item at a position: its kind, its numbers, and its data behind their length. Returns the position behind
/// it.
pub fn put_item(out: &mut [u8], at: usize, head: ItemHeader, bytes: &[u8]) -> usize
    requires { at + length (item head bytes.now) ≤ length out.old }
    ensures { Puts (item head bytes.now) at out.old result out.new }
{
    let at = put_u32(out, at, head.kind);
    let at = put_u32(out, at, head.a);
    let at = put_u32(out, at, head.b);
    let at = put_u32(out, at, head.c);
    let at = put_u32(out, at, head.d);
    let at = put_len(out, at, bytes.len());
    put_bytes(out, at, bytes)
}

/// Writes a number of four bytes at a position, and returns the position behind it.
fn put_u32(out: &mut [u8], at: usize, number: u32) -> usize
    requires { at + 4 ≤ length out.old }
    ensures { Puts (to_le_bytes w32 number) at out.old result out.new }
{
    put_bytes(out, at, &number.to_le_bytes())
}

/// Writes a number of eight bytes at a position, and returns the position behind it.
fn put_len(out: &mut [u8], at: usize, len: usize) -> usize
    requires { at + 8 ≤ length out.old }
    ensures { Puts (to_le_bytes w64 len) at out.old result out.new }
{
    put_bytes(out, at, &(len as u64).to_le_bytes())
}

/// Writes bytes at a position, and returns the position behind them.
fn put_bytes(out: &mut [u8], at: usize, bytes: &[u8]) -> usize
    requires { at + length bytes.now ≤ length out.old }
    ensures { Puts bytes.now at out.old result out.new }
{
    overwrite(out, at, bytes);
    at + bytes.len()
}

/// Writes bytes over those at a position.
fn overwrite(out: &mut [u8], at: usize, bytes: &[u8])
    requires { at + length bytes.now ≤ length out.old }
    ensures { out.new ≡ take at out.old ++ (bytes.now ++ drop (at + length bytes.now) out.old) }
{
    let (_front, back) = out.split_at_mut(at);
    let (place, _rest) = back.split_at_mut(bytes.len());
    place.copy_from_slice(bytes);
}
