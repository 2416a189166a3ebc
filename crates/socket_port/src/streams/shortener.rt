//! Messages that are too long for a device, of which it sees the header alone.

ghost use Rattle.std.specs.Prelude.{◌≡◌, ◌++◌, ◌≤◌, length, IfOk, OnOk};
ghost use Rattle.socket_port.specs.Streams.Shortening.{begun, seen_byte, seen_bytes, seen_header, without_length};

use cip_encap::HEADER_LEN;
use cip_types::OutOfMemory;
use cip_types::fields::{put_bytes, u16_in};
use cip_types::limits::LONGEST_MESSAGE;
use std::alloc::Global;
use std::marker::Model;

/// The position of the length field of a message, which counts the bytes behind its header.
///
/// Volume 2, chapter 2, encapsulation header.
const LENGTH_AT: usize = 2;

/// The bytes of a stream as a device sees them: of a message with more than 2,048 bytes of data it sees the header alone, with the
/// length 0. Contracts see the bytes of a header that has not come whole, and how many bytes of the present data are kept and skipped.
#[derive(Drop)]
pub struct Shortener {
    head: Vec<u8>,
    kept: u16,
    skipped: u16,
}

impl Model for Shortener {
    ghost use Rattle.socket_port.specs.Streams.Shortening.{Shortening};

    ghost Value = { Shortening };

    ghost view = { λ s. record { head = s.head.items; kept = s.kept; skipped = s.skipped } };
}

impl Shortener {
    /// The beginning of a stream. Takes no memory.
    pub fn begin(alloc: Global) -> Shortener
        ensures { result ≡ begun }
    {
        Shortener {
            head: Vec::new(alloc),
            kept: 0,
            skipped: 0,
        }
    }

    /// The next bytes of the stream, as the device sees them. A header is seen once it has come whole. The fault: an allocation was
    /// refused, and the stream cannot be read on.
    pub fn shorten(&mut self, alloc: Global, piece: &[u8]) -> Result<Vec<u8>, OutOfMemory>
        ensures seen { IfOk result (λ out. out.items ≡ (seen_bytes self.old piece.now).0) }
        ensures left { OnOk result (self.new ≡ (seen_bytes self.old piece.now).1) }
    {
        let mut out = Vec::new(alloc);
        for byte in piece {
            self.take(*byte, &mut out)?;
        }
        Ok(out)
    }

    /// Appends what the device sees with the next byte. The fault: an allocation was refused.
    fn take(&mut self, byte: u8, out: &mut Vec<u8>) -> Result<(), OutOfMemory>
        ensures seen { OnOk result (out.new.items ≡ out.old.items ++ (seen_byte self.old byte).0) }
        ensures left { OnOk result (self.new ≡ (seen_byte self.old byte).1) }
    {
        if self.skipped != 0 {
            self.skipped -= 1;
            return Ok(());
        }
        if self.kept != 0 {
            self.kept -= 1;
            return put_bytes(out, &[byte]);
        }
        self.head.push(byte)?;
        if self.head.len() < HEADER_LEN {
            return Ok(());
        }
        self.end_header(out)
    }

    /// Appends a header that has come whole, as the device sees it. The fault: an allocation was refused.
    fn end_header(&mut self, out: &mut Vec<u8>) -> Result<(), OutOfMemory>
        requires { 24 ≤ length self.old.head }
        ensures seen { OnOk result (out.new.items ≡ out.old.items ++ (seen_header self.old.head).0) }
        ensures left { OnOk result (self.new ≡ (seen_header self.old.head).1) }
    {
        let len = u16_in(self.head.as_slice(), LENGTH_AT);
        if usize::from(len) <= LONGEST_MESSAGE {
            put_bytes(out, self.head.as_slice())?;
            self.kept = len;
            self.skipped = 0;
        } else {
            put_without_length(out, self.head.as_slice())?;
            self.kept = 0;
            self.skipped = len;
        }
        self.head.clear();
        Ok(())
    }
}

/// Appends a header whose length is 0. The fault: an allocation was refused.
fn put_without_length(out: &mut Vec<u8>, header: &[u8]) -> Result<(), OutOfMemory>
    requires { 24 ≤ length header.now }
    ensures { OnOk result (out.new.items ≡ out.old.items ++ without_length header.now) }
{
    put_bytes(out, &header[..LENGTH_AT])?;
    put_bytes(out, &[0, 0])?;
    put_bytes(out, &header[LENGTH_AT + 2..])
}
