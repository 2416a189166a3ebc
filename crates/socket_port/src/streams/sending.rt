//! Messages that a socket may take in part.

ghost use Rattle.std.specs.Prelude.{◌≡◌, true, false};
ghost use Rattle.std.specs.Io.KnownBytes.{Appends};
ghost use Rattle.socket_port.specs.Streams.StreamArrivals.{IsCutShort};

use std::io::Write;

/// Whether a socket takes all of a message at once. If it takes only a beginning, the message is not written.
pub(crate) fn write_message<W: Write>(socket: &mut W, message: &[u8]) -> bool
    ensures whole { result ≡ true → Appends (W.contents socket.old) (W.contents socket.new) message.now }
    ensures cut_short { result ≡ false → IsCutShort (W.contents socket.old) message.now (W.contents socket.new) }
{
    if message.is_empty() {
        return true;
    }
    match socket.write(message) {
        Ok(count) => count == message.len(),
        Err(_) => false,
    }
}
