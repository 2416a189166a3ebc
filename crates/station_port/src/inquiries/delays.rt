//! How long the answer to a broadcast waits.

ghost use Rattle.std.specs.Prelude.{◌≡◌, ◌≤◌};
ghost use Rattle.station_port.specs.Inquiries.Delays.{drawn_delay, longest_delay, longest_of, named_delay};

use cip_types::fields::u16_in;

/// Where the sender context of an encapsulation header begins.
///
/// Volume 2, chapter 2, encapsulation header.
const CONTEXT_AT: usize = 12;

/// The longest delay of a request that names none, in milliseconds. A longer one counts as this one, so that no request holds
/// a place for longer.
///
/// Volume 2, chapter 2, ListIdentity.
const MOST_MS: u16 = 2_000;

/// A shorter longest delay counts as this one.
const LEAST_MS: u16 = 500;

/// The longest delay of the answer to a request that came by broadcast, in milliseconds: the first two bytes of its sender
/// context; 2,000 where they are 0 or more, 500 where they are less. A request that ends before them names none.
pub fn longest_delay(request: &[u8]) -> u16
    ensures { result ≡ longest_delay request.now }
{
    longest_of(named_delay(request))
}

/// The number that a request has where the delay stands: 0 if it ends before.
fn named_delay(request: &[u8]) -> u16
    ensures { result ≡ named_delay request.now }
{
    if request.len() < CONTEXT_AT + 2 {
        0
    } else {
        u16_in(request, CONTEXT_AT)
    }
}

/// The longest delay that a number names.
fn longest_of(named_ms: u16) -> u16
    ensures { result ≡ longest_of named_ms }
{
    if named_ms == 0 {
        MOST_MS
    } else {
        named_ms.max(LEAST_MS).min(MOST_MS)
    }
}

/// The delay that a random word draws: 0 to the longest one, each of which a word draws.
pub fn drawn_delay(word: u64, longest_ms: u16) -> u64
    ensures drawn { result ≡ drawn_delay word longest_ms }
    ensures bounded { result ≤ longest_ms }
{
    word % (u64::from(longest_ms) + 1)
}
