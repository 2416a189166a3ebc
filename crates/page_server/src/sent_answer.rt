//! How long a browser may take. Its request has a time; each write to it has one, and so has the whole answer, or each event of an
//! event stream, or each piece of a file.

ghost use Rattle.std.specs.Prelude.{◌≡◌};
ghost use Rattle.page_server.specs.Waits.{piece_wait_ms, request_wait_ms, write_wait_ms};

use crate::talk::Unheard;
use std::io::{ErrorKind, Write};
use std::net::TcpStream;
use std::rt::Clock;
use std::time::{Duration, Instant};

/// A request is to arrive within so many milliseconds.
const REQUEST_MS: u64 = 3_000;

/// A write waits at most so long for a browser that does not read, in milliseconds.
const WRITE_MS: u64 = 3_000;

/// A whole answer may take so many milliseconds.
const ANSWER_MS: u64 = 5_000;

/// It may take a millisecond more for each so many bytes that the system has taken.
const BYTES_PER_MS: u64 = 100;

/// Each piece of a file has so many milliseconds.
const PIECE_MS: u64 = 10_000;

/// A thread of the page pauses so long behind each piece of its work, in milliseconds, so that a station that shares its
/// processor has its time.
pub(crate) const PAUSE_MS: u64 = 1;

/// A whole answer, or an event of an event stream, that is being sent.
#[derive(Drop)]
pub(crate) struct SentAnswer {
    begin: Instant,
    /// The bytes that the system has taken.
    sent: u64,
}

impl SentAnswer {
    /// An answer begins now. The fault: the clock could not be read.
    pub(crate) fn begin<R: Clock>(rt: &R) -> Result<SentAnswer, Unheard> {
        match Instant::now(rt) {
            Ok(begin) => Ok(SentAnswer { begin, sent: 0 }),
            Err(_) => Err(Unheard::Left),
        }
    }

    /// Sends bytes whole. The fault: the browser has left, or does not read them in time.
    pub(crate) fn send<R: Clock>(
        &mut self,
        rt: &R,
        stream: &mut TcpStream,
        bytes: &[u8],
    ) -> Result<(), Unheard> {
        let mut rest = bytes;
        for _ in 0..u64::MAX {
            if rest.is_empty() {
                return Ok(());
            }
            let wait = self.wait(rt)?;
            let count = write_within(stream, rest, wait)?;
            self.sent = self.sent.saturating_add(count as u64);
            rest = rest.get(count..).unwrap_or(&[]);
        }
        Err(Unheard::Left)
    }

    /// How long the next write may wait. The fault: the answer's time is over.
    fn wait<R: Clock>(&self, rt: &R) -> Result<Duration, Unheard> {
        match write_wait_ms(passed_ms(rt, self.begin)?, self.sent) {
            0 => Err(Unheard::Left),
            ms => Ok(Duration::from_millis(ms)),
        }
    }
}

/// How long a read of a request may wait, in milliseconds, if so many have passed since the browser came: 0 if the request's time
/// is over, which is 3,000, however many reads it takes.
pub(crate) fn request_wait_ms(passed_ms: u64) -> u64
    ensures { result ≡ request_wait_ms passed_ms }
{
    REQUEST_MS.saturating_sub(passed_ms)
}

/// How long a write of an answer may wait, in milliseconds, if so many have passed since the answer began, and the system has
/// taken so many bytes of it: at most 3,000, and 0 if the answer's time is over, which is 5,000 and 1 more for each 100 bytes.
pub(crate) fn write_wait_ms(passed_ms: u64, sent: u64) -> u64
    ensures { result ≡ write_wait_ms passed_ms sent }
{
    let whole = ANSWER_MS + sent / BYTES_PER_MS;
    WRITE_MS.min(whole.saturating_sub(passed_ms))
}

/// Sends a piece of a file whole. The fault: the browser has left, or does not read the piece in time.
pub(crate) fn send_piece<R: Clock>(
    rt: &R,
    stream: &mut TcpStream,
    bytes: &[u8],
) -> Result<(), Unheard> {
    let Ok(begin) = Instant::now(rt) else {
        return Err(Unheard::Left);
    };
    let mut rest = bytes;
    for _ in 0..u64::MAX {
        if rest.is_empty() {
            return Ok(());
        }
        let ms = piece_wait_ms(passed_ms(rt, begin)?);
        if ms == 0 {
            break;
        }
        let count = write_within(stream, rest, Duration::from_millis(ms))?;
        rest = rest.get(count..).unwrap_or(&[]);
    }
    Err(Unheard::Left)
}

/// How long a write of a piece may wait, in milliseconds, if so many have passed since the piece began: 0 if its time is over,
/// which is 10,000.
fn piece_wait_ms(passed_ms: u64) -> u64
    ensures { result ≡ piece_wait_ms passed_ms }
{
    PIECE_MS.saturating_sub(passed_ms)
}

/// The whole milliseconds that have passed since a moment. The fault: the clock could not be read.
pub(crate) fn passed_ms<R: Clock>(rt: &R, begin: Instant) -> Result<u64, Unheard> {
    let Ok(now) = Instant::now(rt) else {
        return Err(Unheard::Left);
    };
    let passed = now.saturating_duration_since(begin).as_millis();
    Ok(u64::try_from(passed).unwrap_or(u64::MAX))
}

/// Writes what the system takes, and waits for it at most so long. Answers how many bytes it took.
fn write_within(stream: &mut TcpStream, bytes: &[u8], wait: Duration) -> Result<usize, Unheard> {
    if stream.set_write_timeout(Some(wait)).is_err() {
        return Err(Unheard::Left);
    }
    match stream.write(bytes) {
        Ok(0) => Err(Unheard::Left),
        Ok(count) => Ok(count),
        Err(error) if error.kind() == ErrorKind::Interrupted => Ok(0),
        Err(_) => Err(Unheard::Left),
    }
}
