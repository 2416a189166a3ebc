//! Bytes in the memory of a caller.

ghost use Rattle.std.specs.Prelude.{◌≡◌, ◌≤◌, ◌++◌, length, drop, Some};
ghost use Rattle.eip_c.specs.Calls.{Reports};
ghost use Rattle.eip_c.specs.Memory.{Writes};
ghost use Rattle.eip_c.specs.Statuses.{status_of};

use crate::status::{DONE, NO_ANSWER, NO_ROOM};
use cip_events::Answer;
use flat_answers::{answer_len, put_answer};

/// Writes bytes at the front of the room, and their number. Where the room is too small for them, it writes their number
/// alone.
pub fn copy_out(bytes: &[u8], out: &mut [u8], size: &mut usize) -> u32
    ensures { Writes bytes.now (status_of result) (out.old, size.old) (out.new, size.new) }
{
    *size = bytes.len();
    if out.len() < bytes.len() {
        return NO_ROOM;
    }
    put_first(bytes, out);
    DONE
}

/// Overwrites the front of a slice.
fn put_first(bytes: &[u8], out: &mut [u8])
    requires { length bytes.now ≤ length out.old }
    ensures { out.new ≡ bytes.now ++ drop (length bytes.now) out.old }
{
    let (front, _rest) = out.split_at_mut(bytes.len());
    front.copy_from_slice(bytes);
}

/// Writes the answer that is kept, as `put_answer` does. Takes no memory.
pub fn report(answer: &Option<Answer>, out: &mut [u8], size: &mut usize) -> u32
    ensures { Reports answer.now (status_of result) (out.old, size.old) (out.new, size.new) }
{
    match answer {
        Some(answer) => report_answer(answer, out, size),
        None => NO_ANSWER,
    }
}

fn report_answer(answer: &Answer, out: &mut [u8], size: &mut usize) -> u32
    ensures { Reports (Some answer.now) (status_of result) (out.old, size.old) (out.new, size.new) }
{
    let len = answer_len(answer);
    *size = len;
    if out.len() < len {
        return NO_ROOM;
    }
    put_answer(out, answer);
    DONE
}
