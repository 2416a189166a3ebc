//! The line of a sum.

ghost use Rattle.std.specs.Prelude.{◌≡◌, ◌++◌, OnOk, string_bytes};
ghost use Rattle.trace_words.specs.Reader.{unread_words, Takes, next_word};
ghost use Rattle.trace_outcomes.specs.Sums.SumLines.{count_words, named_sum, plain_verdict_of, sum_line, sum_reader};

use crate::push_verdict;
use crate::sums::sum::OutcomeSum;
use crate::sums::verdict::{PlainVerdict, read_plain_verdict, verdict_in};
use cip_types::OutOfMemory;
use std::alloc::Global;
use trace_words::{TextFault, Words, push_digits, push_number, push_text};

/// Appends the line of a sum, for the event of this number. If an allocation is refused, a part of it may be appended.
pub fn push_sum(out: &mut String, number: u64, sum: &OutcomeSum) -> Result<(), OutOfMemory>
    ensures { OnOk result (string_bytes out.new ≡ string_bytes out.old ++ sum_line number sum.now) }
{
    push_number(out, number)?;
    push_text(out, " sum ")?;
    push_verdict(out, &verdict_in(sum.verdict))?;
    push_counts(out, sum)?;
    push_digits(out, sum.crc.to_be_bytes().as_slice())?;
    push_text(out, "\n")
}

/// Appends the numbers of frames, datagrams and notices, with spaces around them.
fn push_counts(out: &mut String, sum: &OutcomeSum) -> Result<(), OutOfMemory>
    ensures { OnOk result (string_bytes out.new ≡ string_bytes out.old ++ count_words sum.now) }
{
    push_text(out, " ")?;
    push_number(out, sum.frames)?;
    push_text(out, " ")?;
    push_number(out, sum.datagrams)?;
    push_text(out, " ")?;
    push_number(out, sum.notices)?;
    push_text(out, " ")
}

/// The words of a sum's line, from the number of its event on. Answers that number too.
///
/// The faults: `Bad` if they are not those of such a line, and `OutOfMemory`.
pub fn read_sum(alloc: Global, words: &mut Words<'_>) -> Result<(u64, OutcomeSum), TextFault>
    ensures { Takes (sum_reader (unread_words words.old)) result (unread_words words.new) }
{
    let number = words.u64()?;
    read_name(words)?;
    let sum = OutcomeSum {
        verdict: read_verdict(words)?,
        frames: words.u64()?,
        datagrams: words.u64()?,
        notices: words.u64()?,
        crc: words.id(alloc)?.0,
    };
    words.last((number, sum))
}

/// The word `sum`.
fn read_name(words: &mut Words<'_>) -> Result<(), TextFault>
    ensures { Takes (next_word named_sum (unread_words words.old)) result (unread_words words.new) }
{
    match words.word()? {
        "sum" => Ok(()),
        _ => Err(TextFault::Bad),
    }
}

/// A verdict of one word.
fn read_verdict(words: &mut Words<'_>) -> Result<PlainVerdict, TextFault>
    ensures { Takes (next_word plain_verdict_of (unread_words words.old)) result (unread_words words.new) }
{
    read_plain_verdict(words.word()?).ok_or(TextFault::Bad)
}
