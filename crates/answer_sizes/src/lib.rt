//! The size of an answer of any device. The law is apart from the other laws of a device, since a network of devices stands on
//! it: it reserves that much before an event. A law call does nothing; its contract states the law.
#![tactic(auto)]

ghost use Rattle.answer_sizes.specs.Sizes.{AnswersAreSmall};

use scanner_table::advancing_keeps_tables_well_formed;

/// An answer has at most 64 frames and at most 64 datagrams, and each of these has at most 2,048 bytes.
///
/// The law holds of each step from a whole table that gives an answer.
pub fn answers_are_small()
    ensures { AnswersAreSmall }
{
    // The slots that open within a tick start from a whole table.
    advancing_keeps_tables_well_formed();
}
