//! The origin of connection ids, and the replies that establish a slot.

ghost use Rattle.device_laws.specs.Carrying.{StepsCarryIds, StepsCarryClass3Ids, StepsKeepFrom, RepliesEstablish};

use answer_sizes::answers_are_small;
use cip_encap::reads_back;
use cip_tables::laws::blocks_grow;
use scanner_table::counters_never_fall;

/// A step brings up no connection id of its own, except the next ids of the device's blocks: each id of the next table and
/// of the answer is one of the table, one that came with the event (in a frame or in an answer of the application), or one
/// that the step allocated.
///
/// The law says so of each property of ids of 32 bits that 0, the id for none, has. If the ids of a whole table
/// have the property, and so do those of the event and those of the numbers between the old one and the new, then the ids of
/// the next table and of the answer have it. The same holds of opening numbers. It speaks of steps that give an
/// answer, and of every event but `Request`, which comes without a stream.
///
/// Volume 1, chapter 3, network connection ids.
pub fn ids_are_carried()
    ensures { StepsCarryIds }
{
    // Items that are written are read back as they were; that needs short answers. No event changes an id that was drawn.
    reads_back();
    answers_are_small();
    blocks_grow();
}

/// A step brings up no id of a class 3 connection of its own, except the next ids of the device's blocks: each id of the class 3 connections of
/// the next table is one of such a connection of the table, one that came with the event's frame, or one that the step allocated.
///
/// The law says so of each property of ids, as `ids_are_carried` does of the other ids, and leaves out the event `Request` likewise.
///
/// Volume 1, chapter 3, network connection ids and transport class 3.
pub fn class3_ids_are_carried()
    ensures { StepsCarryClass3Ids }
{}

/// Later openings of a scanner have later ids. Take any request number, and a number of an id that is at most the
/// table's next one. If each point to point slot that was opened by a request from that number on has a T->O id of the
/// table's blocks with a number from that number on, then the same holds after a step.
///
/// The law speaks of steps from a whole table that give an answer.
///
/// Volume 1, chapter 3, network connection ids.
pub fn ids_are_drawn_with_openings()
    ensures { StepsKeepFrom }
{
    // Items that are written are read back as they were; that needs short answers. No event changes an id that was drawn.
    reads_back();
    answers_are_small();
    counters_never_fall();
}

/// A slot of a scanner becomes established only by the reply to its own request: a successful reply that comes over
/// a stream to the slot's target, and has the number of the request that the slot waits for.
///
/// The law holds of each step from a whole table that gives an answer. An established slot after it was established
/// by the same opening before it, or waited for that opening, and the event is its reply.
///
/// Volume 1, chapter 3, Forward_Open service; Volume 2, chapter 2, sender context.
pub fn replies_establish_their_own_slot()
    ensures { RepliesEstablish }
{
    // Items that are written are read back as they were; that needs short answers.
    reads_back();
    answers_are_small();
}
