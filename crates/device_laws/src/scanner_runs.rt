//! Laws of every run of a scanner. A law call does nothing; its contract states the law.
//!
//! Unless a law says otherwise, it holds of runs from a whole table, and of runs from a fresh device without a fault
//! in its profile. The laws of tables hold of every table that such a run reaches. The laws of runs relate the table
//! before the run, the events that found memory, and the table after the run.

ghost use Rattle.std.specs.Prelude.{◌≡◌, ◌≤◌, length};
ghost use Rattle.cip_types.specs.Ids.{end_number};
ghost use Rattle.device_laws.specs.ScannerRuns.{RunsFoldEvents, OverWholeRuns, OverFreshRuns, OverScannerRuns, HoldsLastImages, HoldsLastImagesOrZeros, HoldsLastOutputs, HoldsLastOutputsOrZeros, AcceptsAfter, OpensAbove, OpensWithNewId};
ghost use Rattle.device_laws.specs.Scanners.{OverEveryScanner, EachSlot, HasLengths, IsOpenAsDesired, ClosesAsDesired, IsNumberedBelow};
ghost use Rattle.scanner_table.specs.Slots.{indexed_slots};
ghost use Rattle.scanner_table.specs.WellFormed.{IdsDiffer, RequestsDiffer, StreamsDiffer};
ghost use Rattle.scanner_table.specs.Counters.{CountsOn};
ghost use Rattle.scanner_table.specs.Turns.{OpeningsTakeTurns};
ghost use Rattle.scanner_table.specs.Waiting.{SlotsWaitInTime};
ghost use Rattle.scanner_table.specs.Drawn.{NumbersAreOwn};
ghost use Rattle.device_laws.specs.ScannerOpenings.{OpeningsBegin};
ghost use Rattle.device_laws.specs.Newest.{HasNewerNumber, IsAppliedNew, IsNotAgain};
ghost use Rattle.device_laws.specs.TidyScanners.{TidyScannersLeaveNone};
ghost use Rattle.scanner_table.specs.Producers.{SlotsProduceAsThemselves};
ghost use Rattle.scanner_table.specs.Whole.{IsWholeScanner};

use crate::{bytes_are_from_scratch, openings_are_numbered};
use answer_sizes::answers_are_small;
use cip_encap::reads_back;
use cip_tables::laws;
use scanner_table::{fresh_tables_are_whole, steps_keep_tables_whole};

/// Every table is whole. A whole table has all the properties that the laws of tables below name; besides, its clock
/// and its numbers are within their limits.
pub fn tables_are_whole()
    ensures { OverEveryScanner IsWholeScanner }
{
    laws::tables_are_whole();
}

/// The table has as many slots as the profile.
pub fn slots_match_the_profile()
    ensures { OverEveryScanner (λ t. length t.slots ≡ length t.profile.slots) }
{
    tables_are_whole();
}

/// The output and the image of each slot have the lengths that its configuration says.
pub fn slots_have_their_lengths()
    ensures { OverEveryScanner (λ t. EachSlot HasLengths (indexed_slots t)) }
{
    tables_are_whole();
}

/// Only a slot whose connection is desired is opening or established, or, without `tidy`, timed out.
pub fn slots_open_as_desired()
    ensures { OverEveryScanner (λ t. EachSlot (IsOpenAsDesired t.profile.tidy) (indexed_slots t)) }
{
    tables_are_whole();
}

/// Without `tidy`, only a slot whose connection is not desired is closing.
pub fn slots_close_as_desired()
    ensures { OverEveryScanner (λ t. EachSlot (ClosesAsDesired t.profile.tidy) (indexed_slots t)) }
{
    tables_are_whole();
}

/// No two established slots of one target have the same T->O id.
pub fn ids_are_distinct()
    ensures { OverEveryScanner (λ t. IdsDiffer (indexed_slots t)) }
{
    tables_are_whole();
}

/// No two slots wait for the reply to the same request.
pub fn requests_are_distinct()
    ensures { OverEveryScanner (λ t. RequestsDiffer t.slots) }
{
    tables_are_whole();
}

/// The number of a pending request, and that of the request that opened an established connection, are below the next
/// request number.
pub fn requests_are_below_the_next()
    ensures { OverEveryScanner (λ t.
        EachSlot (λ indexed. IsNumberedBelow t.next_request indexed.slot.state) (indexed_slots t)) }
{
    tables_are_whole();
}

/// The number of the next connection id is at most that behind the last id of the scanner's blocks, at which no id is left.
pub fn ids_end()
    ensures { OverEveryScanner (λ t. t.next_id ≤ end_number t.ids) }
{
    tables_are_whole();
}

/// There are at most 16 open streams.
pub fn at_most_16_streams()
    ensures { OverEveryScanner (λ t. length t.streams ≤ 16) }
{
    tables_are_whole();
}

/// No two open streams have the same number or the same target.
pub fn streams_are_distinct()
    ensures { OverEveryScanner (λ t. StreamsDiffer t.streams) }
{
    tables_are_whole();
}

/// The number of a pending request, and that of the request that opened an established connection, are below the next
/// request number. The T->O id of a point to point slot that is opening, established, timed out or closing is of the
/// scanner's blocks and has a number below the next one, and no two such slots have the same id.
pub fn numbers_are_drawn_once()
    ensures { OverEveryScanner NumbersAreOwn }
{
    tables_are_whole();
}

/// The producer of an established slot has the slot's number, and sends to the slot's target.
pub fn slots_produce_as_themselves()
    ensures { OverEveryScanner SlotsProduceAsThemselves }
{
    tables_are_whole();
}

/// A slot that is opening or closing waits at most `open_timeout` milliseconds from the present time on.
pub fn answers_are_waited_for_in_time()
    ensures { OverEveryScanner SlotsWaitInTime }
{
    tables_are_whole();
}

/// At most as many openings of one target wait for their replies as the profile allows at one time. A slot has one of them at
/// most, since it is in one state.
pub fn openings_take_turns()
    ensures { OverEveryScanner OpeningsTakeTurns }
{
    tables_are_whole();
}

/// A run of a scanner, from any table, ends in the table to which the events that found memory lead, one after
/// another.
pub fn runs_fold_events()
    ensures { RunsFoldEvents }
{}

/// The image of each slot holds the bytes that the last event which touched it left there: zeros if the slot became
/// established, or the data of a datagram that was applied for it. An image that no event touched holds its bytes from
/// before the run (`whole`), which are zeros at a fresh scanner (`fresh`).
pub fn images_are_from_scratch()
    ensures whole { OverWholeRuns HoldsLastImages }
    ensures fresh { OverFreshRuns HoldsLastImagesOrZeros }
{
    runs_fold_events();
    bytes_are_from_scratch();
}

/// The output of each slot holds the bytes that were last written there. An output that no event wrote holds its bytes
/// from before the run (`whole`), which are zeros at a fresh scanner (`fresh`).
pub fn outputs_are_from_scratch()
    ensures whole { OverWholeRuns HoldsLastOutputs }
    ensures fresh { OverFreshRuns HoldsLastOutputsOrZeros }
{
    runs_fold_events();
    bytes_are_from_scratch();
}

/// Each sequence number that a connection accepts is newer than the one that it accepted before. A connection is named
/// by its slot and the request that opened it.
pub fn accepted_numbers_are_newer()
    ensures { OverScannerRuns (AcceptsAfter HasNewerNumber) }
{
    runs_fold_events();
    fresh_tables_are_whole();
    openings_are_numbered();
    crate::accepted_numbers_are_newer();
}

/// Data are applied only if their count differs from that of the datagram that the connection accepted before.
pub fn applied_data_are_new()
    ensures { OverScannerRuns (AcceptsAfter IsAppliedNew) }
{
    runs_fold_events();
    fresh_tables_are_whole();
    openings_are_numbered();
    crate::applied_data_are_new();
}

/// No connection applies the datagram that it accepted last once more.
pub fn the_last_datagram_is_not_applied_again()
    ensures { OverScannerRuns (AcceptsAfter IsNotAgain) }
{
    runs_fold_events();
    fresh_tables_are_whole();
    openings_are_numbered();
    crate::the_last_datagram_is_not_applied_again();
}

/// A run leaves the profile and the number of slots as they are, and neither the counter of connection ids nor that of
/// requests falls.
pub fn counters_never_fall()
    ensures { OverScannerRuns (λ old _ new. CountsOn old new) }
{
    runs_fold_events();
    fresh_tables_are_whole();
    scanner_table::counters_never_fall();
}

/// A slot that is opening after a run waited for the same reply before it, or the opening began in the run: then the
/// run allocated its request number and, for a point to point slot, its T->O id.
pub fn openings_draw_the_next_numbers()
    ensures { OverScannerRuns (λ old _ new. OpeningsBegin old new) }
{
    runs_fold_events();
    fresh_tables_are_whole();
    crate::openings_draw_the_next_numbers();
}

/// Request numbers rise: a slot that is opening after a run waited for the same reply before it, or its request number
/// is above every number that was allocated before the run.
pub fn request_numbers_rise()
    ensures { OverScannerRuns OpensAbove }
{
    runs_fold_events();
    fresh_tables_are_whole();
    crate::request_numbers_rise();
}

/// No connection id is allocated twice: an opening that begins in a run requests no id that was allocated before the
/// run, whether a slot still has that id or not.
pub fn ids_are_given_once()
    ensures { OverScannerRuns OpensWithNewId }
{
    runs_fold_events();
    fresh_tables_are_whole();
    crate::ids_are_given_once();
}

/// A tidy scanner leaves no connection behind. A slot has each connection that the scanner requests, whoever reads the request: it
/// opens it, has it open, or has to close it since it timed out. So it stays until the scanner sends a Forward_Close of the
/// connection over its session with the slot's target, or the reply to its opening is no success: the target refuses it. The
/// law holds as long as a request number is left.
///
/// Volume 1, chapter 3, Forward_Open and Forward_Close services.
pub fn tidy_scanners_leave_no_connection()
    ensures { OverScannerRuns TidyScannersLeaveNone }
{
    runs_fold_events();
    fresh_tables_are_whole();
    steps_keep_tables_whole();
    scanner_table::counters_never_fall();
    reads_back();
    answers_are_small();
}
