//! What outputs and images hold over every schedule of many devices. Each call does nothing: its contract is the law.

ghost use Rattle.schedule_laws.specs.Images.{GatheredInOrder, SchedulesGatherImages};
ghost use Rattle.schedule_laws.specs.Outputs.{AppliedInOrder};
ghost use Rattle.schedule_laws.specs.Written.{AcceptedDataWereWritten, GatheredDataWereInput};

use crate::{
    accepted_indexes_rise, an_id_opens_one_connection, ids_are_drawn, ids_name_openings,
    one_opening_is_accepted, outputs_are_as_written,
};
use adapter_table::laws::{accepted_datagrams_are_newer, outputs_hold_what_is_left};
use cip_datagram::reads_back;
use cip_tables::laws::blocks_grow;
use device_laws::{
    accepted_numbers_are_newer, answers_send_what_is_made, openings_are_numbered,
    slots_have_the_ids_of_their_success, slots_produce_their_outputs,
};

/// What an adapter accepts through one connection are productions of the one slot opening whose Forward_Open opened it, with
/// strictly rising production indexes; each that it applies was made in run mode. The output of an owner whose newest accepted
/// production was made in run mode holds what the slot's output held at that production.
///
/// This holds at every moment of every schedule that keeps the half-circle condition.
///
/// Volume 1, chapter 3, class 1 transport, run/idle; Volume 2, chapter 2, sequenced address item.
pub fn applied_outputs_are_in_order()
    ensures { AppliedInOrder }
{
    blocks_grow();
    outputs_hold_what_is_left();
    reads_back();
    answers_send_what_is_made();
    ids_are_drawn();
    accepted_datagrams_are_newer();
    accepted_numbers_are_newer();
    openings_are_numbered();
    ids_name_openings();
    one_opening_is_accepted();
}

/// The image of a scanner's slot is zeros before the slot was ever established; after that it is the zeros of the moment when
/// the slot was last established, or the data of a production that this opening accepted. Accepted production indexes strictly
/// rise (`crate::accepted_indexes_rise`).
///
/// This holds at every moment of every schedule; it needs no premise.
///
/// Volume 1, chapter 3, class 1 transport.
pub fn images_hold_accepted_data()
    ensures { SchedulesGatherImages }
{
    answers_send_what_is_made();
    ids_are_drawn();
    slots_have_the_ids_of_their_success();
}

/// What a slot's opening accepts are productions of the one producer that its T->O id names, with strictly rising production
/// indexes. From the moment a slot becomes established until it does so again, its image is the zeros of that moment, or what
/// the adapter's input held at a production of the producer that the slot's T->O id of that moment names.
///
/// A multicast producer lives as long as its group: a slot that joins may accept first what the same living group sent before
/// it joined. This holds at every moment of every schedule that keeps the half-circle condition.
///
/// Volume 1, chapter 3, class 1 transport; Volume 2, chapter 2, sequenced address item, and chapter 3, multicast connections.
pub fn images_are_in_order()
    ensures { GatheredInOrder }
{
    answers_send_what_is_made();
    ids_are_drawn();
    slots_have_the_ids_of_their_success();
    accepted_indexes_rise();
    ids_name_openings();
    an_id_opens_one_connection();
}

/// What is accepted was written before, at a moment of the schedule.
///
/// - `outputs`: of a production that an adapter accepts. The slot whose opening made it held its value as its output, and this is
///   what the slot's application had last written there, or zeros if it had written nothing. The production's datagram has the
///   mode and that value, or no data.
/// - `inputs`: of a production that a scanner accepts. The input of the producer held its value, or the adapter's application
///   wrote it there by the next act. The production's datagram has that value.
///
/// This holds at every moment of every schedule; it needs no premise.
///
/// Volume 1, chapter 3, class 1 transport, real time formats.
pub fn accepted_data_were_written()
    ensures outputs { AcceptedDataWereWritten }
    ensures inputs { GatheredDataWereInput }
{
    blocks_grow();
    ids_name_openings();
    slots_produce_their_outputs();
    outputs_are_as_written();
}
