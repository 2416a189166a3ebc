//! Order over every schedule of many devices: which opening an id names, whose data a connection accepts, and that it accepts
//! them in the order in which they were produced. Each call does nothing: its contract is the law.

ghost use Rattle.schedule_laws.specs.Indexes.{ProducedInOrder};
ghost use Rattle.schedule_laws.specs.Names.{SchedulesNameOpenings, SchedulesAcceptOneOpening, AnIdNamesOneOpening};
ghost use Rattle.schedule_laws.specs.Order.{AcceptedIndexesRise, ProducedAsWritten};
ghost use Rattle.schedule_laws.specs.Producers.{SchedulesNameOneProducer, LaterConnectionsAcceptNothingOlder};

use crate::ids_are_drawn;
use crate::made_once::an_id_opens_one_connection;
use adapter_table::laws::{accepted_datagrams_are_newer, profiles_stay};
use cip_tables::laws::{blocks_grow, next_id_never_falls, tables_are_whole};
use device_laws::{
    a_scanners_streams_come_with_events, accepted_numbers_are_newer, answers_send_what_is_made,
    bytes_are_from_scratch, class3_ids_are_carried, connections_keep_their_ids,
    counters_never_fall, ids_are_carried, openings_are_numbered, plain_devices_stay_plain,
    replies_carry_opened_ids, scanners_ask_for_their_own_ids, scanners_send_no_success,
    slots_have_the_ids_of_their_success,
};
use segment_world::laws::projections_are_runs;

/// Each datagram that was sent is the text of one production, in its producer's name. Its sequence number is the production
/// index modulo 2^32, its count is the new-data index modulo 2^16, and equal new-data indexes of one producer have equal data.
///
/// Volume 1, chapter 3, class 1 transport; Volume 2, chapter 2, sequenced address item.
pub fn productions_are_numbered()
    ensures { ProducedInOrder }
{
    answers_send_what_is_made();
    ids_are_drawn();
}

/// In every schedule that keeps the half-circle condition, the production indexes of what one end of a connection accepts
/// strictly rise.
///
/// Volume 1, chapter 3, class 1 transport; Volume 2, chapter 2, sequenced address item.
pub fn accepted_indexes_rise()
    ensures { AcceptedIndexesRise }
{
    answers_send_what_is_made();
    ids_are_drawn();
    accepted_datagrams_are_newer();
    accepted_numbers_are_newer();
    openings_are_numbered();
}

/// A slot's output holds what its application last wrote there, or zeros before the first write. So this is what the slot
/// produces.
///
/// Volume 1, chapter 3, real time formats.
pub fn outputs_are_as_written()
    ensures { ProducedAsWritten }
{
    projections_are_runs();
    bytes_are_from_scratch();
}

/// Connection ids name openings: each connection of an adapter, each open slot of a scanner, each datagram that a device
/// produced and each that a slot accepted has an entry in the chronicle, that of the slot's opening whose Forward_Open opened
/// the connection. The entry's T->O id is the second that a group's opening drew, or one that the scanner drew.
///
/// Volume 1, chapter 3, network connection ids and Forward_Open service.
pub fn ids_name_openings()
    ensures { SchedulesNameOpenings }
{
    answers_send_what_is_made();
    ids_are_drawn();
    an_id_opens_one_connection();
    ids_are_carried();
    class3_ids_are_carried();
    plain_devices_stay_plain();
    tables_are_whole();
    next_id_never_falls();
    profiles_stay();
    blocks_grow();
    counters_never_fall();
    replies_carry_opened_ids();
    connections_keep_their_ids();
    slots_have_the_ids_of_their_success();
    scanners_send_no_success();
    scanners_ask_for_their_own_ids();
    a_scanners_streams_come_with_events();
}

/// What an adapter accepts through one connection are productions of the one slot opening whose Forward_Open opened the
/// connection.
///
/// Volume 1, chapter 3, network connection ids and class 1 transport.
pub fn one_opening_is_accepted()
    ensures { SchedulesAcceptOneOpening }
{
    ids_name_openings();
}

/// An O->T id names one producer for good: two datagrams that scanners produced with one connection id are of one slot's
/// opening.
///
/// Volume 1, chapter 3, network connection ids.
pub fn an_id_names_one_opening()
    ensures { AnIdNamesOneOpening }
{
    answers_send_what_is_made();
    ids_are_drawn();
    ids_name_openings();
}

/// A connection id names one producer for good.
///
/// - `one_producer`: two productions with one connection id have one producer, and so have two connections with one T->O id.
/// - `later`: a connection that an adapter opened after a moment accepts nothing that was produced by then: at the adapter
///   nothing at all, and at its slot, whenever the slot asked, at most what a producer sent that still had a connection. Such a
///   producer is that of a group that the connection joined.
///
/// So nothing of a producer that has ended reaches a connection that was opened afterwards.
///
/// Volume 1, chapter 3, network connection ids; Volume 2, chapter 3, multicast connections.
pub fn an_id_names_one_producer()
    ensures one_producer { SchedulesNameOneProducer }
    ensures later { LaterConnectionsAcceptNothingOlder }
{
    answers_send_what_is_made();
    ids_are_drawn();
    ids_are_carried();
    class3_ids_are_carried();
    plain_devices_stay_plain();
    tables_are_whole();
    next_id_never_falls();
    profiles_stay();
    blocks_grow();
    counters_never_fall();
    replies_carry_opened_ids();
    connections_keep_their_ids();
    slots_have_the_ids_of_their_success();
    scanners_send_no_success();
    scanners_ask_for_their_own_ids();
    a_scanners_streams_come_with_events();
    an_id_opens_one_connection();
}
