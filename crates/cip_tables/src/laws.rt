//! Laws of every run of a device. A law call does nothing; its contract states the law. The laws of scanners are in
//! `scanner_table::runs`, above this crate.
//!
//! Unless a law says otherwise, it holds of every adapter's table that a run reaches: a run from a whole table, and
//! a run from a fresh device of any configuration.

ghost use Rattle.std.specs.Prelude.{◌≤◌, length};
ghost use Rattle.messaging.specs.Sound.{EachOf};
ghost use Rattle.adapter_table.specs.MessagesSound.{IsCarried};
ghost use Rattle.adapter_table.specs.MessageLaws.{NamesDiffer};
ghost use Rattle.cip_tables.specs.Messages.{OverEveryWholeRun, AnswersAreOnce};
ghost use Rattle.cip_tables.specs.Newest.{OverEveryConnection};
ghost use Rattle.cip_tables.specs.Scratch.{OutputsAreFromScratch, FreshOutputsAreFromScratch};
ghost use Rattle.cip_tables.specs.StatedLimits.{RunsStayWithin, FreshDevicesOpenWithin, FreshDevicesStayWithin, TypesHavePlaces};
ghost use Rattle.cip_tables.specs.Whole.{TablesAreWhole, RunsKeepWhole, FreshDevicesAreWhole};
ghost use Rattle.cip_tables.specs.Sound.{OverEveryRun, StepsCountOn, StepsGrow, StepsLeaveIds, RunsCountOn};
ghost use Rattle.adapter_table.specs.Newest.{HasNewerNumber, IsAppliedNew, IsNotAgain};
ghost use Rattle.adapter_table.specs.Rows.{most_rows};
ghost use Rattle.adapter_table.specs.Streams.{most_streams};
ghost use Rattle.adapter_table.specs.Sound.{IsSound, HasOneOwner, TriadsDiffer, IdsDiffer, IdsAreDrawn, ListenersAreSupported, GroupsAgree, StreamsDiffer, OpeningsRise, ProducersAreDrawn, SinglesHaveTheirOwn, GroupsAloneShare, MulticastIdsAreDrawn};

use adapter_table::laws;
use scanner_table::{fresh_tables_are_whole, steps_keep_tables_whole};

/// Every table is sound. A sound table has all the properties that the laws of single properties below name.
pub fn tables_are_sound()
    ensures { OverEveryRun IsSound }
{
    laws::tables_are_sound();
    laws::tables_are_whole();
}

/// An output has at most one established exclusive owner.
pub fn at_most_one_owner()
    ensures { OverEveryRun (λ t. HasOneOwner t.rows) }
{
    tables_are_sound();
}

/// No two connections have the same triad.
pub fn triads_are_distinct()
    ensures { OverEveryRun (λ t. TriadsDiffer t.rows) }
{
    tables_are_sound();
}

/// No two connections have the same O->T id.
pub fn ids_are_distinct()
    ensures { OverEveryRun (λ t. IdsDiffer t.rows) }
{
    tables_are_sound();
}

/// Each O->T id is of the device's blocks, and its number, which is the opening number, is below the next one.
pub fn ids_are_below_the_next()
    ensures { OverEveryRun (λ t. IdsAreDrawn t.ids t.next_id t.rows) }
{
    tables_are_sound();
}

/// There are at most 64 connections.
pub fn at_most_64_connections()
    ensures { OverEveryRun (λ t. length t.rows ≤ most_rows) }
{
    tables_are_sound();
}

/// Each established listen-only connection is supported: an established multicast connection of another kind
/// consumes the same input.
pub fn listeners_are_supported()
    ensures { OverEveryRun (λ t. ListenersAreSupported t.rows) }
{
    tables_are_sound();
}

/// The established multicast connections of one input share one producer, one T->O id and one packet interval, and
/// their productions are equal.
pub fn groups_share_one_production()
    ensures { OverEveryRun (λ t. GroupsAgree t.rows) }
{
    tables_are_sound();
}

/// Opening numbers strictly rise along the list of connections.
pub fn openings_rise()
    ensures { OverEveryRun (λ t. OpeningsRise t.rows) }
{
    tables_are_sound();
}

/// The number of an established connection's producer is at most its opening number, and below the number of the
/// next id.
pub fn producers_are_drawn()
    ensures { OverEveryRun (λ t. ProducersAreDrawn t.next_id t.rows) }
{
    tables_are_sound();
}

/// The producer of an established point to point connection has the connection's own opening number.
pub fn point_to_point_producers_are_their_own()
    ensures { OverEveryRun (λ t. SinglesHaveTheirOwn t.rows) }
{
    tables_are_sound();
}

/// Two established connections have the same producer only if both are multicast connections of one input; then they
/// have one T->O id and one packet interval, and their productions are equal.
pub fn groups_alone_share_a_producer()
    ensures { OverEveryRun (λ t. GroupsAloneShare t.rows) }
{
    tables_are_sound();
}

/// The number of an established multicast connection's T->O id is its producer's number plus one, and below the
/// number of the next id.
pub fn multicast_ids_are_their_producers()
    ensures { OverEveryRun (λ t. MulticastIdsAreDrawn t.ids t.next_id t.rows) }
{
    tables_are_sound();
}

/// The counter of the next connection id never falls, in a step or in a run, at a device of either kind and from any
/// table.
pub fn next_id_never_falls()
    ensures step { StepsCountOn }
    ensures run { RunsCountOn }
{
    laws::counters_never_fall();
    scanner_table::counters_never_fall();
}

/// The blocks of connection ids grow in each step, at a device of either kind and from any table: the ids of the numbers that they
/// have stay.
///
/// Volume 1, chapter 3, network connection ids.
pub fn blocks_grow()
    ensures { StepsGrow }
{
    laws::blocks_grow();
    scanner_table::counters_never_fall();
}

/// Only a further block changes the blocks of connection ids, at a device of either kind and from any table.
///
/// Volume 1, chapter 3, network connection ids.
pub fn blocks_stay()
    ensures { StepsLeaveIds }
{
    laws::blocks_stay();
    scanner_table::blocks_stay();
}

/// There are at most 16 open streams.
pub fn at_most_16_streams()
    ensures { OverEveryRun (λ t. length t.streams ≤ most_streams) }
{
    tables_are_sound();
}

/// No two open streams have the same number.
pub fn streams_are_distinct()
    ensures { OverEveryRun (λ t. StreamsDiffer t.streams) }
{
    tables_are_sound();
}

/// Tables are whole.
///
/// - `run`: a run from a whole table reaches a whole table, at a device of either kind.
/// - `opening`: the table of a fresh device is whole, if its configuration has no fault.
/// - `fresh`: a run from the table of such a device reaches only whole tables of an adapter.
///
/// A whole table of an adapter is sound; besides, each point holds as many bytes as the profile says, each exclusive
/// owner consumes an output, and packet intervals, multipliers, productions and the clock are within their limits.
pub fn tables_are_whole()
    ensures run { RunsKeepWhole }
    ensures opening { FreshDevicesAreWhole }
    ensures fresh { TablesAreWhole }
{
    laws::tables_are_whole();
    steps_keep_tables_whole();
    fresh_tables_are_whole();
}

/// Each output of an adapter holds the bytes that the last event which touched it left there: the data of its owner's
/// last applied datagram, or the bytes of the idle action, or those of the fault action at the loss of the owner.
///
/// - `whole`: after a run from a whole table. An output that no event touched holds the bytes of the first table.
/// - `fresh`: after a run of a fresh device without a fault. An output that no event touched holds zeros.
///
/// Events that found no memory do not count.
pub fn outputs_are_from_scratch()
    ensures whole { OutputsAreFromScratch }
    ensures fresh { FreshOutputsAreFromScratch }
{
    laws::outputs_hold_what_is_left();
    laws::profiles_stay();
    steps_keep_tables_whole();
    laws::tables_are_whole();
}

/// Each sequence number that a connection accepts is newer than the one that it accepted before. The law holds of each
/// connection of an adapter, named by its opening number, in each run from a whole table.
pub fn accepted_numbers_are_newer()
    ensures { OverEveryConnection HasNewerNumber }
{
    laws::accepted_datagrams_are_newer();
    laws::tables_are_sound();
}

/// Data are applied only from a datagram with the run bit, and only if its count differs from that of the datagram
/// that the connection accepted before. The law holds of each connection in each run from a whole table.
pub fn applied_data_are_new()
    ensures { OverEveryConnection IsAppliedNew }
{
    laws::accepted_datagrams_are_newer();
    laws::tables_are_sound();
}

/// No connection applies the datagram that it accepted last once more. The law holds of each connection in each run
/// from a whole table.
pub fn the_last_datagram_is_not_applied_again()
    ensures { OverEveryConnection IsNotAgain }
{
    laws::accepted_datagrams_are_newer();
    laws::tables_are_sound();
}

/// No more connections are established than the maker of an adapter states.
///
/// - `run`: a run from a table that is within the limits stays within them.
/// - `fresh`: a run of a fresh device of any configuration does too.
/// - `places`: in a run of a fresh device without a fault, while fewer connections of an application type are
///   established than it has places, another of this type is not refused for want of a place, however many
///   connections of other types there are.
pub fn places_are_kept()
    ensures run { RunsStayWithin }
    ensures fresh { FreshDevicesStayWithin }
    ensures places { TypesHavePlaces }
{
    laws::places_are_kept();
    tables_are_whole();
}

/// Where the maker of an adapter states how many connections a node can open in a second, each node has at most so many
/// openings in its second, which is the 1,000 ms from the first of them on, at each table that a run of a fresh device
/// of any configuration leads to.
pub fn openings_are_bounded()
    ensures { FreshDevicesOpenWithin }
{
    laws::openings_are_bounded();
}

/// The stream of each class 3 connection is open, and has a session: none outlives its stream.
pub fn class3_connections_live_on_streams()
    ensures { OverEveryWholeRun (λ t. EachOf (λ d. IsCarried t.streams d.stream) t.messaging.class3_connections) }
{
    laws::class3_connections_live_on_streams();
    tables_are_whole();
}

/// No two connections of any class have one triad or one O->T id.
pub fn names_are_distinct()
    ensures { OverEveryWholeRun NamesDiffer }
{
    laws::class3_connections_live_on_streams();
    tables_are_whole();
}

/// A request to an object of the maker's own is answered at most once, in every run.
pub fn requests_are_answered_once()
    ensures { AnswersAreOnce }
{
    laws::requests_are_answered_once();
}
