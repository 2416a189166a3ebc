//! What the requests and replies of a device say of connection ids, step by step: whose the ids of a success are, which ids
//! a connection keeps, and who sends requests to open. The calls do nothing: their contracts are the laws.

ghost use Rattle.device_laws.specs.OwnIds.{ScannersAskOwnIds};
ghost use Rattle.device_laws.specs.Replies.{RepliesCarryOpenedIds, ScannersSendNoSuccess};
ghost use Rattle.device_laws.specs.RowIds.{ConnectionsKeepTheirIds};
ghost use Rattle.device_laws.specs.SlotIds.{SlotsHaveTheIdsOfTheirSuccess};
ghost use Rattle.device_laws.specs.TargetStreams.{StreamsComeWithEvents};

use answer_sizes::answers_are_small;
use cip_encap::reads_back;

/// A success in a frame of an adapter is of the connection that the event opened, of class 1 or 3: it answers the request of the
/// event, over the same stream, and has both ids of the connection and both of its actual packet intervals, in microseconds. A
/// late reply to a request of an object of the maker's own reads as a success only if a request with the service of an opening
/// waited. No frame of an adapter can be read as a request to open one.
///
/// Volume 1, chapter 3, Forward_Open service; Volume 2, chapter 2, sender context.
pub fn replies_carry_opened_ids()
    ensures { RepliesCarryOpenedIds }
{
    reads_back();
    answers_are_small();
}

/// No frame of a scanner can be read as the success of an opening.
///
/// Volume 1, chapter 3, Forward_Open service.
pub fn scanners_send_no_success()
    ensures { ScannersSendNoSuccess }
{
    reads_back();
    answers_are_small();
}

/// An established slot of a scanner has both ids of the success that answered its request, and keeps them as long as its
/// opening lasts.
///
/// Volume 1, chapter 3, Forward_Open service, network connection ids.
pub fn slots_have_the_ids_of_their_success()
    ensures { SlotsHaveTheIdsOfTheirSuccess }
{
    reads_back();
    answers_are_small();
}

/// A connection of an adapter keeps its ids, its peer and its producer. A new one has the peer whose request opened it; it joins
/// a group, starts one with the second id that the opening draws, or is point to point with the requested id. A stream of the
/// table was opened by its event.
///
/// Volume 1, chapter 3, Forward_Open service, network connection ids.
pub fn connections_keep_their_ids()
    ensures { ConnectionsKeepTheirIds }
{}

/// A request to open in a frame of a scanner, whoever reads it, is multicast, or asks for a T->O id that the scanner drew.
///
/// Volume 1, chapter 3, Forward_Open service, network connection ids.
pub fn scanners_ask_for_their_own_ids()
    ensures { ScannersAskOwnIds }
{
    reads_back();
    answers_are_small();
}

/// A stream of a scanner's table was opened by its event: its number and its peer are those of a `StreamOpened`.
///
/// Volume 2, chapter 2, encapsulation sessions over TCP.
pub fn a_scanners_streams_come_with_events()
    ensures { StreamsComeWithEvents }
{
    reads_back();
}
