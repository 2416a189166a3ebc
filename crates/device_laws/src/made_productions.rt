//! What a device produces at an event, as its table says, and the order of what it produced: how its sequence numbers and
//! counts follow from the productions before, and that what has one count has one value. Each call does nothing: its
//! contract is the law.

ghost use Rattle.device_laws.specs.Inputs.{FreshInputsAreZeros, StepsWriteInputs};
ghost use Rattle.device_laws.specs.Made.{AnswersSendWhatIsMade};
ghost use Rattle.device_laws.specs.ProductionRuns.{RunsProduceInOrder, SlotsHaveOpeningsOfTheirOwn};
ghost use Rattle.device_laws.specs.Values.{SlotsProduceTheirOutputs};

use crate::steps_keep_tables_whole;
use adapter_table::laws::tables_are_whole as adapters_are_whole;
use cip_tables::laws::tables_are_whole as devices_are_whole;

/// The datagrams of an answer are what the device made at the event, in order.
///
/// Volume 1, chapter 3, class 1 transport.
pub fn answers_send_what_is_made()
    ensures { AnswersSendWhatIsMade }
{}

/// An input of a fresh adapter holds zeros; after each event it holds what the event wrote there, or else what it held.
///
/// Volume 1, chapter 5, Assembly object.
pub fn inputs_hold_what_is_written()
    ensures fresh { FreshInputsAreZeros }
    ensures steps { StepsWriteInputs }
{}

/// A scanner's production carries what the output of its slot held just before the event, and the mode that the application
/// was in; its slot's connection came from the opening that the production names.
///
/// Volume 1, chapter 3, class 1 transport, real time formats.
pub fn slots_produce_their_outputs()
    ensures { SlotsProduceTheirOutputs }
{}

/// Over every run of a fresh device the sequence number of a datagram is its production index modulo 2^32, its count is its
/// new-data index modulo 2^16, and equal new-data indexes of one producer have equal data.
///
/// Volume 1, chapter 3, class 1 transport; Volume 2, chapter 2, sequenced address item.
pub fn runs_produce_in_order()
    ensures { RunsProduceInOrder }
{
    adapters_are_whole();
    devices_are_whole();
    steps_keep_tables_whole();
}

/// Over every run of a fresh scanner no two slots have one opening number, so that a device and an opening number name one
/// slot's producer.
///
/// Volume 2, chapter 2, sender context.
pub fn openings_differ()
    ensures { SlotsHaveOpeningsOfTheirOwn }
{}
