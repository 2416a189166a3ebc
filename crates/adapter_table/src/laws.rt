//! How each step changes a whole table, and the table of a fresh adapter. Each call does nothing: its contract is
//! the law.

ghost use Rattle.std.specs.Prelude.{ℕ, ◌≡◌, ◌≤◌, List, None};
ghost use Rattle.cip_types.specs.Ids.{Extends};
ghost use Rattle.cip_types.specs.declared.ids.IdBlock.{IdBlock};
ghost use Rattle.adapter_table.specs.declared.profile.Profile.{Profile};
ghost use Rattle.adapter_table.specs.Profiles.{profile_fault};
ghost use Rattle.adapter_table.specs.declared.table.AdapterTable.{AdapterTable};
ghost use Rattle.adapter_table.specs.Step.{adapter_table};
ghost use Rattle.adapter_table.specs.MessagesSound.{IsSettled};
ghost use Rattle.adapter_table.specs.MessageLaws.{MessagesExecuteOnce, AnswersSettle, SettledAreRefused, StreamsCarry, NamesDiffer};
ghost use Rattle.adapter_table.specs.Rates.{OpensWithinLimits};
ghost use Rattle.adapter_table.specs.Sound.{IsSound};
ghost use Rattle.adapter_table.specs.Whole.{IsWhole};
ghost use Rattle.adapter_table.specs.StatedLimits.{IsWithinLimits, PlacesAreKept};
ghost use Rattle.adapter_table.specs.Newest.{HasNewerNumber, IsAppliedNew, IsNotAgain};
ghost use Rattle.adapter_table.specs.Laws.{EffectsKeep, AdmittedAreTimed, StoredSegmentsFit, AppliedDataHaveOutputs, AppliedDataFit, StepsKeep, StepsLeave, StepsLeaveIds, RefusalsTouchNothing, FreshOutputsAreZeros, StepsAcceptAfter, RefusalsAcceptNothing};

/// The table of a fresh adapter is sound, if its profile has no fault, and a step from a sound table leads to a sound one.
pub fn tables_are_sound()
    ensures fresh { (profile : Profile) → profile_fault profile ≡ None → IsSound (adapter_table profile) }
    ensures steps { StepsKeep IsSound }
{}

/// The table of a fresh adapter is whole, if its profile has no fault; each effect, and so each step, leads from a
/// whole table to a whole one.
pub fn tables_are_whole()
    ensures fresh { (profile : Profile) → profile_fault profile ≡ None → IsWhole (adapter_table profile) }
    ensures effects { EffectsKeep IsWhole }
    ensures steps { StepsKeep IsWhole }
{}

/// An admitted request has times within their limits and an id that is left; a data segment that is to be stored
/// is as long as the configuration.
pub fn admitted_requests_fit()
    ensures times { AdmittedAreTimed }
    ensures segments { StoredSegmentsFit }
{}

/// Data that are applied have an output, and as many bytes.
pub fn applied_data_fit()
    ensures outputs { AppliedDataHaveOutputs }
    ensures lengths { AppliedDataFit }
{}

/// The profile of an adapter stays.
pub fn profiles_stay()
    ensures { (profile : Profile) → StepsKeep (λ t. t.profile ≡ profile) }
{}

/// The counter of the next connection id never falls.
pub fn counters_never_fall()
    ensures { (counter : ℕ) → StepsKeep (λ t. counter ≤ t.next_id) }
{}

/// The blocks of connection ids grow: the ids of the numbers that they have stay.
pub fn blocks_grow()
    ensures { (ids : List IdBlock) → StepsKeep (λ t. Extends ids t.ids) }
{}

/// Only a further block changes the blocks of connection ids.
pub fn blocks_stay()
    ensures { StepsLeaveIds }
{}

/// An output of a fresh adapter holds zeros; after each event it has the bytes that the event left there, else those
/// that it had.
pub fn outputs_hold_what_is_left()
    ensures fresh { FreshOutputsAreZeros }
    ensures steps { StepsLeave }
    ensures refusals { RefusalsTouchNothing }
{}

/// A datagram that a connection accepts has a newer number than the one it accepted before. If it is applied, it is
/// run-mode data with another count than the one accepted before, and so not that datagram again.
pub fn accepted_datagrams_are_newer()
    ensures numbers { StepsAcceptAfter HasNewerNumber }
    ensures applied { StepsAcceptAfter IsAppliedNew }
    ensures once { StepsAcceptAfter IsNotAgain }
    ensures refusals { RefusalsAcceptNothing }
{}

/// No more connections are established than the maker states: not of an application type, and not of a node. While
/// fewer of an application type are established than it has places, another of this type is not refused for want of a
/// place, however many connections of other types there are.
pub fn places_are_kept()
    ensures fresh { (profile : Profile) → IsWithinLimits (adapter_table profile) }
    ensures steps { StepsKeep IsWithinLimits }
    ensures places { PlacesAreKept }
{}

/// Where the maker states how many connections a node can open in a second, each node has at most so many openings in
/// its second, which is the 1,000 ms from the first of them on. At most 64 nodes are counted at one time.
pub fn openings_are_bounded()
    ensures fresh { (profile : Profile) → OpensWithinLimits (adapter_table profile) }
    ensures steps { StepsKeep OpensWithinLimits }
{}

/// A message of a class 3 connection is executed at most once for each count that follows another: whatever became of
/// it, once more it gets the same reply, executes nothing, and leaves all but the deadline of its connection.
pub fn messages_are_executed_once()
    ensures { MessagesExecuteOnce }
{}

/// A request to an object of the maker's own is answered at most once: an answer that is given settles it, a settled
/// request stays so, and is not answered.
pub fn requests_are_answered_once()
    ensures answers { AnswersSettle }
    ensures steps { (number : ℕ) → StepsKeep (λ t. IsSettled number t.messaging) }
    ensures refusals { SettledAreRefused }
{}

/// The stream of each class 3 connection is open, and has a session; and no two connections of any class have one triad
/// or one O->T id.
pub fn class3_connections_live_on_streams()
    ensures streams { StreamsCarry }
    ensures names { (t : AdapterTable) → IsWhole t → NamesDiffer t }
{}
