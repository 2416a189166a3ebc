//! The first defect of a scanner's profile: that of its first fault, and of the lines that have it the first.

ghost use Rattle.std.specs.Prelude.{◌≡◌, ◌&&◌, [], decimal, get_or, IfSome};
ghost use Rattle.std.specs.List.{list_all};
ghost use Rattle.cip_events.specs.declared.profile_fault.ProfileFault.TheVariants as fault;
ghost use Rattle.cip_types.specs.Ids.{are_ids};
ghost use Rattle.scanner_table.specs.Profiles.{profile_fault, are_served, listens_to_group, shares_group, are_apart, is_out_len, is_config, has_lengths, is_inhibit, has_times, is_wait, keeps_time, is_paced, has_pace, are_paced, are_openings, are_serials};
ghost use Rattle.trace_faults.specs.ProfileFaults.Defects.{Explains, IsDefectOf, IsPassing, IsFailing, reason_at, reason_fault};
ghost use Rattle.trace_faults.specs.ProfileFaults.Named.{IsWordOf, IsOfSlot, NamesOpenings, NamesSerials, NamesSlotWord, NamesWordOfSlots, NamesWordOfScanner};
ghost use Rattle.trace_words.specs.Words.{bytes_word};
ghost use Rattle.trace_lines.specs.Slots.{rate_words};

use crate::profile_faults::adapter_defects::{ids_reason, is_point_len};
use crate::profile_faults::defects::{
    Defect, LineName, PacketDirection, ProfileReason, WaitingTime,
};
use crate::profile_faults::limit_defects::newer_reason;
use cip_netparams::{Trigger, api_of};
use cip_productions::Kind;
use cip_types::limits::{LONGEST_CONFIG, LONGEST_WAIT_MS, MOST_SLOTS};
use scanner_table::{MOST_WAITING_OPENINGS, ScannerProfile, SlotConfig};

/// The first defect of a profile.
#[tactic(auto, using(crate::proofs::Named::named_slot), unfolding(scanner_table::specs::Profiles::profile_fault))]
pub fn scanner_reason(profile: &ScannerProfile) -> Option<ProfileReason>
    // One is found for each bad profile, and its fault is the first one of the profile.
    ensures fault { reason_fault result ≡ profile_fault profile.now }
    // The word that it names has the value that it has, and a slot's defect is that of the line's slot.
    ensures named { IfSome result (NamesWordOfScanner profile.now) }
{
    if let Some(reason) = names_reason(profile) {
        return Some(reason);
    }
    let slots = profile.slots.as_slice();
    if let Some(reason) = count_reason(profile) {
        return Some(reason);
    }
    if let Some(reason) = group_reason(slots) {
        return Some(reason);
    }
    if let Some(reason) = length_reason(slots) {
        return Some(reason);
    }
    if let Some(reason) = time_reason(profile) {
        return Some(reason);
    }
    if let Some(reason) = number_reason(profile) {
        return Some(reason);
    }
    opening_reason(profile)
}

/// A defect at a word of the profile's first line.
fn at_scanner(word: usize, defect: Defect) -> ProfileReason
    ensures { result ≡ reason_at LineName.Scanner 0 word defect }
{
    ProfileReason::at(LineName::Scanner, 0, word, defect)
}

/// What is wrong with the incarnation, or with the block of connection ids that the profile states.
fn names_reason(profile: &ScannerProfile) -> Option<ProfileReason>
    ensures fault { Explains result (are_ids profile.now.incarnation profile.now.ids) fault.Incarnation }
    ensures named { IfSome result (NamesWordOfScanner profile.now) }
{
    if profile.incarnation == 0 {
        return Some(at_scanner(2, Defect::Incarnation));
    }
    ids_reason(profile.incarnation, profile.ids)
}

/// No slot, or the first that is listen-only and not multicast or one too many.
#[tactic(auto, using(crate::proofs::Named::cast_of_listener))]
fn count_reason(profile: &ScannerProfile) -> Option<ProfileReason>
    ensures fault { Explains result (are_served profile.now) fault.Points }
    ensures named { IfSome result (NamesWordOfScanner profile.now) }
{
    let slots = profile.slots.as_slice();
    if slots.is_empty() {
        return Some(at_scanner(1, Defect::NoSlot));
    }
    match listener_alone(slots) {
        Some(slot) if slot < MOST_SLOTS => {
            let defect = Defect::Listener(slot);
            Some(ProfileReason::at(LineName::Slot, slot, 12, defect))
        }
        _ if slots.len() > MOST_SLOTS => {
            let defect = Defect::ExtraSlot(MOST_SLOTS);
            Some(ProfileReason::at(LineName::Slot, MOST_SLOTS, 1, defect))
        }
        _ => None,
    }
}

/// The first slot that is listen-only and not multicast.
fn listener_alone(slots: &[SlotConfig]) -> Option<usize>
    ensures { IsFailing listens_to_group slots.now result }
{
    for (index, slot) in slots.iter().enumerate() {
        if !listens_to_group(slot) {
            return Some(index);
        }
    }
    None
}

/// Whether a slot is not listen-only, or multicast.
fn listens_to_group(slot: &SlotConfig) -> bool
    ensures { result ≡ listens_to_group slot.now }
{
    slot.kind != Kind::ListenOnly || slot.multicast
}

/// The first slot that takes a target's point by multicast as an earlier one does.
#[tactic(auto, using(crate::proofs::Groups::slots_next, crate::proofs::Groups::slots_end))]
fn group_reason(slots: &[SlotConfig]) -> Option<ProfileReason>
    ensures fault { Explains result (are_apart slots.now) fault.SameInstance }
    ensures named { IfSome result (NamesWordOfSlots slots.now) }
{
    for (index, slot) in slots.iter().enumerate() {
        if let Some(other) = sharing(&slots[..index], slot) {
            let defect = Defect::SameGroup {
                slot: index,
                other,
                target: slot.target,
                point: slot.produced,
            };
            return Some(ProfileReason::at(LineName::Slot, index, 6, defect));
        }
    }
    None
}

/// The first of these slots that shares this slot's group.
fn sharing(slots: &[SlotConfig], slot: &SlotConfig) -> Option<usize>
    ensures { IsPassing (λ other. shares_group other slot.now) slots.now result }
{
    for (index, other) in slots.iter().enumerate() {
        if shares_group(other, slot) {
            return Some(index);
        }
    }
    None
}

/// Whether two slots are multicast, and name one produced point of one target.
fn shares_group(slot: &SlotConfig, other: &SlotConfig) -> bool
    ensures { result ≡ shares_group slot.now other.now }
{
    slot.multicast
        && other.multicast
        && slot.target == other.target
        && slot.produced == other.produced
}

/// The first length of a slot that it may not have.
#[tactic(auto, using(crate::proofs::Named::named_of_slots))]
fn length_reason(slots: &[SlotConfig]) -> Option<ProfileReason>
    ensures fault { Explains result (list_all has_lengths slots.now) fault.Length }
    ensures named { IfSome result (NamesWordOfSlots slots.now) }
{
    for (index, slot) in slots.iter().enumerate() {
        if let Some(reason) = slot_length(index, slot) {
            return Some(reason);
        }
    }
    None
}

fn slot_length(index: usize, slot: &SlotConfig) -> Option<ProfileReason>
    ensures fault { Explains result (has_lengths slot.now) fault.Length }
    ensures named { IfSome result (NamesSlotWord index slot.now) }
{
    if let Some(defect) = output_defect(index, slot.kind, slot.out_len) {
        return Some(ProfileReason::at(LineName::Slot, index, 7, defect));
    }
    if !is_point_len(slot.in_len) {
        let defect = Defect::SlotInput(index, slot.in_len);
        return Some(ProfileReason::at(LineName::Slot, index, 8, defect));
    }
    let defect = config_defect(index, slot.config, slot.config_data.as_slice())?;
    Some(ProfileReason::at(LineName::Slot, index, 14, defect))
}

/// What is wrong with the bytes of an output of a slot of this kind.
fn output_defect(index: usize, kind: Kind, len: u64) -> Option<Defect>
    ensures fault { IsDefectOf result (is_out_len kind len) fault.Length }
    ensures word { IfSome result (λ found. IsWordOf found (decimal len)) }
    ensures slot { IfSome result (IsOfSlot index) }
{
    match kind {
        Kind::ExclusiveOwner if is_point_len(len) => None,
        Kind::ExclusiveOwner => Some(Defect::SlotOutput(index, len)),
        Kind::InputOnly | Kind::ListenOnly if len == 0 => None,
        Kind::InputOnly | Kind::ListenOnly => Some(Defect::SlotHeartbeat(index, kind, len)),
    }
}

/// What is wrong with the bytes of a slot's configuration.
fn config_defect(index: usize, config: Option<u32>, bytes: &[u8]) -> Option<Defect>
    ensures fault { IsDefectOf result (is_config config bytes.now) fault.Length }
    ensures word { IfSome result (λ found. IsWordOf found (bytes_word bytes.now)) }
    ensures slot { IfSome result (IsOfSlot index) }
{
    let len = bytes.len();
    match config {
        Some(_) if len as u64 <= LONGEST_CONFIG && len % 2 == 0 => None,
        Some(_) => Some(Defect::SlotConfiguration(index, len)),
        None if len == 0 => None,
        None => Some(Defect::SlotNoConfiguration(index, len)),
    }
}

/// The first time that is out of its range.
#[tactic(auto, using(crate::proofs::Named::named_slot))]
fn time_reason(profile: &ScannerProfile) -> Option<ProfileReason>
    ensures fault { Explains result (keeps_time profile.now) fault.Timing }
    ensures named { IfSome result (NamesWordOfScanner profile.now) }
{
    if !is_wait(profile.open_timeout) {
        let defect = Defect::Waiting(WaitingTime::OpenTimeout, profile.open_timeout);
        return Some(at_scanner(6, defect));
    }
    if !is_wait(profile.retry) {
        let defect = Defect::Waiting(WaitingTime::Retry, profile.retry);
        return Some(at_scanner(7, defect));
    }
    rate_reason(profile.slots.as_slice())
}

/// Whether a waiting time may have so many milliseconds.
fn is_wait(ms: u64) -> bool
    ensures { result ≡ is_wait ms }
{
    (1..=LONGEST_WAIT_MS).contains(&ms)
}

/// The first time of a slot that is out of its range.
#[tactic(auto, using(crate::proofs::Named::named_of_slots))]
fn rate_reason(slots: &[SlotConfig]) -> Option<ProfileReason>
    ensures fault { Explains result (list_all has_times slots.now) fault.Timing }
    ensures named { IfSome result (NamesWordOfSlots slots.now) }
{
    for (index, slot) in slots.iter().enumerate() {
        if let Some(reason) = slot_time(index, slot) {
            return Some(reason);
        }
    }
    None
}

fn slot_time(index: usize, slot: &SlotConfig) -> Option<ProfileReason>
    ensures fault { Explains result (has_times slot.now) fault.Timing }
    ensures named { IfSome result (NamesSlotWord index slot.now) }
{
    if api_of(slot.o_t_rpi).is_none() {
        let defect = Defect::Interval(index, PacketDirection::OriginatorToTarget, slot.o_t_rpi);
        return Some(ProfileReason::at(LineName::Slot, index, 9, defect));
    }
    let Some(api) = api_of(slot.t_o_rpi) else {
        let defect = Defect::Interval(index, PacketDirection::TargetToOriginator, slot.t_o_rpi);
        return Some(ProfileReason::at(LineName::Slot, index, 10, defect));
    };
    if slot.mult > 7 {
        let defect = Defect::Multiplier(index, slot.mult);
        return Some(ProfileReason::at(LineName::Slot, index, 11, defect));
    }
    let defect = inhibit_defect(index, slot.trigger, slot.inhibit, api)?;
    Some(ProfileReason::at(LineName::Slot, index, 16, defect))
}

/// What is wrong with a slot's inhibit time, if its packet interval is so many milliseconds.
fn inhibit_defect(index: usize, trigger: Trigger, inhibit: u8, api: u32) -> Option<Defect>
    ensures fault { IsDefectOf result (is_inhibit trigger inhibit api) fault.Timing }
    ensures word { IfSome result (λ found. IsWordOf found (get_or (rate_words trigger inhibit) 1 [])) }
    ensures slot { IfSome result (IsOfSlot index) }
{
    match trigger {
        Trigger::Cyclic if inhibit == 0 => None,
        Trigger::Cyclic => Some(Defect::CyclicInhibit(index, inhibit)),
        Trigger::ChangeOfState if u32::from(inhibit) <= api => None,
        Trigger::ChangeOfState => Some(Defect::Inhibit(index, inhibit, api)),
    }
}

/// What is wrong with what the profile says of openings.
#[tactic(auto, using(crate::proofs::Named::named_openings, crate::proofs::Named::named_serials))]
fn opening_reason(profile: &ScannerProfile) -> Option<ProfileReason>
    ensures fault { Explains result
        (are_openings profile.now.openings && are_serials profile.now.serials) fault.Limits }
    ensures named { IfSome result (NamesWordOfScanner profile.now) }
{
    if let Some(reason) = openings_reason(profile.openings) {
        return Some(reason);
    }
    serials_reason(profile.serials)
}

/// The most openings that wait at one time, out of their range.
fn openings_reason(openings: Option<u8>) -> Option<ProfileReason>
    ensures fault { Explains result (are_openings openings) fault.Limits }
    ensures named { IfSome result (NamesOpenings openings) }
{
    let most = openings?;
    if (1..=MOST_WAITING_OPENINGS).contains(&most) {
        return None;
    }
    Some(ProfileReason::at(LineName::Openings, 0, 2, Defect::Openings(most)))
}

/// A first serial number of 0.
fn serials_reason(serials: Option<u16>) -> Option<ProfileReason>
    ensures fault { Explains result (are_serials serials) fault.Limits }
    ensures named { IfSome result (NamesSerials serials) }
{
    let first = serials?;
    if first != 0 {
        return None;
    }
    Some(ProfileReason::at(LineName::Serials, 0, 2, Defect::NoSerial))
}

/// The limit of sequence numbers that is out of its range, or the first slot without a pace.
#[tactic(auto, using(crate::proofs::Named::named_slot, crate::proofs::Named::named_window))]
fn number_reason(profile: &ScannerProfile) -> Option<ProfileReason>
    ensures fault { Explains result (are_paced profile.now.newer profile.now.slots) fault.Limits }
    ensures named { IfSome result (NamesWordOfScanner profile.now) }
{
    if profile.newer.is_none() {
        return None;
    }
    if let Some(reason) = newer_reason(profile.newer) {
        return Some(reason);
    }
    pace_reason(profile.slots.as_slice())
}

/// The first slot of change of state that is never held back.
#[tactic(auto, using(crate::proofs::Named::named_of_slots))]
fn pace_reason(slots: &[SlotConfig]) -> Option<ProfileReason>
    ensures fault { Explains result (list_all has_pace slots.now) fault.Limits }
    ensures named { IfSome result (NamesWordOfSlots slots.now) }
{
    for (index, slot) in slots.iter().enumerate() {
        if let Some(reason) = slot_pace(index, slot) {
            return Some(reason);
        }
    }
    None
}

fn slot_pace(index: usize, slot: &SlotConfig) -> Option<ProfileReason>
    ensures fault { Explains result (has_pace slot.now) fault.Limits }
    ensures named { IfSome result (NamesSlotWord index slot.now) }
{
    let defect = pace_defect(index, slot.trigger, slot.inhibit)?;
    Some(ProfileReason::at(LineName::Slot, index, 16, defect))
}

/// What is wrong with a slot's inhibit time, if its target's numbers are limited.
fn pace_defect(index: usize, trigger: Trigger, inhibit: u8) -> Option<Defect>
    ensures fault { IsDefectOf result (is_paced trigger inhibit) fault.Limits }
    ensures word { IfSome result (λ found. IsWordOf found (get_or (rate_words trigger inhibit) 1 [])) }
    ensures slot { IfSome result (IsOfSlot index) }
{
    match trigger {
        Trigger::ChangeOfState if inhibit == 0 => Some(Defect::NoPace(index)),
        Trigger::ChangeOfState | Trigger::Cyclic => None,
    }
}
