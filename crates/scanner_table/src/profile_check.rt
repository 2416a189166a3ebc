//! The check of a profile. Each function below decides the definition of its name in `specs/Profiles`.

ghost use Rattle.std.specs.Prelude.{◌≡◌, ◌↔◌, None, Some, IsOk, IfErr};
ghost use Rattle.std.specs.List.{list_any, list_all};
ghost use Rattle.scanner_table.specs.Profiles.{are_few, listens_to_group, are_served, shares_group, are_apart, is_point_len, is_out_len, is_config, has_lengths, is_inhibit, has_times, is_wait, keeps_time, has_pace, is_window, are_paced, are_openings, are_serials, profile_fault};

use crate::profile::{ScannerProfile, SlotConfig};
use cip_events::ProfileFault;
use cip_netparams::{Trigger, api_of};
use cip_productions::{FARTHEST_NUMBER, Kind};
use cip_types::are_ids;
use cip_types::limits::{LONGEST_CONFIG, LONGEST_POINT, LONGEST_WAIT_MS, MOST_SLOTS};

/// The most openings that can wait for replies of one target at one time.
pub const MOST_WAITING_OPENINGS: u8 = 48;

fn are_few(slots: &[SlotConfig]) -> bool
    ensures { result ≡ are_few slots.now }
{
    !slots.is_empty() && slots.len() <= MOST_SLOTS
}

fn listens_to_group(slot: &SlotConfig) -> bool
    ensures { result ≡ listens_to_group slot.now }
{
    slot.kind != Kind::ListenOnly || slot.multicast
}

fn listen_to_groups(slots: &[SlotConfig]) -> bool
    ensures { result ≡ list_all listens_to_group slots.now }
{
    slots.iter().all(|slot| listens_to_group(slot))
}

fn are_served(profile: &ScannerProfile) -> bool
    ensures { result ≡ are_served profile.now }
{
    are_few(profile.slots.as_slice()) && listen_to_groups(profile.slots.as_slice())
}

fn shares_group(slot: &SlotConfig, other: &SlotConfig) -> bool
    ensures { result ≡ shares_group slot.now other.now }
{
    slot.multicast
        && other.multicast
        && slot.target == other.target
        && slot.produced == other.produced
}

fn shares_any(slot: &SlotConfig, others: &[SlotConfig]) -> bool
    ensures { result ≡ list_any (shares_group slot.now) others.now }
{
    others.iter().any(|other| shares_group(slot, other))
}

fn are_apart(slots: &[SlotConfig]) -> bool
    ensures { result ≡ are_apart slots.now }
{
    match slots {
        [] => true,
        [slot, rest @ ..] => !shares_any(slot, rest) && are_apart(rest),
    }
}

fn is_point_len(len: u64) -> bool
    ensures { result ≡ is_point_len len }
{
    (1..=LONGEST_POINT).contains(&len)
}

fn is_out_len(kind: Kind, len: u64) -> bool
    ensures { result ≡ is_out_len kind len }
{
    match kind {
        Kind::ExclusiveOwner => is_point_len(len),
        Kind::InputOnly | Kind::ListenOnly => len == 0,
    }
}

fn is_config(config: Option<u32>, bytes: &[u8]) -> bool
    ensures { result ≡ is_config config bytes.now }
{
    match config {
        Some(_) => bytes.len() as u64 <= LONGEST_CONFIG && bytes.len() % 2 == 0,
        None => bytes.is_empty(),
    }
}

fn has_lengths(slot: &SlotConfig) -> bool
    ensures { result ≡ has_lengths slot.now }
{
    is_point_len(slot.in_len)
        && is_out_len(slot.kind, slot.out_len)
        && is_config(slot.config, slot.config_data.as_slice())
}

fn is_inhibit(trigger: Trigger, inhibit: u8, api: u32) -> bool
    ensures { result ≡ is_inhibit trigger inhibit api }
{
    match trigger {
        Trigger::Cyclic => inhibit == 0,
        Trigger::ChangeOfState => u32::from(inhibit) <= api,
    }
}

fn has_times(slot: &SlotConfig) -> bool
    ensures { result ≡ has_times slot.now }
{
    let Some(_) = api_of(slot.o_t_rpi) else {
        return false;
    };
    let Some(api) = api_of(slot.t_o_rpi) else {
        return false;
    };
    slot.mult <= 7 && is_inhibit(slot.trigger, slot.inhibit, api)
}

fn is_wait(ms: u64) -> bool
    ensures { result ≡ is_wait ms }
{
    (1..=LONGEST_WAIT_MS).contains(&ms)
}

fn have_times(slots: &[SlotConfig]) -> bool
    ensures { result ≡ list_all has_times slots.now }
{
    slots.iter().all(|slot| has_times(slot))
}

fn keeps_time(profile: &ScannerProfile) -> bool
    ensures { result ≡ keeps_time profile.now }
{
    have_times(profile.slots.as_slice()) && is_wait(profile.open_timeout) && is_wait(profile.retry)
}

fn has_pace(slot: &SlotConfig) -> bool
    ensures { result ≡ has_pace slot.now }
{
    match slot.trigger {
        Trigger::Cyclic => true,
        Trigger::ChangeOfState => slot.inhibit != 0,
    }
}

fn have_paces(slots: &[SlotConfig]) -> bool
    ensures { result ≡ list_all has_pace slots.now }
{
    slots.iter().all(|slot| has_pace(slot))
}

fn is_window(within: u32) -> bool
    ensures { result ≡ is_window within }
{
    (2..=FARTHEST_NUMBER).contains(&within)
}

fn are_paced(profile: &ScannerProfile) -> bool
    ensures { result ≡ are_paced profile.now.newer profile.now.slots }
{
    match profile.newer {
        Some(within) => is_window(within) && have_paces(profile.slots.as_slice()),
        None => true,
    }
}

fn are_openings(openings: Option<u8>) -> bool
    ensures { result ≡ are_openings openings }
{
    match openings {
        Some(most) => (1..=MOST_WAITING_OPENINGS).contains(&most),
        None => true,
    }
}

fn are_serials(serials: Option<u16>) -> bool
    ensures { result ≡ are_serials serials }
{
    match serials {
        Some(first) => first != 0,
        None => true,
    }
}

fn are_long_enough(slots: &[SlotConfig]) -> bool
    ensures { result ≡ list_all has_lengths slots.now }
{
    slots.iter().all(|slot| has_lengths(slot))
}

/// Returns the first fault of a profile.
#[tactic(auto, unfolding(crate::specs::Profiles::profile_fault))]
fn fault_of(profile: &ScannerProfile) -> Option<ProfileFault>
    ensures { result ≡ profile_fault profile.now }
{
    if !are_ids(profile.incarnation, profile.ids) {
        return Some(ProfileFault::Incarnation);
    }
    if !are_served(profile) {
        return Some(ProfileFault::Points);
    }
    if !are_apart(profile.slots.as_slice()) {
        return Some(ProfileFault::SameInstance);
    }
    if !are_long_enough(profile.slots.as_slice()) {
        return Some(ProfileFault::Length);
    }
    if !keeps_time(profile) {
        return Some(ProfileFault::Timing);
    }
    if !are_paced(profile) {
        return Some(ProfileFault::Limits);
    }
    if !are_openings(profile.openings) {
        return Some(ProfileFault::Limits);
    }
    if !are_serials(profile.serials) {
        return Some(ProfileFault::Limits);
    }
    None
}

impl ScannerProfile {
    /// Checks the profile, and returns the first fault in this order. Takes no memory.
    ///
    /// - `Incarnation`: the incarnation is 0, or the ids do not begin at 1 or above, or do not end below 2^32.
    /// - `Points`: the profile has no slot or more than 64, or a listen-only slot is not multicast.
    /// - `SameInstance`: two multicast slots name one produced point of one target.
    /// - `Length`: an input, an output or configuration data have a length that is not allowed.
    /// - `Timing`: a packet interval, a timeout multiplier, an inhibit time, `open_timeout` or `retry` is out of range.
    /// - `Limits`: `newer` is below 2 or above 2^31, or is there while a change-of-state slot has an inhibit time of 0; or
    ///   `openings` is 0 or above 48, or `serials` is 0.
    pub fn check(&self) -> Result<(), ProfileFault>
        ensures ok { IsOk result ↔ (profile_fault self.now ≡ None) }
        ensures fault { IfErr result (λ f. profile_fault self.now ≡ Some f) }
    {
        match fault_of(self) {
            Some(fault) => Err(fault),
            None => Ok(()),
        }
    }
}
