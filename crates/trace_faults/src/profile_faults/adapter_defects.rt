//! The first defect of an adapter's profile: that of its first fault, and of the lines that have it the first.

ghost use Rattle.std.specs.Prelude.{◌≡◌, ◌≤◌, ◌||◌, not, is_some, IfOk, IfSome, codes};
ghost use Rattle.std.specs.List.{list_all};
ghost use Rattle.cip_events.specs.declared.profile_fault.ProfileFault.TheVariants as fault;
ghost use Rattle.cip_types.specs.Ids.{are_ids};
ghost use Rattle.adapter_table.specs.Profiles.{profile_fault, is_address, are_few, has_output_len, has_input_len, has_config_len, are_long_enough, is_revision, is_described, leaves_class, fits_description, is_point_len};
ghost use Rattle.trace_faults.specs.ProfileFaults.Defects.{Explains, reason_at, reason_fault};
ghost use Rattle.trace_faults.specs.ProfileFaults.Named.{NamesWord, NamesItemWord, NamesConfigWord, NamesDescribedWord, NamesIds};
ghost use Rattle.trace_lines.specs.WrittenProfiles.{output_words, point_words};

use crate::profile_faults::defects::{Defect, LineName, ProfileReason};
use crate::profile_faults::instances::instance_reason;
use crate::profile_faults::limit_defects::limit_reason;
use crate::profile_faults::object_defects::object_reason;
use adapter_table::{
    Description, InputPoint, LONGEST_INACTIVITY, OutputPoint, PHYSICAL_ADDRESS, Profile,
};
use cip_types::limits::{LONGEST_CONFIG, LONGEST_POINT, MOST_POINTS};
use cip_types::{IdBlock, Node, OutOfMemory};
use list_identity::LONGEST_NAME;
use std::alloc::Global;

/// The first defect of a profile. OutOfMemory is the only fault.
#[tactic(auto, unfolding(adapter_table::specs::Profiles::profile_fault))]
pub fn adapter_reason(
    alloc: Global,
    profile: &Profile,
) -> Result<Option<ProfileReason>, OutOfMemory>
    // One is found for each bad profile, and its fault is the first one of the profile.
    ensures fault { IfOk result (λ found. reason_fault found ≡ profile_fault profile.now) }
    // The word that it names has the value that it has.
    ensures named { IfOk result (λ found. IfSome found (NamesWord profile.now)) }
{
    if let Some(reason) = names_reason(profile) {
        return Ok(Some(reason));
    }
    if let Some(reason) = address_reason(profile) {
        return Ok(Some(reason));
    }
    if let Some(reason) = count_reason(profile) {
        return Ok(Some(reason));
    }
    if let Some(reason) = instance_reason(alloc, profile)? {
        return Ok(Some(reason));
    }
    if let Some(reason) = length_reason(profile) {
        return Ok(Some(reason));
    }
    if let Some(reason) = revision_reason(profile) {
        return Ok(Some(reason));
    }
    if let Some(reason) = described_reason(profile) {
        return Ok(Some(reason));
    }
    if let Some(reason) = limit_reason(profile) {
        return Ok(Some(reason));
    }
    Ok(object_reason(profile))
}

/// A defect at a word of the profile's first line.
fn at_adapter(word: usize, defect: Defect) -> ProfileReason
    ensures { result ≡ reason_at LineName.Adapter 0 word defect }
{
    ProfileReason::at(LineName::Adapter, 0, word, defect)
}

/// What is wrong with the incarnation, or with the block of connection ids that the profile states.
fn names_reason(profile: &Profile) -> Option<ProfileReason>
    ensures fault { Explains result (are_ids profile.now.incarnation profile.now.ids) fault.Incarnation }
    ensures named { IfSome result (NamesWord profile.now) }
{
    if profile.incarnation == 0 {
        return Some(at_adapter(2, Defect::Incarnation));
    }
    ids_reason(profile.incarnation, profile.ids)
}

/// What is wrong with the block of connection ids that a profile states, of an incarnation that is not 0.
pub(crate) fn ids_reason(incarnation: u8, ids: Option<IdBlock>) -> Option<ProfileReason>
    requires { 1 ≤ incarnation }
    ensures fault { Explains result (are_ids incarnation ids) fault.Incarnation }
    ensures named { IfSome result (NamesIds ids) }
{
    let block = ids?;
    if block.first == 0 {
        return Some(ProfileReason::at(LineName::Ids, 0, 2, Defect::NoFirstId));
    }
    if block.is_block() {
        return None;
    }
    let defect = Defect::LateIds(block.first, block.count);
    Some(ProfileReason::at(LineName::Ids, 0, 3, defect))
}

/// What is wrong with an address and its mask.
fn address_reason(profile: &Profile) -> Option<ProfileReason>
    ensures fault { Explains result (is_address profile.now.node.0 profile.now.mask) fault.Address }
    ensures named { IfSome result (NamesWord profile.now) }
{
    let node = profile.node;
    let mask = profile.mask;
    let size = (1u64 << 32) - u64::from(mask);
    if !size.is_power_of_two() {
        return Some(at_adapter(4, Defect::Mask(Node(mask))));
    }
    if u64::from(node.0) % size == 0 {
        return Some(at_adapter(3, Defect::NetworkAddress(node, Node(mask))));
    }
    None
}

/// No input, or the first output or input that is one too many.
fn count_reason(profile: &Profile) -> Option<ProfileReason>
    ensures fault { Explains result (are_few profile.now) fault.Points }
    ensures named { IfSome result (NamesWord profile.now) }
{
    let inputs = profile.inputs.as_slice();
    if inputs.is_empty() {
        return Some(at_adapter(1, Defect::NoInput));
    }
    if let Some(output) = profile.outputs.as_slice().get(MOST_POINTS) {
        let defect = Defect::ExtraOutput(output.instance);
        return Some(ProfileReason::at(LineName::Output, MOST_POINTS, 2, defect));
    }
    let input = inputs.get(MOST_POINTS)?;
    let defect = Defect::ExtraInput(input.instance);
    Some(ProfileReason::at(LineName::Input, MOST_POINTS, 2, defect))
}

/// The first output, input or configuration of a length that it may not have.
#[tactic(auto, using(crate::proofs::Named::named_output, crate::proofs::Named::named_input, crate::proofs::Named::named_config))]
fn length_reason(profile: &Profile) -> Option<ProfileReason>
    ensures fault { Explains result (are_long_enough profile.now) fault.Length }
    ensures named { IfSome result (NamesWord profile.now) }
{
    if let Some(reason) = output_reason(profile.outputs.as_slice()) {
        return Some(reason);
    }
    if let Some(reason) = input_reason(profile.inputs.as_slice()) {
        return Some(reason);
    }
    config_reason(profile.config)
}

fn output_reason(outputs: &[OutputPoint]) -> Option<ProfileReason>
    ensures fault { Explains result (list_all has_output_len outputs.now) fault.Length }
    ensures named { IfSome result (NamesItemWord LineName.Output output_words outputs.now) }
{
    for (index, output) in outputs.iter().enumerate() {
        if !is_point_len(output.len) {
            let defect = Defect::OutputLen(output.instance, output.len);
            return Some(ProfileReason::at(LineName::Output, index, 3, defect));
        }
    }
    None
}

fn input_reason(inputs: &[InputPoint]) -> Option<ProfileReason>
    ensures fault { Explains result (list_all has_input_len inputs.now) fault.Length }
    ensures named { IfSome result (NamesItemWord LineName.Input (point_words (codes "input")) inputs.now) }
{
    for (index, input) in inputs.iter().enumerate() {
        if !is_point_len(input.len) {
            let defect = Defect::InputLen(input.instance, input.len);
            return Some(ProfileReason::at(LineName::Input, index, 3, defect));
        }
    }
    None
}

fn config_reason(config: Option<InputPoint>) -> Option<ProfileReason>
    ensures fault { Explains result (has_config_len config) fault.Length }
    ensures named { IfSome result (NamesConfigWord config) }
{
    let config = config?;
    if config.len <= LONGEST_CONFIG && config.len % 2 == 0 {
        return None;
    }
    let defect = Defect::ConfigLen(config.instance, config.len);
    Some(ProfileReason::at(LineName::Config, 0, 3, defect))
}

/// Whether a point may have so many bytes.
pub(crate) fn is_point_len(len: u64) -> bool
    ensures { result ≡ is_point_len len }
{
    (1..=LONGEST_POINT).contains(&len)
}

/// What is wrong with a revision.
fn revision_reason(profile: &Profile) -> Option<ProfileReason>
    ensures fault { Explains result (is_revision profile.now.identity) fault.Identity }
    ensures named { IfSome result (NamesWord profile.now) }
{
    let identity = profile.identity;
    if !(1..=127).contains(&identity.major) {
        return Some(at_adapter(8, Defect::Major(identity.major)));
    }
    if identity.minor == 0 {
        return Some(at_adapter(9, Defect::Minor(identity.minor)));
    }
    None
}

/// What is wrong with the description, if there is one: itself, or that a point has the instance of the class.
#[tactic(auto, using(crate::proofs::Named::named_described))]
fn described_reason(profile: &Profile) -> Option<ProfileReason>
    ensures fault { Explains result (fits_description profile.now) fault.Description }
    ensures named { IfSome result (NamesWord profile.now) }
{
    if let Some(reason) = description_reason(&profile.description) {
        return Some(reason);
    }
    class_reason(profile)
}

/// A point with the instance by which tools ask the class, at a device that is described.
fn class_reason(profile: &Profile) -> Option<ProfileReason>
    ensures fault { Explains result (not (is_some profile.now.description) || leaves_class profile.now)
        fault.Description }
    ensures named { IfSome result (NamesDescribedWord profile.now.description) }
{
    let Some(_) = profile.description else {
        return None;
    };
    if profile.leaves_class() {
        return None;
    }
    Some(at_description(1, Defect::ClassInstance))
}

/// What is wrong with a description: its name, its physical address, or its inactivity time-out.
fn description_reason(description: &Option<Description>) -> Option<ProfileReason>
    ensures fault { Explains result (is_described description.now) fault.Description }
    ensures named { IfSome result (NamesDescribedWord description.now) }
{
    let Some(description) = description else {
        return None;
    };
    let name_len = description.name.as_slice().len();
    if name_len > LONGEST_NAME {
        return Some(at_description(3, Defect::NameLen(name_len)));
    }
    let address_len = description.mac.as_slice().len();
    if address_len != PHYSICAL_ADDRESS {
        return Some(at_description(7, Defect::AddressLen(address_len)));
    }
    if description.inactivity > LONGEST_INACTIVITY {
        return Some(at_description(8, Defect::Inactivity(description.inactivity)));
    }
    None
}

/// A defect at a word of the description's line.
fn at_description(word: usize, defect: Defect) -> ProfileReason
    ensures { result ≡ reason_at LineName.Describe 0 word defect }
{
    ProfileReason::at(LineName::Describe, 0, word, defect)
}
