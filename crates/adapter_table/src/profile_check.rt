//! The check of a profile.

ghost use Rattle.std.specs.Prelude.{◌≡◌, ◌↔◌, ◌++◌, Some, None, IsOk, IfErr, map};
ghost use Rattle.std.specs.List.{list_any, list_all};
ghost use Rattle.adapter_table.specs.Profiles.{is_address, is_at, is_output_at, as_point, points_beside, are_distinct, are_few, has_output_len, has_input_len, has_config_len, are_long_enough, is_revision, is_described, leaves_class, fits_description, is_point_len, is_from, are_few_places, are_node_limits, are_limits, is_class, is_free_class, are_own_classes, are_objects, profile_fault};

use crate::maker_limits::{MakerLimits, NodeLimits, Places};
use crate::profile::{Description, InputPoint, OutputPoint, Profile};
use cip_events::ProfileFault;
use cip_productions::FARTHEST_NUMBER;
use cip_types::limits::{LONGEST_CONFIG, LONGEST_POINT, LONGEST_RPI_US, MOST_POINTS};
use cip_types::{Identity, Node, are_ids};
use list_identity::LONGEST_NAME;

/// The bytes of a physical address.
pub const PHYSICAL_ADDRESS: usize = 6;

/// The longest inactivity time-out, in seconds.
///
/// Volume 2, chapter 5, TCP/IP Interface object, attribute 13.
pub const LONGEST_INACTIVITY: u16 = 3600;

/// The most classes of the maker's own objects.
pub const MOST_OWN_CLASSES: usize = 16;

/// The largest class of an object.
pub const LARGEST_CLASS: u32 = 0xFFFF;

fn is_address(node: Node, mask: u32) -> bool
    ensures { result ≡ is_address node.0 mask }
{
    let size = (1u64 << 32) - u64::from(mask);
    size.is_power_of_two() && u64::from(node.0) % size != 0
}

fn are_few(profile: &Profile) -> bool
    ensures { result ≡ are_few profile.now }
{
    let inputs = profile.inputs.as_slice().len();
    let outputs = profile.outputs.as_slice().len();
    inputs != 0 && inputs <= MOST_POINTS && outputs <= MOST_POINTS
}

fn has_output(outputs: &[OutputPoint], instance: u32) -> bool
    ensures { result ≡ list_any (is_output_at instance) outputs.now }
{
    outputs.iter().any(|output| output.instance == instance)
}

fn has_input(inputs: &[InputPoint], instance: u32) -> bool
    ensures { result ≡ list_any (is_at instance) inputs.now }
{
    inputs.iter().any(|input| input.instance == instance)
}

fn has_beside(profile: &Profile, instance: u32) -> bool
    ensures { result ≡ list_any (is_at instance) (points_beside profile.now) }
{
    let heartbeat = profile.input_only == instance || profile.listen_only == instance;
    match profile.config {
        Some(config) => config.instance == instance || heartbeat,
        None => heartbeat,
    }
}

fn beside_differ(profile: &Profile) -> bool
    ensures { result ≡ are_distinct (points_beside profile.now) }
{
    let heartbeats = profile.listen_only != profile.input_only;
    match profile.config {
        Some(config) => {
            config.instance != profile.input_only
                && config.instance != profile.listen_only
                && heartbeats
        }
        None => heartbeats,
    }
}

#[tactic(auto, using(crate::proofs::PointLemmas::any_append))]
fn inputs_differ(inputs: &[InputPoint], profile: &Profile) -> bool
    ensures { result ≡ are_distinct (inputs.now ++ points_beside profile.now) }
{
    match inputs {
        [] => beside_differ(profile),
        [first, rest @ ..] => {
            !has_input(rest, first.instance)
                && !has_beside(profile, first.instance)
                && inputs_differ(rest, profile)
        }
    }
}

/// Whether one of these outputs, an input, the configuration or a heartbeat has this instance.
#[tactic(auto, using(crate::proofs::PointLemmas::any_point))]
fn has_point(outputs: &[OutputPoint], profile: &Profile, instance: u32) -> bool
    ensures { result ≡ list_any (is_at instance)
        (map as_point outputs.now ++ (profile.now.inputs ++ points_beside profile.now)) }
{
    has_output(outputs, instance)
        || has_input(profile.inputs.as_slice(), instance)
        || has_beside(profile, instance)
}

fn outputs_differ(outputs: &[OutputPoint], profile: &Profile) -> bool
    ensures { result ≡ are_distinct (map as_point outputs.now ++ (profile.now.inputs ++ points_beside profile.now)) }
{
    match outputs {
        [] => inputs_differ(profile.inputs.as_slice(), profile),
        [first, rest @ ..] => {
            !has_point(rest, profile, first.instance) && outputs_differ(rest, profile)
        }
    }
}

fn is_point_len(len: u64) -> bool
    ensures { result ≡ is_point_len len }
{
    (1..=LONGEST_POINT).contains(&len)
}

fn are_outputs_long_enough(outputs: &[OutputPoint]) -> bool
    ensures { result ≡ list_all has_output_len outputs.now }
{
    outputs.iter().all(|output| is_point_len(output.len))
}

fn are_inputs_long_enough(inputs: &[InputPoint]) -> bool
    ensures { result ≡ list_all has_input_len inputs.now }
{
    inputs.iter().all(|input| is_point_len(input.len))
}

fn has_config_len(config: Option<InputPoint>) -> bool
    ensures { result ≡ has_config_len config }
{
    match config {
        Some(config) => config.len <= LONGEST_CONFIG && config.len % 2 == 0,
        None => true,
    }
}

fn are_long_enough(profile: &Profile) -> bool
    ensures { result ≡ are_long_enough profile.now }
{
    are_outputs_long_enough(profile.outputs.as_slice())
        && are_inputs_long_enough(profile.inputs.as_slice())
        && has_config_len(profile.config)
}

fn is_revision(identity: &Identity) -> bool
    ensures { result ≡ is_revision identity.now }
{
    1 <= identity.major && identity.major <= 127 && 1 <= identity.minor
}

fn is_described(description: &Option<Description>) -> bool
    ensures { result ≡ is_described description.now }
{
    match description {
        Some(d) => {
            d.name.as_slice().len() <= LONGEST_NAME
                && d.mac.as_slice().len() == PHYSICAL_ADDRESS
                && d.inactivity <= LONGEST_INACTIVITY
        }
        None => true,
    }
}

fn fits_description(profile: &Profile) -> bool
    ensures { result ≡ fits_description profile.now }
{
    is_described(&profile.description) && (profile.description.is_none() || profile.leaves_class())
}

fn is_from(least: u32, most: u32, value: Option<u32>) -> bool
    ensures { result ≡ is_from least most value }
{
    match value {
        Some(value) => least <= value && value <= most,
        None => true,
    }
}

fn is_opening_number(number: Option<u16>) -> bool
    ensures { result ≡ is_from 1 65535 number }
{
    match number {
        Some(number) => 1 <= number,
        None => true,
    }
}

fn are_node_limits(limits: Option<NodeLimits>) -> bool
    ensures { result ≡ are_node_limits limits }
{
    match limits {
        Some(limits) => {
            1 <= limits.connections
                && limits.connections <= 64
                && is_opening_number(limits.openings)
        }
        None => true,
    }
}

fn are_few_class3_connections(number: Option<u8>) -> bool
    ensures { result ≡ is_from 0 64 number }
{
    match number {
        Some(number) => number <= 64,
        None => true,
    }
}

fn are_few_places(places: Option<Places>) -> bool
    ensures { result ≡ are_few_places places }
{
    match places {
        Some(places) => {
            let others = u16::from(places.readers) + u16::from(places.listeners);
            (1..=64).contains(&(u16::from(places.owners) + others))
                && are_few_class3_connections(places.class3_connections)
        }
        None => true,
    }
}

fn are_limits(limits: &MakerLimits) -> bool
    ensures { result ≡ are_limits limits.now }
{
    is_from(1, LONGEST_RPI_US, limits.least_rpi)
        && are_few_places(limits.places)
        && are_node_limits(limits.node_connections)
        && is_from(2, FARTHEST_NUMBER, limits.newer)
}

/// Whether a class is none of those of other objects, and a class of the maker's own can have it.
pub fn is_free_class(class: u32) -> bool
    ensures { result ≡ is_free_class class }
{
    match class {
        0x01 | 0x02 | 0x04 | 0x06 | 0xF5 | 0xF6 => false,
        _ => 1 <= class && class <= LARGEST_CLASS,
    }
}

fn has_class(classes: &[u32], class: u32) -> bool
    ensures { result ≡ list_any (is_class class) classes.now }
{
    classes.iter().any(|other| *other == class)
}

fn are_own_classes(classes: &[u32]) -> bool
    ensures { result ≡ are_own_classes classes.now }
{
    match classes {
        [] => true,
        [class, rest @ ..] => {
            is_free_class(*class) && !has_class(rest, *class) && are_own_classes(rest)
        }
    }
}

fn are_objects(classes: &[u32]) -> bool
    ensures { result ≡ are_objects classes.now }
{
    classes.len() <= MOST_OWN_CLASSES && are_own_classes(classes)
}

/// The first fault of a profile.
#[tactic(auto, unfolding(crate::specs::Profiles::profile_fault))]
fn fault_of(profile: &Profile) -> Option<ProfileFault>
    ensures { result ≡ profile_fault profile.now }
{
    if !are_ids(profile.incarnation, profile.ids) {
        return Some(ProfileFault::Incarnation);
    }
    if !is_address(profile.node, profile.mask) {
        return Some(ProfileFault::Address);
    }
    if !are_few(profile) {
        return Some(ProfileFault::Points);
    }
    if !outputs_differ(profile.outputs.as_slice(), profile) {
        return Some(ProfileFault::SameInstance);
    }
    if !are_long_enough(profile) {
        return Some(ProfileFault::Length);
    }
    if !is_revision(&profile.identity) {
        return Some(ProfileFault::Identity);
    }
    if !fits_description(profile) {
        return Some(ProfileFault::Description);
    }
    if !are_limits(&profile.limits) {
        return Some(ProfileFault::Limits);
    }
    if !are_objects(profile.objects.as_slice()) {
        return Some(ProfileFault::Objects);
    }
    None
}

impl Profile {
    /// Whether no point has the instance 0, by which tools ask the class of Assembly itself.
    pub fn leaves_class(&self) -> bool
        ensures { result ≡ leaves_class self.now }
    {
        !has_point(self.outputs.as_slice(), self, 0)
    }

    /// Checks the profile: its incarnation and its ids, its address, how many points it has, that their instances
    /// differ, their lengths, its revision, its description, the limits that its maker states, and the classes of the
    /// maker's own objects, in this order. Takes no memory.
    ///
    /// Answers the first fault.
    pub fn check(&self) -> Result<(), ProfileFault>
        ensures ok { IsOk result ↔ (profile_fault self.now ≡ None) }
        ensures fault { IfErr result (λ f. profile_fault self.now ≡ Some f) }
    {
        match fault_of(self) {
            Some(fault) => Err(fault),
            None => Ok(()),
        }
    }
}
