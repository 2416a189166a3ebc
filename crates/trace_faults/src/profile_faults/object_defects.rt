//! The first defect of the classes of an adapter maker's own objects.

ghost use Rattle.std.specs.Prelude.{◌≡◌, ◌<◌, ◌&&◌, not, length, decimal, option_map, IfSome};
ghost use Rattle.std.specs.List.{list_any};
ghost use Rattle.cip_events.specs.declared.profile_fault.ProfileFault.TheVariants as fault;
ghost use Rattle.adapter_table.specs.Profiles.{is_class, is_free_class, are_own_classes, are_objects};
ghost use Rattle.trace_lines.specs.WrittenProfiles.{object_words};
ghost use Rattle.trace_faults.specs.ProfileFaults.Defects.{Explains, IsDefectOf};
ghost use Rattle.trace_faults.specs.ProfileFaults.Named.{IsWordOf, NamesClass, NamesItemWord, NamesWord};

use crate::profile_faults::defects::{Defect, LineName, ProfileReason};
use adapter_table::{MOST_OWN_CLASSES, Profile, is_free_class};

/// What is wrong with a class of the maker's own objects.
#[tactic(auto, using(crate::proofs::Named::named_object))]
pub(crate) fn object_reason(profile: &Profile) -> Option<ProfileReason>
    ensures fault { Explains result (are_objects profile.now.objects) fault.Objects }
    ensures named { IfSome result (NamesWord profile.now) }
{
    class_reason(profile.objects.as_slice())
}

/// A class that is one too many; else the first that is none for an own object, or that a later line names too.
fn class_reason(classes: &[u32]) -> Option<ProfileReason>
    ensures fault { Explains result (are_objects classes.now) fault.Objects }
    ensures named { IfSome result (NamesItemWord LineName.Object object_words classes.now) }
{
    if let Some(class) = classes.get(MOST_OWN_CLASSES) {
        let defect = Defect::ExtraClass(*class);
        return Some(ProfileReason::at(LineName::Object, MOST_OWN_CLASSES, 2, defect));
    }
    let (index, defect) = bad_class(classes)?;
    Some(ProfileReason::at(LineName::Object, index, 2, defect))
}

/// The index of the first bad class, and what is wrong with it.
fn bad_class(classes: &[u32]) -> Option<(usize, Defect)>
    ensures fault { IsDefectOf (option_map (λ found. found.1) result) (are_own_classes classes.now) fault.Objects }
    ensures named { IfSome result
        (λ found. (found.0 < length classes.now) × NamesClass classes.now found.0 found.1) }
{
    match classes {
        [] => None,
        [class, rest @ ..] => {
            if let Some(defect) = class_defect(*class, rest) {
                return Some((0, defect));
            }
            let (index, defect) = bad_class(rest)?;
            Some((index + 1, defect))
        }
    }
}

/// What is wrong with a class, before these others.
fn class_defect(class: u32, others: &[u32]) -> Option<Defect>
    ensures fault { IsDefectOf result
        (is_free_class class && not (list_any (is_class class) others.now)) fault.Objects }
    ensures named { IfSome result (λ found. IsWordOf found (decimal class)) }
{
    if !is_free_class(class) {
        return Some(Defect::OtherClass(class));
    }
    if has_class(others, class) {
        return Some(Defect::SameClass(class));
    }
    None
}

/// Whether one of these classes is this one.
fn has_class(classes: &[u32], class: u32) -> bool
    ensures { result ≡ list_any (is_class class) classes.now }
{
    classes.iter().any(|other| *other == class)
}
