//! The first defect of the limits that an adapter's maker states.

ghost use Rattle.std.specs.Prelude.{◌^◌, option_map, IfSome};
ghost use Rattle.std.specs.List.{list_all};
ghost use Rattle.cip_events.specs.declared.profile_fault.ProfileFault.TheVariants as fault;
ghost use Rattle.adapter_table.specs.Profiles.{is_from, are_limits};
ghost use Rattle.trace_lines.specs.declared.limit_lines.LimitLine.TheVariants as limit;
ghost use Rattle.trace_lines.specs.Limits.{is_good, stated_line};
ghost use Rattle.trace_faults.specs.ProfileFaults.Defects.{Explains};
ghost use Rattle.trace_faults.specs.ProfileFaults.Named.{IsOfSlot, NamesLimitWord, NamesWord};

use crate::profile_faults::defects::{Defect, LineName, ProfileReason};
use adapter_table::Profile;
use trace_lines::{LIMITS, LimitLine, LimitName, bad_number, stated_line};

/// What is wrong with a limit, if one is stated.
pub(crate) fn limit_reason(profile: &Profile) -> Option<ProfileReason>
    ensures fault { Explains result (are_limits profile.now.limits) fault.Limits }
    ensures named { IfSome result (NamesWord profile.now) }
{
    rows_reason(profile, &LIMITS)
}

/// What is wrong with one of these limits.
#[tactic(auto, using(crate::proofs::Named::named_limit))]
fn rows_reason(profile: &Profile, rows: &[LimitName]) -> Option<ProfileReason>
    ensures fault { Explains result
        (list_all (λ row. is_good (stated_line profile.now.limits row)) rows.now) fault.Limits }
    ensures named { IfSome result (NamesWord profile.now) }
{
    for row in rows {
        if let Some(reason) = line_reason(*row, stated_line(&profile.limits, *row)) {
            return Some(reason);
        }
    }
    None
}

/// The first number of the line of a limit that is out of its range.
#[tactic(auto, using(trace_lines::specs::LimitLemmas::bad_named))]
fn line_reason(limit: LimitName, line: Option<LimitLine>) -> Option<ProfileReason>
    ensures fault { Explains result (is_good line) fault.Limits }
    ensures named { IfSome result (NamesLimitWord limit line) }
    ensures slot { IfSome result (λ found. IsOfSlot found.place.index found.defect) }
{
    let bad = bad_number(line?)?;
    let word = bad.number.range().word;
    Some(ProfileReason::at(LineName::Limit(limit), 0, word, Defect::Limit(bad)))
}

/// A limit of sequence numbers that is out of its range.
#[tactic(auto, using(trace_lines::specs::LimitLemmas::newer_good))]
pub(crate) fn newer_reason(newer: Option<u32>) -> Option<ProfileReason>
    ensures fault { Explains result (is_from 2 (2 ^ 31) newer) fault.Limits }
    ensures named { IfSome result (NamesLimitWord LimitName.Newer (option_map limit.Newer newer)) }
    ensures slot { IfSome result (λ found. IsOfSlot found.place.index found.defect) }
{
    line_reason(LimitName::Newer, newer.map(LimitLine::Newer))
}
