//! Profiles as they are written.

ghost use Rattle.std.specs.Prelude.{◌≡◌, ◌++◌, OnOk, string_bytes, flat_map, codes, drop};
ghost use Rattle.trace_words.specs.Words.{line_text};
ghost use Rattle.trace_lines.specs.WrittenProfiles.{adapter_words, output_words, point_words, description_words, heartbeat_words, ids_text, ids_words, config_text, description_text, objects_text, profile_text};

use crate::limit_lines::push_limits;
use crate::names::action_name;
use adapter_table::{Description, InputPoint, OutputPoint, Profile};
use cip_types::{IdBlock, Node, OutOfMemory};
use trace_words::{push_bytes, push_node};

/// Appends the lines of an adapter's profile. If an allocation is refused, a part of them may be appended.
pub fn push_profile(out: &mut String, profile: &Profile) -> Result<(), OutOfMemory>
    ensures { OnOk result (string_bytes out.new ≡ string_bytes out.old ++ profile_text profile.now) }
{
    push_adapter(out, profile)?;
    push_outputs(out, profile.outputs.as_slice())?;
    push_inputs(out, profile.inputs.as_slice())?;
    push_config(out, profile.config)?;
    push_description(out, &profile.description)?;
    push_limits(out, &profile.limits)?;
    push_objects(out, profile.objects.as_slice())?;
    push_stated_ids(out, profile.ids)?;
    push_heartbeat(out, profile)?;
    Ok(())
}

fn push_adapter(out: &mut String, profile: &Profile) -> Result<(), OutOfMemory>
    ensures { OnOk result (string_bytes out.new ≡ string_bytes out.old ++ line_text (adapter_words profile.now)) }
{
    write!(out, "adapter {} ", profile.incarnation)?;
    push_node(out, profile.node)?;
    out.push_str(" ")?;
    push_node(out, Node(profile.mask))?;
    push_identity(out, profile)?;
    Ok(())
}

fn push_identity(out: &mut String, profile: &Profile) -> Result<(), OutOfMemory>
    ensures { OnOk result
        (string_bytes out.new ≡ string_bytes out.old ++ (codes " " ++ line_text (drop 4 (adapter_words profile.now)))) }
{
    let identity = profile.identity;
    write!(
        out,
        " {} {} {} {} {}\n",
        identity.vendor, identity.device_type, identity.product, identity.major, identity.minor
    )?;
    Ok(())
}

fn push_outputs(out: &mut String, outputs: &[OutputPoint]) -> Result<(), OutOfMemory>
    ensures { OnOk result
        (string_bytes out.new ≡ string_bytes out.old
        ++ flat_map (λ point. line_text (output_words point)) outputs.now) }
{
    for output in outputs {
        let idle = action_name(output.idle);
        let fault = action_name(output.fault);
        write!(
            out,
            "output {} {} {idle} {fault}\n",
            output.instance, output.len
        )?;
    }
    Ok(())
}

fn push_inputs(out: &mut String, inputs: &[InputPoint]) -> Result<(), OutOfMemory>
    ensures { OnOk result
        (string_bytes out.new ≡ string_bytes out.old
        ++ flat_map (λ point. line_text (point_words (codes "input") point)) inputs.now) }
{
    for input in inputs {
        push_point(out, "input", *input)?;
    }
    Ok(())
}

fn push_point(out: &mut String, keyword: &str, point: InputPoint) -> Result<(), OutOfMemory>
    ensures { OnOk result (string_bytes out.new ≡ string_bytes out.old ++ line_text (point_words keyword.now point)) }
{
    Ok(write!(out, "{keyword} {} {}\n", point.instance, point.len)?)
}

fn push_config(out: &mut String, config: Option<InputPoint>) -> Result<(), OutOfMemory>
    ensures { OnOk result (string_bytes out.new ≡ string_bytes out.old ++ config_text config) }
{
    match config {
        Some(config) => push_point(out, "config", config),
        None => Ok(()),
    }
}

fn push_description(out: &mut String, description: &Option<Description>) -> Result<(), OutOfMemory>
    ensures { OnOk result (string_bytes out.new ≡ string_bytes out.old ++ description_text description.now) }
{
    match description {
        Some(description) => push_described(out, description),
        None => Ok(()),
    }
}

fn push_described(out: &mut String, description: &Description) -> Result<(), OutOfMemory>
    ensures { OnOk result
        (string_bytes out.new ≡ string_bytes out.old ++ line_text (description_words description.now)) }
{
    write!(out, "describe {} ", description.serial)?;
    push_bytes(out, description.name.as_slice())?;
    write!(
        out,
        " {} {} {} ",
        description.port, description.speed, description.flags
    )?;
    push_bytes(out, description.mac.as_slice())?;
    write!(out, " {}\n", description.inactivity)?;
    Ok(())
}

fn push_objects(out: &mut String, classes: &[u32]) -> Result<(), OutOfMemory>
    ensures { OnOk result (string_bytes out.new ≡ string_bytes out.old ++ objects_text classes.now) }
{
    for class in classes {
        let class = *class;
        write!(out, "object {class}\n")?;
    }
    Ok(())
}

/// Appends the line of the block of a device's connection ids, if it is stated.
pub(crate) fn push_stated_ids(out: &mut String, ids: Option<IdBlock>) -> Result<(), OutOfMemory>
    ensures { OnOk result (string_bytes out.new ≡ string_bytes out.old ++ ids_text ids) }
{
    match ids {
        Some(block) => push_ids(out, block),
        None => Ok(()),
    }
}

/// Appends the line of a block of connection ids.
pub fn push_ids(out: &mut String, block: IdBlock) -> Result<(), OutOfMemory>
    ensures { OnOk result (string_bytes out.new ≡ string_bytes out.old ++ line_text (ids_words block)) }
{
    write!(out, "ids {} {}\n", block.first, block.count)?;
    Ok(())
}

fn push_heartbeat(out: &mut String, profile: &Profile) -> Result<(), OutOfMemory>
    ensures { OnOk result (string_bytes out.new ≡ string_bytes out.old ++ line_text (heartbeat_words profile.now)) }
{
    write!(
        out,
        "heartbeat {} {}\n",
        profile.input_only, profile.listen_only
    )?;
    Ok(())
}
