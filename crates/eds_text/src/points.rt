//! The section of the assemblies.

ghost use Rattle.std.specs.Prelude.{◌≡◌, ◌≤◌, ◌^◌, ◌++◌, OnOk, string_bytes};
ghost use Rattle.eds_text.specs.Points.{config_text, head_text, inputs_text, member_text, members_text, outputs_text, point_head, point_text, points_text, word_parameter};

use crate::offer::words_of;
use adapter_table::{InputPoint, Profile};
use cip_types::OutOfMemory;
use trace_words::push_text;

/// Appends the section: outputs, inputs, configuration.
#[tactic(auto, unfolding(crate::specs::Points::points_text))]
pub fn push_points(out: &mut String, profile: &Profile) -> Result<(), OutOfMemory>
    ensures { OnOk result (string_bytes out.new ≡ string_bytes out.old ++ points_text profile.now) }
{
    push_head(out)?;
    push_outputs(out, profile)?;
    push_inputs(out, profile)?;
    push_config(
        out,
        words_of(&profile.description, profile.config),
        profile.config,
    )
}

/// Appends the head of the section.
#[tactic(auto, unfolding(crate::specs::Points::head_text))]
fn push_head(out: &mut String) -> Result<(), OutOfMemory>
    ensures { OnOk result (string_bytes out.new ≡ string_bytes out.old ++ head_text) }
{
    push_text(
        out,
        "
[Assembly]
        Object_Name = \"Assembly Object\";
        Object_Class_Code = 0x04;
",
    )
}

/// Appends the outputs.
#[tactic(auto, unfolding(crate::specs::Points::outputs_text))]
fn push_outputs(out: &mut String, profile: &Profile) -> Result<(), OutOfMemory>
    ensures { OnOk result (string_bytes out.new ≡ string_bytes out.old
        ++ outputs_text profile.now.outputs) }
{
    for output in profile.outputs.as_slice() {
        push_point(out, "Output", output.instance, output.len)?;
    }
    Ok(())
}

/// Appends the inputs.
#[tactic(auto, unfolding(crate::specs::Points::inputs_text))]
fn push_inputs(out: &mut String, profile: &Profile) -> Result<(), OutOfMemory>
    ensures { OnOk result (string_bytes out.new ≡ string_bytes out.old
        ++ inputs_text profile.now.inputs) }
{
    for input in profile.inputs.as_slice() {
        push_point(out, "Input", input.instance, input.len)?;
    }
    Ok(())
}

/// Appends the configuration, if there is one, with so many words.
#[tactic(auto, unfolding(crate::specs::Points::config_text))]
fn push_config(out: &mut String, words: u64, config: Option<InputPoint>) -> Result<(), OutOfMemory>
    requires { words ≤ 2 ^ 63 }
    ensures { OnOk result (string_bytes out.new ≡ string_bytes out.old ++ config_text words config) }
{
    match config {
        Some(config) => {
            push_point_head(out, "Configuration", config.instance, config.len)?;
            push_members(out, words)
        }
        None => Ok(()),
    }
}

/// The parameter of the word of this place: the first one is the packet interval.
pub fn word_parameter(place: u64) -> u64
    requires { place ≤ 2 ^ 63 }
    ensures { result ≡ word_parameter place }
{
    place + 2
}

/// Appends so many words as the members of an assembly; without one its one member is the whole point.
fn push_members(out: &mut String, count: u64) -> Result<(), OutOfMemory>
    requires { count ≤ 2 ^ 63 }
    ensures { OnOk result (string_bytes out.new ≡ string_bytes out.old ++ members_text 0 count) }
{
    if count == 0 {
        return push_text(out, "                ,;\n");
    }
    for place in 0..count - 1 {
        push_member(out, place, ",\n")?;
    }
    push_member(out, count - 1, ";\n")
}

/// Appends a member of 16 bits.
#[tactic(auto, unfolding(crate::specs::Points::member_text))]
fn push_member(out: &mut String, place: u64, behind: &str) -> Result<(), OutOfMemory>
    requires { place ≤ 2 ^ 63 }
    ensures { OnOk result (string_bytes out.new ≡ string_bytes out.old ++ member_text place behind.now) }
{
    let number = word_parameter(place);
    Ok(write!(out, "                16,Param{number}{behind}")?)
}

/// Appends a point of so many bytes, with its one member.
#[tactic(auto, unfolding(crate::specs::Points::point_text))]
fn push_point(out: &mut String, word: &str, instance: u32, len: u64) -> Result<(), OutOfMemory>
    ensures { OnOk result (string_bytes out.new ≡ string_bytes out.old ++ point_text word.now instance len) }
{
    push_point_head(out, word, instance, len)?;
    push_text(out, "                ,;\n")
}

/// Appends a point of so many bytes, before its members.
#[tactic(auto, unfolding(crate::specs::Points::point_head))]
fn push_point_head(out: &mut String, word: &str, instance: u32, len: u64) -> Result<(), OutOfMemory>
    ensures { OnOk result (string_bytes out.new ≡ string_bytes out.old ++ point_head word.now instance len) }
{
    Ok(write!(
        out,
        "        Assem{instance} =
                \"{word} {instance}\",
                ,
                {len},
                0x0000,
                ,,
"
    )?)
}
