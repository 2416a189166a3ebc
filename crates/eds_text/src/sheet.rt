//! The whole data sheet.

ghost use Rattle.std.specs.Prelude.{◌≡◌, ◌≤◌, ◌^◌, ◌++◌, IfOk, OnOk, string_bytes};
ghost use Rattle.eds_text.specs.Names.{shown_names};
ghost use Rattle.eds_text.specs.Sheet.{capacity_text, datagrams_text, messages_text, params_text, sheet_text, word_text, words_text};
ghost use Rattle.eds_text.specs.Texts.{port_text};

use crate::classes::push_classes;
use crate::connections::connections_of;
use crate::device::{push_device, push_file};
use crate::manager::push_manager;
use crate::names::{SheetNames, sheet_names};
use crate::offer::{
    LONGEST_DATAGRAM, OfferedIntervals, SheetCapacity, capacity_of, offered_intervals, words_of,
};
use crate::points::{push_points, word_parameter};
use adapter_table::Profile;
use cip_types::OutOfMemory;
use std::alloc::Global;
use trace_words::push_text;

/// The data sheet of a profile. If no name of the product is given, that of the description is taken. `OutOfMemory` is the
/// only fault.
///
/// Volume 1, chapter 7, electronic data sheets.
#[tactic(auto, unfolding(crate::specs::Sheet::sheet_text))]
pub fn write_sheet(
    alloc: Global,
    names: &SheetNames<'_>,
    profile: &Profile,
) -> Result<String, OutOfMemory>
    ensures { IfOk result (λ text. string_bytes text ≡ sheet_text (shown_names names.now) profile.now) }
{
    let connections = connections_of(alloc, profile)?;
    let mut out = String::new(alloc);
    push_file(&mut out)?;
    let names = sheet_names(names, &profile.description);
    push_device(&mut out, &names, profile.identity)?;
    push_params(&mut out, offered_intervals(profile))?;
    push_words(&mut out, words_of(&profile.description, profile.config))?;
    push_points(&mut out, profile)?;
    push_manager(alloc, &mut out, profile.config, connections.as_slice())?;
    push_port(&mut out)?;
    push_classes(&mut out, profile)?;
    push_capacity(&mut out, capacity_of(profile))?;
    Ok(out)
}

/// Appends the section of the parameters, which has the requested packet interval.
#[tactic(auto, unfolding(crate::specs::Sheet::params_text))]
fn push_params(out: &mut String, intervals: OfferedIntervals) -> Result<(), OutOfMemory>
    ensures { OnOk result (string_bytes out.new ≡ string_bytes out.old ++ params_text intervals) }
{
    let (least, most, first) = (intervals.least, intervals.most, intervals.first);
    Ok(write!(
        out,
        "
[Params]
        Param1 =
                0,
                ,,
                0x0000,
                0xC8,
                4,
                \"RPI\",
                \"microsecond\",
                \"\",
                {least},{most},{first},
                ,,,,
                ,,,,
                ;
"
    )?)
}

/// Appends the words of a configuration as parameters, behind that of the packet interval: each is 0 at first, as at a fresh device.
fn push_words(out: &mut String, count: u64) -> Result<(), OutOfMemory>
    requires { count ≤ 2 ^ 63 }
    ensures { OnOk result (string_bytes out.new ≡ string_bytes out.old ++ words_text 0 count) }
{
    for place in 0..count {
        push_word(out, place)?;
    }
    Ok(())
}

/// Appends the word of this place of a configuration.
#[tactic(auto, unfolding(crate::specs::Sheet::word_text))]
fn push_word(out: &mut String, place: u64) -> Result<(), OutOfMemory>
    requires { place ≤ 2 ^ 63 }
    ensures { OnOk result (string_bytes out.new ≡ string_bytes out.old ++ word_text place) }
{
    let number = word_parameter(place);
    Ok(write!(
        out,
        "        Param{number} =
                0,
                ,,
                0x0000,
                0xC7,
                2,
                \"Configuration word {place}\",
                \"\",
                \"\",
                0,65535,0,
                ,,,,
                ,,,,
                ;
"
    )?)
}

/// Appends the section of the port.
#[tactic(auto, unfolding(crate::specs::Texts::port_text))]
fn push_port(out: &mut String) -> Result<(), OutOfMemory>
    ensures { OnOk result (string_bytes out.new ≡ string_bytes out.old ++ port_text) }
{
    push_text(
        out,
        "
[Port]
        Object_Name = \"Port Object\";
        Object_Class_Code = 0xF4;
        Port1 =
                TCP,
                \"EtherNet/IP port\",
                \"20 F5 24 01\",
                2;
",
    )
}

/// Appends the section of the capacity.
#[tactic(auto, unfolding(crate::specs::Sheet::capacity_text))]
fn push_capacity(out: &mut String, capacity: SheetCapacity) -> Result<(), OutOfMemory>
    ensures { OnOk result (string_bytes out.new ≡ string_bytes out.old ++ capacity_text capacity) }
{
    push_datagrams(out, capacity)?;
    push_messages(out, capacity.messages)
}

/// Appends how much the adapter takes of class 1.
#[tactic(auto, unfolding(crate::specs::Sheet::datagrams_text))]
fn push_datagrams(out: &mut String, capacity: SheetCapacity) -> Result<(), OutOfMemory>
    ensures { OnOk result (string_bytes out.new ≡ string_bytes out.old ++ datagrams_text capacity) }
{
    let (rate, connections, producers) = (capacity.rate, capacity.connections, capacity.producers);
    Ok(write!(
        out,
        "
[Capacity]
        TSpec1 = TxRx, {LONGEST_DATAGRAM}, {rate};
        MaxIOConnections = {connections};
        MaxIOMcastProducers = {producers};
        MaxConsumersPerMcast = {connections};
"
    )?)
}

/// Appends how many connections of class 3 the adapter takes.
#[tactic(auto, unfolding(crate::specs::Sheet::messages_text))]
fn push_messages(out: &mut String, messages: u64) -> Result<(), OutOfMemory>
    ensures { OnOk result (string_bytes out.new ≡ string_bytes out.old ++ messages_text messages) }
{
    Ok(write!(out, "        MaxMsgConnections = {messages};\n")?)
}
