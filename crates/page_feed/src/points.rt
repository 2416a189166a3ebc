//! Points in a snapshot: the outputs and inputs of an adapter, the images and outputs of a scanner's slots.

ghost use Rattle.std.specs.Prelude.{◌≡◌, ◌++◌, OnOk, string_bytes, flat_map, codes};
ghost use Rattle.cip_tables.specs.States.{slot_in};
ghost use Rattle.page_feed.specs.Points.{bytes_text, consumers_text, input_text, inputs_text, output_at, output_text, outputs_text, slot_end, slot_front, slot_head, slot_image, slot_output, slot_state, slot_terms, slot_text, slots_in};

use crate::connections::{push_owner, push_state};
use crate::rows::push_row;
use crate::waits::{SlotFacts, push_wait};
use adapter_table::{ConsumerCounts, InputPoint, OutputPoint};
use cip_tables::{Device, DeviceTable};
use cip_types::{Node, OutOfMemory};
use scanner_table::{Slot, SlotConfig, SlotReport};
use trace_lines::kind_name;
use trace_words::{push_bytes, push_node, push_text};

/// Appends the bytes that a device has at a point; a dash for none.
fn push_point_bytes<D: Device>(out: &mut String, device: &D, point: u32) -> Result<(), OutOfMemory>
    ensures { OnOk result (string_bytes out.new ≡ string_bytes out.old ++ bytes_text (D.table device.now) point) }
{
    match device.read_point(point) {
        Ok(bytes) => push_bytes(out, bytes),
        Err(_) => push_text(out, "-"),
    }
}

/// Appends an output: its number, its bytes, its owner.
pub fn push_output<D: Device>(
    out: &mut String,
    device: &D,
    output: &OutputPoint,
) -> Result<(), OutOfMemory>
    ensures { OnOk result (string_bytes out.new ≡ string_bytes out.old ++ output_text (D.table device.now) output.now) }
{
    let point = output.instance;
    write!(out, "{{\"point\":{point},\"bytes\":\"")?;
    push_point_bytes(out, device, point)?;
    push_text(out, "\",\"owner\":")?;
    push_owner(out, device.owner(point))?;
    push_text(out, "}")
}

/// Appends the outputs of an adapter.
pub fn push_outputs<D: Device>(
    out: &mut String,
    device: &D,
    outputs: &[OutputPoint],
) -> Result<(), OutOfMemory>
    ensures { OnOk result (string_bytes out.new ≡ string_bytes out.old
        ++ outputs_text (D.table device.now) outputs.now) }
{
    let [first, others @ ..] = outputs else {
        return Ok(());
    };
    push_output(out, device, first)?;
    push_more_outputs(out, device, others)
}

/// Appends outputs behind others.
fn push_more_outputs<D: Device>(
    out: &mut String,
    device: &D,
    outputs: &[OutputPoint],
) -> Result<(), OutOfMemory>
    ensures { OnOk result (string_bytes out.new ≡ string_bytes out.old
        ++ flat_map (λ other. codes "," ++ output_text (D.table device.now) other) outputs.now) }
{
    for output in outputs {
        push_text(out, ",")?;
        push_output(out, device, output)?;
    }
    Ok(())
}

/// Appends an input: its number, its bytes, how many connections consume it.
pub fn push_input<D: Device>(
    out: &mut String,
    device: &D,
    input: &InputPoint,
) -> Result<(), OutOfMemory>
    ensures { OnOk result (string_bytes out.new ≡ string_bytes out.old ++ input_text (D.table device.now) input.now) }
{
    let point = input.instance;
    write!(out, "{{\"point\":{point},\"bytes\":\"")?;
    push_point_bytes(out, device, point)?;
    push_consumers(out, device.consumers(point))
}

fn push_consumers(out: &mut String, counts: ConsumerCounts) -> Result<(), OutOfMemory>
    ensures { OnOk result (string_bytes out.new ≡ string_bytes out.old ++ consumers_text counts) }
{
    let (owners, inputs, listeners) = (
        counts.exclusive_owners,
        counts.input_only,
        counts.listen_only,
    );
    write!(
        out,
        "\",\"exclusive_owners\":{owners},\"input_only\":{inputs},\"listen_only\":{listeners}}}"
    )?;
    Ok(())
}

/// Appends the inputs of an adapter.
pub fn push_inputs<D: Device>(
    out: &mut String,
    device: &D,
    inputs: &[InputPoint],
) -> Result<(), OutOfMemory>
    ensures { OnOk result (string_bytes out.new ≡ string_bytes out.old ++ inputs_text (D.table device.now) inputs.now) }
{
    let [first, others @ ..] = inputs else {
        return Ok(());
    };
    push_input(out, device, first)?;
    push_more_inputs(out, device, others)
}

/// Appends inputs behind others.
fn push_more_inputs<D: Device>(
    out: &mut String,
    device: &D,
    inputs: &[InputPoint],
) -> Result<(), OutOfMemory>
    ensures { OnOk result (string_bytes out.new ≡ string_bytes out.old
        ++ flat_map (λ other. codes "," ++ input_text (D.table device.now) other) inputs.now) }
{
    for input in inputs {
        push_text(out, ",")?;
        push_input(out, device, input)?;
    }
    Ok(())
}

/// The slots of a scanner's table. An adapter has none.
pub fn slots_in(table: &DeviceTable) -> &[Slot]
    ensures { result.now ≡ slots_in table.now }
{
    match table {
        DeviceTable::Scanner(table) => table.slots.as_slice(),
        DeviceTable::Adapter(_) => &[],
    }
}

/// The bytes that the slot of a number sends: none, if there is no such slot or it sends no data.
pub fn output_at(slots: &[Slot], number: u32) -> &[u8]
    ensures { result.now ≡ output_at slots.now number }
{
    match slots.get(number as usize) {
        Some(slot) => slot.output.as_slice(),
        None => &[],
    }
}

/// Appends a slot: its number, its target, its kind and points, its image, its output, its state, what it waits for, and what was
/// noted of it.
pub fn push_slot<D: Device>(
    out: &mut String,
    device: &D,
    number: u32,
    config: &SlotConfig,
    output: &[u8],
    facts: SlotFacts,
) -> Result<(), OutOfMemory>
    ensures { OnOk result (string_bytes out.new ≡ string_bytes out.old
        ++ slot_text (D.table device.now) number config.now output.now facts) }
{
    push_slot_front(out, number, config)?;
    push_slot_image(out, device, number)?;
    push_slot_output(out, output)?;
    push_slot_end(out, device, number, facts)?;
    Ok(())
}

/// Appends the number of a slot, its target, its kind and points.
fn push_slot_front(out: &mut String, number: u32, config: &SlotConfig) -> Result<(), OutOfMemory>
    ensures { OnOk result (string_bytes out.new ≡ string_bytes out.old ++ slot_front number config.now) }
{
    push_slot_head(out, number, config.target)?;
    push_slot_terms(out, config)
}

/// Appends the kind and the points of a slot's connection.
fn push_slot_terms(out: &mut String, config: &SlotConfig) -> Result<(), OutOfMemory>
    ensures { OnOk result (string_bytes out.new ≡ string_bytes out.old ++ slot_terms config.now) }
{
    let kind = kind_name(config.kind);
    let (consumed, produced) = (config.consumed, config.produced);
    write!(
        out,
        "\",\"kind\":\"{kind}\",\"consumed\":{consumed},\"produced\":{produced}"
    )?;
    Ok(())
}

/// Appends the number of a slot and its target.
fn push_slot_head(out: &mut String, number: u32, target: Node) -> Result<(), OutOfMemory>
    ensures { OnOk result (string_bytes out.new ≡ string_bytes out.old ++ slot_head number target) }
{
    write!(out, "{{\"slot\":{number},\"target\":\"")?;
    push_node(out, target)
}

/// Appends the image of a slot.
fn push_slot_image<D: Device>(out: &mut String, device: &D, number: u32) -> Result<(), OutOfMemory>
    ensures { OnOk result (string_bytes out.new ≡ string_bytes out.old
        ++ slot_image (D.table device.now) number) }
{
    push_text(out, ",\"bytes\":\"")?;
    push_point_bytes(out, device, number)
}

/// Appends the output of a slot; a dash for none.
fn push_slot_output(out: &mut String, output: &[u8]) -> Result<(), OutOfMemory>
    ensures { OnOk result (string_bytes out.new ≡ string_bytes out.old ++ slot_output output.now) }
{
    push_text(out, "\",\"output\":\"")?;
    push_bytes(out, output)?;
    push_text(out, "\",\"state\":")?;
    Ok(())
}

/// Appends the state of a slot, what it waits for, what was noted of it, and the end of the object.
fn push_slot_end<D: Device>(
    out: &mut String,
    device: &D,
    number: u32,
    facts: SlotFacts,
) -> Result<(), OutOfMemory>
    ensures { OnOk result (string_bytes out.new ≡ string_bytes out.old
        ++ slot_end (slot_state (slot_in (D.table device.now) number)) facts) }
{
    push_ended_state(out, slot_state(device.slot(number)), facts)
}

/// A slot that is not there is idle.
fn slot_state(report: Option<SlotReport>) -> SlotReport
    ensures { result ≡ slot_state report }
{
    match report {
        Some(report) => report,
        None => SlotReport::Idle,
    }
}

/// Appends a state, what a slot waits for, what was noted of it, and the end of the object.
fn push_ended_state(
    out: &mut String,
    report: SlotReport,
    facts: SlotFacts,
) -> Result<(), OutOfMemory>
    ensures { OnOk result (string_bytes out.new ≡ string_bytes out.old ++ slot_end report facts) }
{
    push_state(out, report)?;
    push_wait(out, facts)?;
    push_row(out, facts.now_ms, facts.row)?;
    push_text(out, "}")?;
    Ok(())
}
