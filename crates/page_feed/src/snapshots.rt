//! Snapshots of a device, as JSON.

ghost use Rattle.std.specs.Prelude.{◌≡◌, ◌++◌, OnOk, string_bytes};
ghost use Rattle.cip_tables.specs.States.{totals_of};
ghost use Rattle.page_feed.specs.Snapshots.{adapter_text, address_of, address_text, all_inputs, all_outputs, array_text, connection_at_text, connections_below, connections_text, device_text, front_text, own_mode_text, parts_text, placed_slot, run_text, scanner_text, separator, slot_at_text, slots_text, totals_text};

use crate::connections::push_listed;
use crate::facts::{StationFacts, push_counts, push_moment};
use crate::points::{output_at, push_inputs, push_outputs, push_slot, slots_in};
use crate::rows::row_at;
use crate::waits::SlotFacts;
use adapter_table::{InputPoint, OutputPoint};
use cip_tables::{Config, Device, DeviceTable, DeviceTotals};
use cip_types::{Node, OutOfMemory};
use scanner_table::SlotConfig;
use station_lines::{CountedConnection, wait_at};
use trace_words::{push_node, push_text};

/// An adapter has at most so many connections.
const MOST_PLACES: u32 = 64;

/// Appends what a device of a configuration is at a moment, and what was noted of its connections or slots, in their order, without
/// the beginning and the end of the object.
pub fn push_device<D: Device>(
    out: &mut String,
    config: &Config,
    device: &D,
    facts: StationFacts,
    rows: &[CountedConnection],
) -> Result<(), OutOfMemory>
    ensures { OnOk result (string_bytes out.new ≡ string_bytes out.old
        ++ device_text config.now (D.table device.now) facts rows.now) }
{
    push_front(out, config, facts)?;
    push_parts(out, config, device, facts.ms, rows)?;
    push_totals(out, device)?;
    push_counts(out, facts)?;
    Ok(())
}

/// Appends the moment, and the address of the device.
fn push_front(out: &mut String, config: &Config, facts: StationFacts) -> Result<(), OutOfMemory>
    ensures { OnOk result (string_bytes out.new ≡ string_bytes out.old ++ front_text config.now facts) }
{
    push_moment(out, facts)?;
    push_address(out, address_of(config))
}

/// The address of a device.
fn address_of(config: &Config) -> Node
    ensures { result ≡ address_of config.now }
{
    match config {
        Config::Adapter(adapter) => adapter.node,
        Config::Scanner(scanner) => scanner.node,
    }
}

fn push_address(out: &mut String, node: Node) -> Result<(), OutOfMemory>
    ensures { OnOk result (string_bytes out.new ≡ string_bytes out.old ++ address_text node) }
{
    push_text(out, ",\"node\":\"")?;
    push_node(out, node)?;
    push_text(out, "\"")?;
    Ok(())
}

/// Appends the points and connections of an adapter, or the slots of a scanner.
fn push_parts<D: Device>(
    out: &mut String,
    config: &Config,
    device: &D,
    now_ms: u64,
    rows: &[CountedConnection],
) -> Result<(), OutOfMemory>
    ensures { OnOk result (string_bytes out.new ≡ string_bytes out.old
        ++ parts_text config.now now_ms rows.now (D.table device.now)) }
{
    match config {
        Config::Adapter(profile) => push_adapter(
            out,
            profile.outputs.as_slice(),
            profile.inputs.as_slice(),
            device,
            now_ms,
            rows,
        ),
        Config::Scanner(profile) => {
            push_scanner(out, profile.slots.as_slice(), device, now_ms, rows)
        }
    }
}

/// Appends the points and connections of an adapter.
fn push_adapter<D: Device>(
    out: &mut String,
    outputs: &[OutputPoint],
    inputs: &[InputPoint],
    device: &D,
    now_ms: u64,
    rows: &[CountedConnection],
) -> Result<(), OutOfMemory>
    ensures { OnOk result (string_bytes out.new ≡ string_bytes out.old
        ++ adapter_text outputs.now inputs.now now_ms rows.now (D.table device.now)) }
{
    push_all_outputs(out, outputs, device)?;
    push_all_inputs(out, inputs, device)?;
    push_connections(out, device, now_ms, rows, MOST_PLACES)?;
    Ok(())
}

/// Appends the outputs of an adapter, as an array.
fn push_all_outputs<D: Device>(
    out: &mut String,
    outputs: &[OutputPoint],
    device: &D,
) -> Result<(), OutOfMemory>
    ensures { OnOk result (string_bytes out.new ≡ string_bytes out.old
        ++ all_outputs outputs.now (D.table device.now)) }
{
    push_text(out, ",\"outputs\":[")?;
    push_outputs(out, device, outputs)?;
    push_text(out, "],\"inputs\":[")?;
    Ok(())
}

/// Appends the inputs of an adapter, and the end of their array.
fn push_all_inputs<D: Device>(
    out: &mut String,
    inputs: &[InputPoint],
    device: &D,
) -> Result<(), OutOfMemory>
    ensures { OnOk result (string_bytes out.new ≡ string_bytes out.old
        ++ all_inputs inputs.now (D.table device.now)) }
{
    push_inputs(out, device, inputs)?;
    push_text(out, "],\"connections\":[")
}

/// Appends the connections of an adapter, in the order of their openings, at so many places.
fn push_connections<D: Device>(
    out: &mut String,
    device: &D,
    now_ms: u64,
    rows: &[CountedConnection],
    most: u32,
) -> Result<(), OutOfMemory>
    ensures { OnOk result (string_bytes out.new ≡ string_bytes out.old
        ++ connections_text now_ms rows.now (D.table device.now) most) }
{
    push_places(out, device, now_ms, rows, most)?;
    push_text(out, "]")?;
    Ok(())
}

/// Appends the connections at so many places.
fn push_places<D: Device>(
    out: &mut String,
    device: &D,
    now_ms: u64,
    rows: &[CountedConnection],
    most: u32,
) -> Result<(), OutOfMemory>
    ensures { OnOk result (string_bytes out.new ≡ string_bytes out.old
        ++ connections_below now_ms rows.now (D.table device.now) most) }
{
    for place in 0..most {
        push_connection_at(out, device, now_ms, rows, place)?;
    }
    Ok(())
}

/// Appends the connection at a place, if there is one, behind those before.
fn push_connection_at<D: Device>(
    out: &mut String,
    device: &D,
    now_ms: u64,
    rows: &[CountedConnection],
    place: u32,
) -> Result<(), OutOfMemory>
    ensures { OnOk result (string_bytes out.new ≡ string_bytes out.old
        ++ connection_at_text now_ms rows.now (D.table device.now) place) }
{
    let Some(report) = device.connection(place) else {
        return Ok(());
    };
    push_text(out, separator(place))?;
    push_listed(out, report, now_ms, row_at(rows, place))
}

/// What stands before the one at a place.
fn separator(place: u32) -> &'static str
    ensures { result.now ≡ separator place }
{
    if place == 0 { "" } else { "," }
}

/// Appends the mode of a scanner and its slots. Mode, outputs and waits are those of a copy of its table, since a device reads out
/// images alone.
fn push_scanner<D: Device>(
    out: &mut String,
    configs: &[SlotConfig],
    device: &D,
    now_ms: u64,
    rows: &[CountedConnection],
) -> Result<(), OutOfMemory>
    ensures { OnOk result (string_bytes out.new ≡ string_bytes out.old
        ++ scanner_text configs.now now_ms rows.now (D.table device.now)) }
{
    let copy = device.copy()?;
    push_own_mode(out, copy.table())?;
    push_array(out, configs, copy.table(), device, now_ms, rows)
}

/// Appends the mode of a scanner.
fn push_own_mode(out: &mut String, table: &DeviceTable) -> Result<(), OutOfMemory>
    ensures { OnOk result (string_bytes out.new ≡ string_bytes out.old ++ own_mode_text table.now) }
{
    match table {
        DeviceTable::Scanner(table) => push_text(out, run_text(table.run)),
        DeviceTable::Adapter(_) => Ok(()),
    }
}

/// Whether a scanner's application runs.
fn run_text(is: bool) -> &'static str
    ensures { result.now ≡ run_text is }
{
    if is {
        ",\"mode\":\"run\""
    } else {
        ",\"mode\":\"idle\""
    }
}

/// Appends the slots of a scanner, as an array.
fn push_array<D: Device>(
    out: &mut String,
    configs: &[SlotConfig],
    copy: &DeviceTable,
    device: &D,
    now_ms: u64,
    rows: &[CountedConnection],
) -> Result<(), OutOfMemory>
    ensures { OnOk result (string_bytes out.new ≡ string_bytes out.old
        ++ array_text configs.now now_ms rows.now copy.now (D.table device.now)) }
{
    push_text(out, ",\"slots\":[")?;
    push_slots(out, configs, copy, device, now_ms, rows)?;
    push_text(out, "]")
}

/// Appends each slot.
fn push_slots<D: Device>(
    out: &mut String,
    configs: &[SlotConfig],
    copy: &DeviceTable,
    device: &D,
    now_ms: u64,
    rows: &[CountedConnection],
) -> Result<(), OutOfMemory>
    ensures { OnOk result (string_bytes out.new ≡ string_bytes out.old
        ++ slots_text configs.now now_ms rows.now copy.now (D.table device.now)) }
{
    let count = u32::try_from(configs.len()).unwrap_or(u32::MAX);
    for number in 0..count {
        push_slot_at(out, configs, copy, device, now_ms, rows, number)?;
    }
    Ok(())
}

/// Appends the slot of a number, behind those before.
fn push_slot_at<D: Device>(
    out: &mut String,
    configs: &[SlotConfig],
    copy: &DeviceTable,
    device: &D,
    now_ms: u64,
    rows: &[CountedConnection],
    number: u32,
) -> Result<(), OutOfMemory>
    ensures { OnOk result (string_bytes out.new ≡ string_bytes out.old
        ++ slot_at_text configs.now now_ms rows.now copy.now (D.table device.now) number) }
{
    let Some(slot) = configs.get(number as usize) else {
        return Ok(());
    };
    let output = output_at(slots_in(copy), number);
    let facts = SlotFacts {
        target: slot.target,
        wait: wait_at(copy, number, slot.target),
        row: row_at(rows, number),
        now_ms,
    };
    push_placed_slot(out, device, number, slot, output, facts)
}

/// Appends a slot behind those before.
fn push_placed_slot<D: Device>(
    out: &mut String,
    device: &D,
    number: u32,
    config: &SlotConfig,
    output: &[u8],
    facts: SlotFacts,
) -> Result<(), OutOfMemory>
    ensures { OnOk result (string_bytes out.new ≡ string_bytes out.old
        ++ placed_slot (D.table device.now) number config.now output.now facts) }
{
    push_text(out, separator(number))?;
    push_slot(out, device, number, config, output, facts)
}

/// Appends how much of a device is in use.
fn push_totals<D: Device>(out: &mut String, device: &D) -> Result<(), OutOfMemory>
    ensures { OnOk result (string_bytes out.new ≡ string_bytes out.old
        ++ totals_text (totals_of (D.table device.now))) }
{
    push_device_totals(out, device.totals())
}

/// Appends totals.
fn push_device_totals(out: &mut String, totals: DeviceTotals) -> Result<(), OutOfMemory>
    ensures { OnOk result (string_bytes out.new ≡ string_bytes out.old ++ totals_text totals) }
{
    let (streams, sessions) = (totals.streams, totals.sessions);
    let (connections, class3_connections) = (totals.connections, totals.class3_connections);
    write!(
        out,
        ",\"totals\":{{\"streams\":{streams},\"sessions\":{sessions},\"connections\":{connections}"
    )?;
    let ids_left = totals.ids_left;
    write!(
        out,
        ",\"class_3\":{class3_connections},\"ids_left\":{ids_left}}}"
    )?;
    Ok(())
}
