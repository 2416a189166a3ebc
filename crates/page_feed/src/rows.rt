//! What a station has counted and noted of a connection or a slot, beside its device's table.

ghost use Rattle.std.specs.Prelude.{◌≡◌, ◌++◌, OnOk, slice_get, string_bytes};
ghost use Rattle.station_lines.specs.Watch.DatagramCounts.Gaps.{last_minute};
ghost use Rattle.page_feed.specs.Rows.{arrived_text, counted_text, gaps_text, last_text, minute_text, missed_text, note_text, noted_text, row_text, sums_text, traffic_text};

use cip_types::OutOfMemory;
use station_lines::{CountedConnection, DatagramCounts, GapMeter, GapSums, StateNote};
use trace_words::push_text;

/// What is known of the connection or slot at a place.
pub fn row_at(rows: &[CountedConnection], place: u32) -> Option<CountedConnection>
    ensures { result ≡ slice_get rows.now place }
{
    match rows.get(place as usize) {
        Some(row) => Some(*row),
        None => None,
    }
}

/// Appends what was counted of a connection until this time, if it is known.
pub fn push_row(
    out: &mut String,
    now_ms: u64,
    row: Option<CountedConnection>,
) -> Result<(), OutOfMemory>
    ensures { OnOk result (string_bytes out.new ≡ string_bytes out.old ++ row_text now_ms row) }
{
    match row {
        Some(row) => push_noted(out, now_ms, &row),
        None => Ok(()),
    }
}

/// Appends what was noted and counted of a connection or slot.
fn push_noted(out: &mut String, now_ms: u64, row: &CountedConnection) -> Result<(), OutOfMemory>
    ensures { OnOk result (string_bytes out.new ≡ string_bytes out.old ++ noted_text now_ms row.now) }
{
    push_note(out, row.note)?;
    push_counted(out, now_ms, row)
}

/// Appends since when a connection or slot has its state, and how often it timed out.
fn push_note(out: &mut String, note: StateNote) -> Result<(), OutOfMemory>
    ensures { OnOk result (string_bytes out.new ≡ string_bytes out.old ++ note_text note) }
{
    let (since, time_outs) = (note.since_ms, note.time_outs);
    write!(out, ",\"since_ms\":{since},\"time_outs\":{time_outs}")?;
    push_last(out, note.last_time_out_ms)
}

/// Appends when a connection or slot timed out last, if it has.
fn push_last(out: &mut String, last: Option<u64>) -> Result<(), OutOfMemory>
    ensures { OnOk result (string_bytes out.new ≡ string_bytes out.old ++ last_text last) }
{
    let Some(ms) = last else {
        return Ok(());
    };
    write!(out, ",\"last_time_out_ms\":{ms}")?;
    Ok(())
}

/// Appends what was counted of the datagrams of a connection, and the gaps between them.
fn push_counted(out: &mut String, now_ms: u64, row: &CountedConnection) -> Result<(), OutOfMemory>
    ensures { OnOk result (string_bytes out.new ≡ string_bytes out.old ++ counted_text now_ms row.now) }
{
    push_traffic(out, row.counts)?;
    push_gaps(out, now_ms, row.gaps)
}

/// Appends counts of datagrams.
fn push_traffic(out: &mut String, counts: DatagramCounts) -> Result<(), OutOfMemory>
    ensures { OnOk result (string_bytes out.new ≡ string_bytes out.old ++ traffic_text counts) }
{
    push_arrived(out, counts)?;
    push_missed(out, counts)
}

/// Appends counts of the datagrams that arrived in their size.
fn push_arrived(out: &mut String, counts: DatagramCounts) -> Result<(), OutOfMemory>
    ensures { OnOk result (string_bytes out.new ≡ string_bytes out.old ++ arrived_text counts) }
{
    let (received, applied) = (counts.received, counts.applied);
    let (duplicate, old) = (counts.duplicate, counts.old);
    write!(
        out,
        ",\"received\":{received},\"applied\":{applied},\"duplicate\":{duplicate},\"old\":{old}"
    )?;
    Ok(())
}

/// Appends counts of the datagrams that did not arrive, or in a wrong size, and of those that were sent.
fn push_missed(out: &mut String, counts: DatagramCounts) -> Result<(), OutOfMemory>
    ensures { OnOk result (string_bytes out.new ≡ string_bytes out.old ++ missed_text counts) }
{
    let (lost, wrong_size, sent) = (counts.lost, counts.wrong_size, counts.sent);
    write!(
        out,
        ",\"lost\":{lost},\"wrong_size\":{wrong_size},\"sent\":{sent}"
    )?;
    Ok(())
}

/// Appends the gaps of a meter: all of them, and those of the last minute.
fn push_gaps(out: &mut String, now_ms: u64, gaps: GapMeter) -> Result<(), OutOfMemory>
    ensures { OnOk result (string_bytes out.new ≡ string_bytes out.old ++ gaps_text now_ms gaps) }
{
    push_text(out, ",\"gaps\":{")?;
    push_sums(out, gaps.whole)?;
    push_minute_of(out, now_ms, gaps)?;
    Ok(())
}

/// Appends the gaps of the last minute of a meter, and the end of the gaps.
fn push_minute_of(out: &mut String, now_ms: u64, gaps: GapMeter) -> Result<(), OutOfMemory>
    ensures { OnOk result (string_bytes out.new ≡ string_bytes out.old ++ minute_text (last_minute now_ms gaps)) }
{
    push_minute(out, gaps.last_minute(now_ms))
}

/// Appends the gaps of the last minute, and the end of the gaps.
fn push_minute(out: &mut String, sums: GapSums) -> Result<(), OutOfMemory>
    ensures { OnOk result (string_bytes out.new ≡ string_bytes out.old ++ minute_text sums) }
{
    push_text(out, ",\"minute\":{")?;
    push_sums(out, sums)?;
    push_text(out, "}}")?;
    Ok(())
}

/// Appends how many gaps there were, their sum, the sum of the steps from each to the next, and the longest one.
fn push_sums(out: &mut String, sums: GapSums) -> Result<(), OutOfMemory>
    ensures { OnOk result (string_bytes out.new ≡ string_bytes out.old ++ sums_text sums) }
{
    let (count, sum) = (sums.count, sums.sum_ms);
    let (moved, greatest) = (sums.moved_ms, sums.greatest_ms);
    write!(
        out,
        "\"count\":{count},\"sum_ms\":{sum},\"moved_ms\":{moved},\"greatest_ms\":{greatest}"
    )?;
    Ok(())
}
