//! What a station knows beside the table of its device.

ghost use Rattle.std.specs.Prelude.{◌≡◌, ◌++◌, OnOk, string_bytes};
ghost use Rattle.page_feed.specs.Facts.{counts_text, moment_text};

use cip_types::OutOfMemory;

/// When its device took the last event, and what a station has counted of the datagrams until then.
#[derive(Clone, Copy, PartialEq, Eq)]
pub struct StationFacts {
    /// The number of the last event.
    pub number: u64,
    /// The milliseconds of all ticks.
    pub ms: u64,
    /// The datagrams that arrived.
    pub received: u64,
    /// The datagrams that the device produced.
    pub sent: u64,
    /// The datagrams whose data were applied.
    pub applied: u64,
    /// The sequence numbers that were skipped.
    pub lost: u64,
}

/// Appends the number of the last event, and its time. They are the first members of an object that another one opens.
pub fn push_moment(out: &mut String, facts: StationFacts) -> Result<(), OutOfMemory>
    ensures { OnOk result (string_bytes out.new ≡ string_bytes out.old ++ moment_text facts) }
{
    let (number, ms) = (facts.number, facts.ms);
    write!(out, "\"number\":{number},\"ms\":{ms}")?;
    Ok(())
}

/// Appends what was counted of a device's datagrams.
pub fn push_counts(out: &mut String, facts: StationFacts) -> Result<(), OutOfMemory>
    ensures { OnOk result (string_bytes out.new ≡ string_bytes out.old ++ counts_text facts) }
{
    let (received, sent) = (facts.received, facts.sent);
    let (applied, lost) = (facts.applied, facts.lost);
    write!(
        out,
        ",\"counts\":{{\"received\":{received},\"sent\":{sent},\"applied\":{applied},\"lost\":{lost}}}"
    )?;
    Ok(())
}
