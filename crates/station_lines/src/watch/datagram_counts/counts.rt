//! What is counted of the datagrams of one connection.

ghost use Rattle.std.specs.Prelude.{◌≡◌};
ghost use Rattle.cip_types.specs.Circle.{distance};
ghost use Rattle.station_lines.specs.Watch.DatagramCounts.Counts.{accepted_counts, applied_counts, counted, duplicate_counts, is_accepted, misfit_counts, missed, no_counts, old_counts, received_counts, sent_counts};

use cip_events::Delivery;

/// The datagrams of one connection, from its opening on. Each count ends at 2^64 - 1.
#[derive(Clone, Copy, PartialEq, Eq)]
pub struct DatagramCounts {
    /// Those that arrived: accepted ones, old ones, and those of a wrong size.
    pub received: u64,
    /// Those whose data were applied.
    pub applied: u64,
    /// Those that were accepted and had no new data: their sequence count repeats that of the one accepted before.
    pub duplicate: u64,
    /// Those whose sequence number is not newer than that of the one accepted last.
    pub old: u64,
    /// Those whose size is not the connection's.
    pub wrong_size: u64,
    /// The sequence numbers between accepted datagrams that were skipped.
    pub lost: u64,
    /// Those that the device produced for it.
    pub sent: u64,
    /// The sequence number of the datagram that was accepted last.
    pub newest: Option<u32>,
}

impl DatagramCounts {
    /// Nothing was counted.
    pub fn none() -> DatagramCounts
        ensures { result ≡ no_counts }
    {
        DatagramCounts {
            received: 0,
            applied: 0,
            duplicate: 0,
            old: 0,
            wrong_size: 0,
            lost: 0,
            sent: 0,
            newest: None,
        }
    }
}

/// The counts after a datagram with this sequence number, whose result is this.
///
/// Volume 2, chapter 2, sequenced address item.
pub fn counted(counts: DatagramCounts, delivery: Delivery, number: u32) -> DatagramCounts
    ensures { result ≡ counted counts delivery number }
{
    match delivery {
        Delivery::Applied => applied_counts(accepted_counts(counts, number)),
        Delivery::Idle => accepted_counts(counts, number),
        Delivery::Heartbeat => accepted_counts(counts, number),
        Delivery::Duplicate => duplicate_counts(accepted_counts(counts, number)),
        Delivery::Old => old_counts(received_counts(counts)),
        Delivery::WrongSize => misfit_counts(received_counts(counts)),
        Delivery::UnknownId => counts,
        Delivery::Malformed => counts,
    }
}

/// Whether a datagram with this result was accepted.
pub fn is_accepted(delivery: Delivery) -> bool
    ensures { result ≡ is_accepted delivery }
{
    match delivery {
        Delivery::Applied => true,
        Delivery::Idle => true,
        Delivery::Heartbeat => true,
        Delivery::Duplicate => true,
        _ => false,
    }
}

/// The sequence numbers that an accepted datagram skipped.
///
/// Volume 2, chapter 2, sequenced address item.
pub fn missed(newest: Option<u32>, number: u32) -> u64
    ensures { result ≡ missed newest number }
{
    match newest {
        Some(last) => u64::from(distance(number, last).saturating_sub(1)),
        None => 0,
    }
}

/// The distance from b up to a round the circle of sequence numbers.
fn distance(a: u32, b: u32) -> u32
    ensures { result ≡ distance a b }
{
    a.wrapping_sub(b)
}

fn received_counts(counts: DatagramCounts) -> DatagramCounts
    ensures { result ≡ received_counts counts }
{
    DatagramCounts {
        received: counts.received.saturating_add(1),
        ..counts
    }
}

fn accepted_counts(counts: DatagramCounts, number: u32) -> DatagramCounts
    ensures { result ≡ accepted_counts counts number }
{
    DatagramCounts {
        received: counts.received.saturating_add(1),
        lost: counts.lost.saturating_add(missed(counts.newest, number)),
        newest: Some(number),
        ..counts
    }
}

fn applied_counts(counts: DatagramCounts) -> DatagramCounts
    ensures { result ≡ applied_counts counts }
{
    DatagramCounts {
        applied: counts.applied.saturating_add(1),
        ..counts
    }
}

fn duplicate_counts(counts: DatagramCounts) -> DatagramCounts
    ensures { result ≡ duplicate_counts counts }
{
    DatagramCounts {
        duplicate: counts.duplicate.saturating_add(1),
        ..counts
    }
}

fn old_counts(counts: DatagramCounts) -> DatagramCounts
    ensures { result ≡ old_counts counts }
{
    DatagramCounts {
        old: counts.old.saturating_add(1),
        ..counts
    }
}

fn misfit_counts(counts: DatagramCounts) -> DatagramCounts
    ensures { result ≡ misfit_counts counts }
{
    DatagramCounts {
        wrong_size: counts.wrong_size.saturating_add(1),
        ..counts
    }
}

/// The counts after the device produced a datagram for the connection.
pub fn sent_counts(counts: DatagramCounts) -> DatagramCounts
    ensures { result ≡ sent_counts counts }
{
    DatagramCounts {
        sent: counts.sent.saturating_add(1),
        ..counts
    }
}
