//! Connections without their productions, and the keys that lead to them.

ghost use Rattle.std.specs.Prelude.{◌≡◌};
ghost use Rattle.conn_slab.specs.Records.{record_of, key_for, source_of};

use adapter_table::{Connection, Row, producer_number};
use cip_types::Triad;

/// The key of the index of triads.
#[derive(Clone, Copy, PartialEq, Eq, Hash)]
pub(crate) struct TriadKey {
    pub(crate) serial: u16,
    pub(crate) vendor: u16,
    pub(crate) originator: u32,
}

/// The key of the index of sources: the peer that sends the datagrams of a connection, and their O->T id.
#[derive(Clone, Copy, PartialEq, Eq, Hash)]
pub(crate) struct Source {
    pub(crate) peer: u32,
    pub(crate) id: u32,
}

/// A connection whose state is the number of its producer, which an established one has.
pub(crate) type Record = Connection<Option<u32>>;

/// The record of a connection.
pub(crate) fn record_of(row: &Row) -> Record
    ensures { result ≡ record_of row.now }
{
    row.with_state(producer_number(&row.state))
}

pub(crate) fn key_for(triad: Triad) -> TriadKey
    ensures { result ≡ key_for triad }
{
    TriadKey {
        serial: triad.serial,
        vendor: triad.vendor,
        originator: triad.originator,
    }
}

pub(crate) fn source_of(record: &Record) -> Source
    ensures { result ≡ source_of record.now }
{
    Source {
        peer: record.peer.0,
        id: record.o_t_id.0,
    }
}
