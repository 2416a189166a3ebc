//! Class 1 datagrams.

ghost use Rattle.std.specs.Prelude.{◌≡◌, ◌≤◌, ◌++◌, length, IfOk, OnOk};
ghost use Rattle.cip_datagram.specs.Datagram.{datagram_text};
ghost use Rattle.test_requests.specs.Datagrams.{header_bytes, sent_datagram};

use cip_datagram::{Datagram, fixed_part, header};
use cip_types::fields::{put_bytes, put_u32};
use cip_types::{ConnId, OutOfMemory};
use std::alloc::Global;

/// What a datagram of a class 1 connection sends.
#[derive(Clone, Copy)]
pub struct SentData<'a> {
    /// The O->T id of the connection.
    pub connection: ConnId,
    /// The sequence number of the datagram.
    pub sequence: u32,
    /// The sequence count of the data.
    pub count: u16,
    /// The run bit of the run/idle header. None for a connection that has no header, as one to a heartbeat.
    pub run: Option<bool>,
    pub data: &'a [u8],
}

/// The bytes of a class 1 datagram. `OutOfMemory` is the only fault.
///
/// Volume 2, chapter 2, common packet format.
pub fn datagram_bytes(alloc: Global, sent: &SentData<'_>) -> Result<Vec<u8>, OutOfMemory>
    // The connection size counts the sequence count, the header and the data.
    requires { length sent.now.«data».now ≤ 65529 }
    ensures { IfOk result (λ v. v.items ≡ datagram_text (sent_datagram sent.now)) }
{
    let mut data = Vec::new(alloc);
    put_header(&mut data, sent.run)?;
    put_bytes(&mut data, sent.data)?;
    let datagram = Datagram {
        connection: sent.connection,
        sequence: sent.sequence,
        count: sent.count,
        data: data.as_slice(),
    };
    let mut out = Vec::from_slice(alloc, &fixed_part(&datagram))?;
    put_bytes(&mut out, data.as_slice())?;
    Ok(out)
}

/// Appends the run/idle header of a mode, if there is one: at most four bytes.
fn put_header(out: &mut Vec<u8>, run: Option<bool>) -> Result<(), OutOfMemory>
    ensures bytes { OnOk result (out.new.items ≡ out.old.items ++ header_bytes run) }
    ensures few { length (header_bytes run) ≤ 4 }
{
    match run {
        Some(run) => put_u32(out, header(run)),
        None => Ok(()),
    }
}
