//! The explicit requests that a scanner sends.

ghost use Rattle.std.specs.Prelude.{◌≡◌, ◌≤◌, ◌^◌, None, IfOk, length};
ghost use Rattle.scanner_table.specs.Explicit.{pending_explicit};
ghost use Rattle.scanner_table.specs.Profiles.{profile_fault};
ghost use Rattle.scanner_table.specs.Requests.{numbered, requesting, sent_frame};
ghost use Rattle.scanner_slots.specs.Views.{table_of};

use cip_encap::command::SEND_RR_DATA;
use cip_encap::{HEADER_LEN, MessageHeader, items_len, put_items_header, put_message_header};
use cip_events::{Frame, Recipient};
use cip_types::fields::put_bytes;
use cip_types::{Items, OutOfMemory};
use scanner_requests::later;
use scanner_slots::ScannerState;
use scanner_table::{PendingExplicit, ScannerProfile, Session};
use std::alloc::Global;

/// Returns the next request of the scanner, which waits for its reply at most the open time-out.
///
/// Volume 1, chapter 3, unconnected messaging.
#[tactic(auto, using(scanner_requests::specs::Lemmas::Waits::open_timeout_fits))]
pub fn pending_explicit(
    profile: &ScannerProfile,
    scanner: &ScannerState,
    session: Session,
    number: u32,
    bytes: &[u8],
) -> PendingExplicit
    requires faultless { profile_fault profile.now ≡ None }
    requires time { scanner.now.clock.0 ≤ 2 ^ 48 }
    requires some { 2 ≤ length bytes.now }
    ensures { result ≡ pending_explicit (table_of profile.now scanner.now) session number bytes.now }
{
    PendingExplicit {
        number,
        request: scanner.next_request,
        stream: session.stream,
        deadline: later(scanner.clock, profile.open_timeout),
        service: bytes[0],
    }
}

/// Makes the frame of a request to the message router of a target, within a session. The scanner's number of the request is
/// the sender context. `OutOfMemory` is the only error.
///
/// Volume 2, chapter 2, SendRRData.
pub fn explicit_frame(
    alloc: Global,
    session: Session,
    request: u64,
    bytes: &[u8],
) -> Result<Frame, OutOfMemory>
    requires { length bytes.now ≤ 504 }
    ensures { IfOk result (λ frame. frame ≡ sent_frame (numbered session request (requesting bytes.now))) }
{
    let items = items_len(bytes.len(), None);
    let message_header = MessageHeader {
        command: SEND_RR_DATA,
        len: items as u16,
        session: session.handle,
        status: 0,
        context: request,
        options: 0,
    };
    let mut out = Vec::with_capacity(alloc, HEADER_LEN + items)?;
    put_message_header(&mut out, &message_header)?;
    put_items_header(&mut out, bytes.len() as u16, None)?;
    put_bytes(&mut out, bytes)?;
    Ok(Frame {
        to: Recipient::Stream(session.stream),
        bytes: Items::from_vec(out),
    })
}
