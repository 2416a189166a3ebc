//! Which explicit requests a scanner sends.

ghost use Rattle.std.specs.Prelude.{◌≡◌, ◌≤◌, ◌^◌, false, IfOk, length};
ghost use Rattle.std.specs.List.{list_any};
ghost use Rattle.scanner_table.specs.declared.profile.ScannerProfile.{ScannerProfile};
ghost use Rattle.scanner_table.specs.Explicit.{connects_to, explicit_request, has_explicit_length, is_barred, is_for_slots};
ghost use Rattle.scanner_slots.specs.Views.{table_of};
ghost use Rattle.explicit_requests.specs.Outcomes.{sent_within};

use crate::pending::has_number;
use cip_events::StepFault;
use cip_fwdopen::service::{FORWARD_CLOSE, FORWARD_OPEN, LARGE_FORWARD_OPEN, REPLY};
use cip_types::Node;
use scanner_requests::LAST_REQUEST;
use scanner_slots::{ScannerState, session_with};
use scanner_table::{
    LONGEST_EXPLICIT, MOST_EXPLICIT, SHORTEST_EXPLICIT, ScannerProfile, Session, SlotConfig,
};

fn connects_to(configs: &[SlotConfig], target: Node) -> bool
    ensures { result ≡ list_any (connects_to target) configs.now }
{
    configs.iter().any(|config| config.target.0 == target.0)
}

fn has_explicit_length(bytes: &[u8]) -> bool
    ensures { result ≡ has_explicit_length bytes.now }
{
    (SHORTEST_EXPLICIT..=LONGEST_EXPLICIT).contains(&bytes.len())
}

/// Returns whether only a slot sends the service, or it has the reply bit.
fn is_for_slots(service: u8) -> bool
    ensures { result ≡ is_for_slots service }
{
    service == FORWARD_OPEN
        || service == LARGE_FORWARD_OPEN
        || service == FORWARD_CLOSE
        || service >= REPLY
}

/// Returns whether the service is for slots, 16 requests are pending, one of them has the number, or no request number is
/// left.
fn is_barred(scanner: &ScannerState, number: u32, bytes: &[u8]) -> bool
    requires { 1 ≤ length bytes.now }
    ensures value { (profile : ScannerProfile) → result ≡ is_barred (table_of profile scanner.now) number bytes.now }
    ensures left { result ≡ false → scanner.now.next_request ≤ 2 ^ 48 }
{
    is_for_slots(bytes[0])
        || scanner.explicit.len() >= MOST_EXPLICIT
        || has_number(&scanner.explicit, number)
        || scanner.next_request > LAST_REQUEST
}

/// Returns the session within which a request of the application is sent to a target. Takes no memory.
///
/// The errors, in order: `NoSuchSlot` if no slot connects to the target; `WrongLength` if the request has fewer than 2 or
/// more than 504 bytes; `NotAllowedNow` if no session with the target is registered, the service is Forward_Open,
/// Large_Forward_Open or Forward_Close or has the reply bit, 16 requests are pending, one of them has the number, or no
/// request number is left.
///
/// Volume 1, chapter 3, unconnected messaging.
#[tactic(auto, unfolding(scanner_table::specs::Explicit::explicit_request))]
pub fn session_for(
    profile: &ScannerProfile,
    scanner: &ScannerState,
    target: Node,
    number: u32,
    bytes: &[u8],
) -> Result<Session, StepFault>
    ensures outcome { let t = table_of profile.now scanner.now in
        explicit_request t target number bytes.now ≡ sent_within t number bytes.now result }
    ensures left { IfOk result (λ _. scanner.now.next_request ≤ 2 ^ 48) }
    ensures some { IfOk result (λ _. 2 ≤ length bytes.now) }
    ensures short { IfOk result (λ _. length bytes.now ≤ 504) }
{
    if !connects_to(profile.slots.as_slice(), target) {
        return Err(StepFault::NoSuchSlot);
    }
    if !has_explicit_length(bytes) {
        return Err(StepFault::WrongLength);
    }
    let Some(session) = session_with(&scanner.streams, target) else {
        return Err(StepFault::NotAllowedNow);
    };
    if is_barred(scanner, number, bytes) {
        return Err(StepFault::NotAllowedNow);
    }
    Ok(session)
}
