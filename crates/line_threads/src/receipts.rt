//! The receipts of all workers.

ghost use Rattle.std.specs.Prelude.{◌≡◌, ◌⊎◌, ◌↔◌, List, ◌∷◌, None, Some, IfOk, IfErr, IfNone, IfSome, IsTrue};
ghost use Rattle.cip_events.specs.declared.event.Event.{Event};
ghost use Rattle.line_threads.specs.Accounts.{events_reported};
ghost use Rattle.line_threads.specs.Lines.{all_receipts, first_fault};

use crate::fault::LineFault;
use cip_events::Event;
use cip_types::OutOfMemory;
use device_lock::Receipt;
use std::alloc::Global;

/// The receipts of all workers, in the order of their devices.
///
/// The errors, in order: the fault of the first device whose worker has one, and `OutOfMemory`.
pub fn gather(
    alloc: Global,
    accounts: Vec<Result<Vec<Receipt>, LineFault>>,
) -> Result<Vec<Receipt>, LineFault>
    ensures receipts { IfOk result (λ v. v.items ≡ all_receipts accounts.items) }
    ensures well { IfOk result (λ v. first_fault accounts.items ≡ None) }
    ensures fault { IfErr result
        (λ f. (first_fault accounts.items ≡ Some f)
        ⊎ ((first_fault accounts.items ≡ None) × (f ≡ LineFault.OutOfMemory))) }
{
    match fault_of(&accounts) {
        Some(fault) => Err(fault),
        None => Ok(joined(alloc, accounts)?),
    }
}

fn fault_of(accounts: &[Result<Vec<Receipt>, LineFault>]) -> Option<LineFault>
    ensures { result ≡ first_fault accounts.now }
{
    for account in accounts {
        if let Err(fault) = account {
            return Some(*fault);
        }
    }
    None
}

#[tactic(auto, using(crate::proofs::Gathering::all_receipts_ok, crate::proofs::Gathering::all_receipts_err))]
fn joined(
    alloc: Global,
    accounts: Vec<Result<Vec<Receipt>, LineFault>>,
) -> Result<Vec<Receipt>, OutOfMemory>
    ensures { IfOk result (λ v. v.items ≡ all_receipts accounts.items) }
{
    let mut all = Vec::new(alloc);
    for account in accounts {
        match account {
            Ok(mut receipts) => all.append(&mut receipts)?,
            Err(_) => {}
        }
    }
    Ok(all)
}

/// The events behind this one, if it is the first of them.
fn behind<'a>(events: &'a [Event], event: &Event) -> Option<&'a [Event]>
    ensures some { IfSome result (λ later. events.now ≡ event.now ∷ later.now) }
    ensures none { IfNone result ((later : List Event) → events.now ≡ event.now ∷ later → ⊥) }
{
    let [first, later @ ..] = events else {
        return None;
    };
    if first.same(event) { Some(later) } else { None }
}

/// Returns whether the receipts of a device are for these events, in order and each once. Takes no memory.
pub fn are_for(receipts: &[Receipt], device: u8, events: &[Event]) -> bool
    ensures { IsTrue result ↔ (events_reported device receipts.now ≡ events.now) }
{
    let mut left = events;
    for receipt in receipts {
        if receipt.device != device {
            continue;
        }
        let Some(later) = behind(left, &receipt.event) else {
            return false;
        };
        left = later;
    }
    left.is_empty()
}
