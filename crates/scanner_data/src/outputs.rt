//! The outputs and the mode that the application sets.

ghost use Rattle.std.specs.Prelude.{◌≡◌, ◌≤◌, IfErr, map, length, if◌then◌else◌};
ghost use Rattle.cip_events.specs.Answers.{plain_answer};
ghost use Rattle.cip_events.specs.declared.event.Verdict.TheVariants.{Done};
ghost use Rattle.cip_productions.specs.Kinds.{is_owner};
ghost use Rattle.scanner_table.specs.Slots.{indexed_from};
ghost use Rattle.scanner_table.specs.Productions.{due_on_change, written_production, written_state};
ghost use Rattle.scanner_table.specs.Points.{output_slot, moded_slot, write, mode};
ghost use Rattle.scanner_table.specs.WellFormed.{IsWellFormed};
ghost use Rattle.scanner_slots.specs.Views.{table_of};
ghost use Rattle.scanner_data.specs.Results.{done_or};

use cip_events::StepFault;
use cip_netparams::Trigger;
use cip_productions::{Kind, Production};
use cip_types::Ms;
use scanner_slots::{ScannerState, slot_at};
use scanner_table::{ScannerProfile, Slot, SlotConfig, SlotState};

/// When a producer that has new data is due: a change-of-state one as soon as its production inhibit time is over.
fn due_on_change(production: &Production) -> Ms
    ensures { result ≡ due_on_change production.now.trigger production.now.last production.now.inhibit
        production.now.due }
{
    match (production.trigger, production.last) {
        (Trigger::ChangeOfState, Some(last)) => {
            let free = last.0.saturating_add(u64::from(production.inhibit));
            Ms(free.min(production.due.0))
        }
        (Trigger::Cyclic, _) | (Trigger::ChangeOfState, None) => production.due,
    }
}

/// A producer that has new data.
fn written_production(production: Production) -> Production
    ensures { result ≡ written_production production }
{
    Production {
        written: true,
        due: due_on_change(&production),
        ..production
    }
}

/// Gives the producer of an established connection new data.
fn renew_producer(state: &mut SlotState)
    ensures { state.new ≡ written_state state.old }
{
    if let SlotState::Established(connection) = state {
        connection.production = written_production(connection.production);
    }
}

fn is_owner(kind: Kind) -> bool
    ensures { result ≡ is_owner kind }
{
    match kind {
        Kind::ExclusiveOwner => true,
        Kind::InputOnly | Kind::ListenOnly => false,
    }
}

/// Sets the output of a slot, which is new data.
fn set_output(slot: &mut Slot, bytes: &[u8])
    requires { length slot.old.output ≡ length bytes.now }
    ensures { slot.new ≡ output_slot bytes.now slot.old }
{
    slot.output.overwrite(bytes);
    renew_producer(&mut slot.state);
}

/// Writes the output of an exclusive owner. The bytes are new data, which a change-of-state producer sends as soon as its
/// production inhibit time is over. Takes no memory.
///
/// The errors, in order: `NoSuchSlot` if no slot has the number; `NotAllowedNow` if the slot is no exclusive owner and so
/// has no output; `WrongLength` if the output has another length. An error leaves the table unchanged.
///
/// Volume 1, chapter 3, class 1 transport, production triggers and production inhibit time.
#[tactic(auto, unfolding(scanner_table::specs::Points::write))]
pub fn write(
    profile: &ScannerProfile,
    scanner: &mut ScannerState,
    number: u32,
    bytes: &[u8],
) -> Result<(), StepFault>
    requires whole { IsWellFormed (table_of profile.now scanner.old) }
    ensures said { done_or result (table_of profile.now scanner.new)
        ≡ write (table_of profile.now scanner.old) number bytes.now }
    ensures same { IfErr result (λ _. scanner.new ≡ scanner.old) }
{
    let Some(indexed) = slot_at(profile.slots.as_slice(), &scanner.slots, number) else {
        return Err(StepFault::NoSuchSlot);
    };
    if !is_owner(indexed.config.kind) {
        return Err(StepFault::NotAllowedNow);
    }
    if bytes.len() as u64 != indexed.config.out_len {
        return Err(StepFault::WrongLength);
    }
    set_output(&mut scanner.slots[number as usize], bytes);
    Ok(())
}

/// Gives the producer of an exclusive owner new data.
fn renew_owner(kind: Kind, state: &mut SlotState)
    ensures { state.new ≡ (if is_owner kind then written_state state.old else state.old) }
{
    if is_owner(kind) {
        renew_producer(state);
    }
}

fn renew(configs: &[SlotConfig], slots: &mut [Slot])
    requires { length slots.old ≤ length configs.now }
    ensures { slots.new ≡ map moded_slot (indexed_from 0 configs.now slots.old) }
{
    for index in 0..slots.len() {
        renew_owner(configs[index].kind, &mut slots[index].state);
    }
}

/// Gives the producer of each exclusive owner new data.
fn renew_all(configs: &[SlotConfig], slots: &mut Vec<Slot>)
    requires { length slots.old.items ≤ length configs.now }
    ensures { slots.new.items ≡ map moded_slot (indexed_from 0 configs.now slots.old.items) }
{
    renew(configs, slots);
}

/// Sets the application to run or to idle. A change of mode is new data for each exclusive owner, as a write is, since the data
/// carry the mode. Takes no memory.
///
/// Volume 1, chapter 3, real time formats and run/idle.
#[tactic(auto, unfolding(scanner_table::specs::Points::mode))]
pub fn set_mode(profile: &ScannerProfile, scanner: &mut ScannerState, run: bool)
    requires whole { IsWellFormed (table_of profile.now scanner.old) }
    ensures { (plain_answer Done, table_of profile.now scanner.new) ≡ mode (table_of profile.now scanner.old) run }
{
    if run == scanner.run {
        return;
    }
    scanner.run = run;
    renew_all(profile.slots.as_slice(), &mut scanner.slots);
}
