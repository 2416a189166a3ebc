//! A slot with its number.

ghost use Rattle.std.specs.Prelude.{◌≡◌, ◌<◌, IfSome, find, length};
ghost use Rattle.std.specs.Option.{option_map};
ghost use Rattle.scanner_table.specs.Slots.{is_numbered, indexed_from};
ghost use Rattle.scanner_slots.specs.Views.{view_slot};

use scanner_table::{Slot, SlotConfig};

/// A view of a slot with its number and its configuration.
#[derive(Clone, Copy)]
pub struct SlotView<'a> {
    /// The number of the slot.
    pub number: u32,
    /// The configuration of the slot.
    pub config: &'a SlotConfig,
    /// The slot.
    pub slot: &'a Slot,
}

/// Returns the slot of this number, if there is one. Takes no memory.
#[tactic(auto, using(crate::proofs::SlotLemmas::few_configs, crate::proofs::SlotLemmas::few_slots))]
pub fn slot_at<'a>(
    configs: &'a [SlotConfig],
    slots: &'a [Slot],
    number: u32,
) -> Option<SlotView<'a>>
    ensures found { option_map view_slot result ≡ find (is_numbered number) (indexed_from 0 configs.now slots.now) }
    ensures within { IfSome result (λ _. (number < length configs.now) × (number < length slots.now)) }
{
    let index = number as usize;
    if index >= configs.len() {
        return None;
    }
    if index >= slots.len() {
        return None;
    }
    Some(SlotView {
        number,
        config: &configs[index],
        slot: &slots[index],
    })
}
