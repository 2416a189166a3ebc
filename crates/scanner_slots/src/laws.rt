//! Laws of indexed slots. A law call does nothing; its contract states the law.

ghost use Rattle.std.specs.Prelude.{◌≡◌, ◌<◌, ℕ, suc, Bool, List, ◌∷◌, length, drop, find, get_or, slice_get, Some};
ghost use Rattle.scanner_table.specs.declared.profile.SlotConfig.{SlotConfig};
ghost use Rattle.scanner_table.specs.declared.slot.Slot.{Slot};
ghost use Rattle.scanner_table.specs.Slots.{IndexedSlot, indexed_from};

/// A slot that a search finds has the configuration and the slot of its number.
pub fn found_slots_match()
    ensures { (test : IndexedSlot → Bool) (configs : List SlotConfig) (slots : List Slot) (indexed : IndexedSlot)
        → find test (indexed_from 0 configs slots) ≡ Some indexed
        → (slice_get configs indexed.number ≡ Some indexed.config)
        × (slice_get slots indexed.number ≡ Some indexed.slot) }
{}

/// The indexed slots from a number on begin with the slot of that number.
#[tactic(auto, using(crate::proofs::SlotLemmas::rest_begins))]
pub fn slots_go_on()
    ensures { (index : ℕ) (configs : List SlotConfig) (slots : List Slot) (config : SlotConfig) (slot : Slot)
        → index < length configs → index < length slots
        → indexed_from index (drop index configs) (drop index slots)
        ≡ record { number = index; config = get_or configs index config; slot = get_or slots index slot }
        ∷ indexed_from (suc index) (drop (suc index) configs) (drop (suc index) slots) }
{}
