//! Laws of bounds and of remembered slots. A law call does nothing; its contract states the law.

ghost use Rattle.std.specs.Prelude.{◌≡◌, ◌<◌, ℕ, Bool, List, [], find, Some, Ok, true};
ghost use Rattle.cip_datagram.specs.Datagram.{DatagramFields};
ghost use Rattle.cip_events.specs.declared.event.Answer.{Answer};
ghost use Rattle.cip_types.specs.declared.names.Ms.{Ms};
ghost use Rattle.cip_types.specs.declared.names.Node.{Node};
ghost use Rattle.scanner_table.specs.declared.slot.SlotConnection.{SlotConnection};
ghost use Rattle.scanner_table.specs.declared.slot.SlotState.TheVariants.{Established};
ghost use Rattle.scanner_table.specs.declared.table.ScannerTable.{ScannerTable};
ghost use Rattle.scanner_table.specs.Datagrams.{is_for, accepted_table, accepted_connection};
ghost use Rattle.scanner_table.specs.Effects.{nothing};
ghost use Rattle.scanner_table.specs.Points.{write};
ghost use Rattle.scanner_table.specs.Productions.{due_productions, produced_table};
ghost use Rattle.scanner_table.specs.Slots.{IndexedSlot, indexed_slots, is_numbered};
ghost use Rattle.scanner_table.specs.Ticks.{advanced};
ghost use Rattle.scanner_table.specs.WellFormed.{IsWellFormed};
ghost use Rattle.scanner_slots.specs.declared.bounds.Bounds.{Bounds};
ghost use Rattle.scanner_slots.specs.Bounding.{IsBoundedAt, IsHinted, IsTimed, IsNoLater, with_deadline, at_time};

use crate::found_slots_match;

/// Earlier bounds hold where later ones do.
pub fn bounds_are_kept_by_earlier_ones()
    ensures { (bounds later : Bounds) (t : ScannerTable) → IsNoLater bounds later → IsHinted later t
        → IsHinted bounds t }
{}

/// Bounds hold of a table where they hold of the slot of each number.
pub fn bounds_hold_slot_by_slot()
    ensures each { (bounds : Bounds) (t : ScannerTable) (number : ℕ) → IsHinted bounds t → IsBoundedAt bounds t number }
    ensures all { (bounds : Bounds) (t : ScannerTable) → ((number : ℕ) → IsBoundedAt bounds t number)
        → IsHinted bounds t }
    ensures earlier { (bounds later : Bounds) (t : ScannerTable) (number : ℕ) → IsNoLater bounds later
        → IsBoundedAt later t number → IsBoundedAt bounds t number }
{}

/// Before the first deadline and the first retry that opens, no connection changes.
pub fn connections_rest_before_bounds()
    ensures { (bounds : Bounds) (t : ScannerTable) (clock : Ms) → IsTimed bounds t → clock.0 < bounds.deadlines.0
        → clock.0 < bounds.retries.0 → advanced (at_time t clock) ≡ nothing (at_time t clock) }
{}

/// Bounds that count a slot that waits for its turn as one that can open hold of those that can.
pub fn hints_are_times()
    ensures { (bounds : Bounds) (t : ScannerTable) → IsHinted bounds t → IsTimed bounds t }
{}

/// Before the first due time, no slot produces.
pub fn producers_rest_before_bounds()
    ensures sent { (bounds : Bounds) (t : ScannerTable) (clock : Ms) → IsTimed bounds t → clock.0 < bounds.dues.0
        → due_productions (at_time t clock) ≡ [] }
    ensures table { (bounds : Bounds) (t : ScannerTable) (clock : Ms) → IsWellFormed t → IsTimed bounds t
        → clock.0 < bounds.dues.0 → produced_table (at_time t clock) ≡ at_time t clock }
{}

/// A slot that a datagram is for is the one that the search finds, since no two established slots of a peer have one id.
pub fn found_consumers_are_first()
    ensures { (t : ScannerTable) (peer : Node) (id number : ℕ) (indexed : IndexedSlot) → IsWellFormed t
        → find (is_numbered number) (indexed_slots t) ≡ Some indexed → is_for peer id indexed ≡ true
        → find (is_for peer id) (indexed_slots t) ≡ Some indexed }
{}

/// A connection that accepts a datagram gets a new deadline. Its producer stays as it is.
pub fn accepted_datagrams_keep_bounds()
    ensures { (bounds : Bounds) (t : ScannerTable) (test : IndexedSlot → Bool) (indexed : IndexedSlot)
        (d : DatagramFields) (c : SlotConnection) (bytes : List ℕ) → find test (indexed_slots t) ≡ Some indexed
        → indexed.slot.state ≡ Established c → IsHinted bounds t
        → IsHinted (with_deadline bounds (accepted_connection t.clock d c).deadline)
        (accepted_table t indexed d c bytes) }
{
    // A slot that is found is the one of its number.
    found_slots_match();
}

/// A write changes the slot of its number alone: after it earlier bounds hold, if they hold of that slot.
pub fn writes_narrow_bounds()
    ensures { (bounds narrower : Bounds) (t : ScannerTable) (number : ℕ) (bytes : List ℕ) (answer : Answer)
        (new : ScannerTable) → write t number bytes ≡ Ok (answer, new) → IsNoLater narrower bounds → IsHinted bounds t
        → IsBoundedAt narrower new number → IsHinted narrower new }
{}
