//! Records under keys, and the two indexes that lead to them.

ghost use Rattle.std.specs.Prelude.{◌≡◌, ◌≤◌, ◌<◌, ◌++◌, ◌∷◌, [], None, Some, OnOk, find, filter, not};
ghost use Rattle.std.specs.List.{list_any};
ghost use Rattle.std.specs.Map.{lookup, values_of};
ghost use Rattle.std.specs.Option.{option_copied, option_map};
ghost use Rattle.slab.specs.Slab.{HasRoomFor, get};
ghost use Rattle.indexmap.specs.IndexMap.{spare};
ghost use Rattle.conn_slab.specs.Index.{items_of};
ghost use Rattle.conn_slab.specs.Records.{key_of, same_key, source_of, same_source, is_of, listens, listens_in};
ghost use Rattle.conn_slab.specs.Layout.{AreFiled, running_key};

use crate::record::{Record, Source, TriadKey, key_for, source_of};
use cip_productions::Kind;
use cip_types::{OutOfMemory, Triad};
use indexmap::IndexMap;
use slab::Slab;

pub(crate) type Triads = IndexMap<TriadKey, usize>;

pub(crate) type Sources = IndexMap<Source, usize>;

/// Reserves capacity for one more record.
pub(crate) fn reserve_record(
    records: &mut Slab<Record>,
    by_triad: &mut Triads,
    by_source: &mut Sources,
) -> Result<(), OutOfMemory>
    requires { AreFiled records.old by_triad.old.entries by_source.old.entries }
    ensures filed { AreFiled records.new by_triad.new.entries by_source.new.entries }
    ensures items { items_of records.new by_triad.new.entries ≡ items_of records.old by_triad.old.entries }
    ensures records_space { OnOk result (HasRoomFor records.new 1) }
    ensures triad_space { OnOk result (0 < spare by_triad.new) }
    ensures source_space { OnOk result (0 < spare by_source.new) }
{
    records.reserve(1)?;
    by_triad.reserve(1)?;
    by_source.reserve(1)?;
    Ok(())
}

/// The index to try first for the producer of a triad's connection: its own index among the connections.
pub(crate) fn hint_among(by_triad: &Triads, triad: Triad) -> usize {
    by_triad.get_index_of(&key_for(triad)).unwrap_or(0)
}

/// Removes the record of a triad, and its entries in both indexes. Takes no memory.
pub(crate) fn take_record(
    records: &mut Slab<Record>,
    by_triad: &mut Triads,
    by_source: &mut Sources,
    name: TriadKey,
) -> Option<Record>
    requires { AreFiled records.old by_triad.old.entries by_source.old.entries }
    ensures filed { AreFiled records.new by_triad.new.entries by_source.new.entries }
    ensures taken { result ≡ find (is_of name) (items_of records.old by_triad.old.entries) }
    ensures rest { items_of records.new by_triad.new.entries
        ≡ filter (λ r. not (is_of name r)) (items_of records.old by_triad.old.entries) }
    ensures records_space { HasRoomFor records.old 1 → HasRoomFor records.new 1 }
    ensures triad_space { spare by_triad.old ≤ spare by_triad.new }
    ensures source_space { spare by_source.old ≤ spare by_source.new }
{
    let key = by_triad.shift_remove(&name)?;
    let record = records.remove(key);
    by_source.swap_remove(&source_of(&record));
    Some(record)
}

/// Appends a record, within the capacity that is reserved. Takes no memory.
pub(crate) fn put_last(
    records: &mut Slab<Record>,
    by_triad: &mut Triads,
    by_source: &mut Sources,
    opened: Record,
)
    requires filed { AreFiled records.old by_triad.old.entries by_source.old.entries }
    requires new_triad { lookup (same_key (key_of opened)) by_triad.old.entries ≡ None }
    requires new_source { lookup (same_source (source_of opened)) by_source.old.entries ≡ None }
    requires records_space { HasRoomFor records.old 1 }
    requires triad_space { 0 < spare by_triad.old }
    requires source_space { 0 < spare by_source.old }
    ensures filed { AreFiled records.new by_triad.new.entries by_source.new.entries }
    ensures items { items_of records.new by_triad.new.entries
        ≡ items_of records.old by_triad.old.entries ++ opened ∷ [] }
{
    let name = key_for(opened.triad);
    let source = source_of(&opened);
    let key = records.insert_reserved(opened);
    // Both indexes have spare capacity, so that no insertion fails.
    by_triad.insert(name, key).unwrap();
    by_source.insert(source, key).unwrap();
}

/// The position of a source in its index, and its key. The search tries one position first.
#[inline(always)]
pub(crate) fn find_at_position(
    by_source: &Sources,
    first: usize,
    source: Source,
) -> Option<(usize, usize)>
    ensures { option_map (λ found. found.1) result ≡ lookup (same_source source) by_source.now.entries }
{
    if let Some((known, key)) = by_source.get_index(first) {
        if *known == source {
            return Some((first, *key));
        }
    }
    find_anew(by_source, source)
}

/// The position of a source in its index, and its key.
#[inline(never)]
fn find_anew(by_source: &Sources, source: Source) -> Option<(usize, usize)>
    ensures { option_map (λ found. found.1) result ≡ lookup (same_source source) by_source.now.entries }
{
    let (position, _, key) = by_source.get_full(&source)?;
    Some((position, *key))
}

/// The key that an index gives, if the record under it is established, and the number of its producer.
pub(crate) fn running(records: &Slab<Record>, key: Option<&usize>) -> Option<(usize, u32)>
    ensures { result ≡ running_key records.now (option_copied key.entry) }
{
    let key = *key?;
    let record = records.get(key)?;
    let number = record.state?;
    Some((key, number))
}

/// Whether a record is that of an established listen-only connection.
fn listens(record: &Record) -> bool
    ensures { result ≡ listens record.now }
{
    record.state.is_some() && record.kind == Kind::ListenOnly
}

/// Whether the record of a key is such a one.
fn listens_at(records: &Slab<Record>, key: usize) -> bool
    ensures { result ≡ listens_in (get records.now key) }
{
    match records.get(key) {
        Some(record) => listens(record),
        None => false,
    }
}

/// Whether the record of one of the keys is such a one.
pub(crate) fn has_listeners(records: &Slab<Record>, by_triad: &Triads) -> bool
    ensures { result ≡ list_any (λ key. listens_in (get records.now key)) (values_of by_triad.now.entries) }
{
    for key in by_triad.values() {
        if listens_at(records, *key) {
            return true;
        }
    }
    false
}
