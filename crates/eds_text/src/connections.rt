//! The connections that an adapter admits, each pair of points by each kind.

ghost use Rattle.std.specs.Prelude.{◌≡◌, ◌++◌, IfOk, OnOk, flat_map, map};
ghost use Rattle.eds_text.specs.Connections.{connections_of, offered, owner_of, owners_of, reader_of};
ghost use Rattle.eds_text.specs.Offer.{offers_changes};

use crate::offer::{has_place, offers_changes};
use adapter_table::{InputPoint, OutputPoint, Profile};
use cip_productions::Kind;
use cip_types::OutOfMemory;
use std::alloc::Global;

/// A connection that an adapter admits: its kind, whether it may produce on changes of state, and the points that it joins
/// with their bytes.
#[derive(Clone, Copy)]
pub struct SheetConnection {
    pub kind: Kind,
    pub changes: bool,
    /// The output, or the heartbeat, which has no bytes.
    pub consumed: u32,
    pub o_t_len: u64,
    /// The input.
    pub produced: u32,
    pub t_o_len: u64,
}

/// All of them: the exclusive owner of each output with each input, then input only and listen only of each input. A kind
/// for which the maker states no place is left out. `OutOfMemory` is the only fault.
///
/// Volume 1, chapter 3, application connection types.
pub fn connections_of(alloc: Global, profile: &Profile) -> Result<Vec<SheetConnection>, OutOfMemory>
    ensures { IfOk result (λ list. list.items ≡ connections_of profile.now) }
{
    let mut list = Vec::new(alloc);
    add_all_owners(&mut list, profile)?;
    add_readers(&mut list, profile, Kind::InputOnly, profile.input_only)?;
    add_readers(&mut list, profile, Kind::ListenOnly, profile.listen_only)?;
    Ok(list)
}

/// Adds the exclusive owner of each output with each input.
fn add_all_owners(list: &mut Vec<SheetConnection>, profile: &Profile) -> Result<(), OutOfMemory>
    ensures { OnOk result (list.new.items ≡ list.old.items ++ offered profile.now.limits Kind.ExclusiveOwner
        (flat_map (owners_of (offers_changes profile.now.limits) profile.now.inputs) profile.now.outputs)) }
{
    if !has_place(&profile.limits, Kind::ExclusiveOwner) {
        return Ok(());
    }
    let changes = offers_changes(&profile.limits);
    let inputs = profile.inputs.as_slice();
    for output in profile.outputs.as_slice() {
        add_owners(list, changes, *output, inputs)?;
    }
    Ok(())
}

/// Adds the exclusive owner of an output with each input.
fn add_owners(
    list: &mut Vec<SheetConnection>,
    changes: bool,
    output: OutputPoint,
    inputs: &[InputPoint],
) -> Result<(), OutOfMemory>
    ensures { OnOk result (list.new.items ≡ list.old.items ++ owners_of changes inputs.now output) }
{
    for input in inputs {
        list.push(owner_of(changes, output, *input))?;
    }
    Ok(())
}

/// The exclusive owner of an output that consumes an input.
fn owner_of(changes: bool, output: OutputPoint, input: InputPoint) -> SheetConnection
    ensures { result ≡ owner_of changes output input }
{
    SheetConnection {
        kind: Kind::ExclusiveOwner,
        changes,
        consumed: output.instance,
        o_t_len: output.len,
        produced: input.instance,
        t_o_len: input.len,
    }
}

/// Adds a connection of a kind to a heartbeat for each input.
fn add_readers(
    list: &mut Vec<SheetConnection>,
    profile: &Profile,
    kind: Kind,
    heartbeat: u32,
) -> Result<(), OutOfMemory>
    ensures { OnOk result (list.new.items ≡ list.old.items ++ offered profile.now.limits kind
        (map (reader_of (offers_changes profile.now.limits) kind heartbeat) profile.now.inputs)) }
{
    if !has_place(&profile.limits, kind) {
        return Ok(());
    }
    let changes = offers_changes(&profile.limits);
    for input in profile.inputs.as_slice() {
        list.push(reader_of(changes, kind, heartbeat, *input))?;
    }
    Ok(())
}

/// A connection to a heartbeat that consumes an input.
fn reader_of(changes: bool, kind: Kind, heartbeat: u32, input: InputPoint) -> SheetConnection
    ensures { result ≡ reader_of changes kind heartbeat input }
{
    SheetConnection {
        kind,
        changes,
        consumed: heartbeat,
        o_t_len: 0,
        produced: input.instance,
        t_o_len: input.len,
    }
}
