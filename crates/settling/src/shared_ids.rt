//! Connection ids that two devices have in common.

ghost use Rattle.std.specs.Prelude.{◌≡◌, ◌≤◌, None, IfOk, drop, length};
ghost use Rattle.cip_tables.specs.Step.{AcceptsAll, config_fault};
ghost use Rattle.segment_world.specs.Configs.{first_fault, world_fault};
ghost use Rattle.settling.specs.Search.Histories.{configs_of};
ghost use Rattle.settling.specs.SharedIds.{first_shared, ids_of_all, last_ids, share_ids, sharer, shares_any};

use cip_tables::Device;
use cip_types::{IdBlock, Items, OutOfMemory};
use device_lock::History;
use std::alloc::Global;

// THE BLOCKS AFTER HISTORIES

/// The blocks of connection ids that the device of a history holds behind its last event.
fn last_ids<D: Device + Drop>(
    alloc: Global,
    history: &History,
) -> Result<Items<IdBlock>, OutOfMemory>
    requires accepts { AcceptsAll D.accepts }
    requires valid { config_fault history.now.config ≡ None }
    ensures { IfOk result (λ ids. ids ≡ last_ids history.now) }
{
    let table = history.last_table::<D>(alloc)?;
    copy_blocks(alloc, table.table().ids())
}

fn copy_blocks(alloc: Global, blocks: &[IdBlock]) -> Result<Items<IdBlock>, OutOfMemory>
    ensures { IfOk result (λ copy. copy ≡ blocks.now) }
{
    let mut copy = Vec::new(alloc);
    copy.extend_from_slice(blocks)?;
    Ok(Items::from_vec(copy))
}

/// The blocks that the devices of histories hold behind their last events.
fn ids_of_all<D: Device + Drop>(
    alloc: Global,
    histories: &[History],
) -> Result<Vec<Items<IdBlock>>, OutOfMemory>
    requires accepts { AcceptsAll D.accepts }
    requires valid { first_fault (configs_of histories.now) ≡ None }
    ensures { IfOk result (λ ids. ids.items ≡ ids_of_all histories.now) }
{
    let mut all = Vec::new(alloc);
    for history in histories {
        all.push(last_ids::<D>(alloc, history)?)?;
    }
    Ok(all)
}

// TWO DEVICES

/// Whether an id of the block is of one of these.
fn shares_any(blocks: &[IdBlock], block: &IdBlock) -> bool
    ensures { result ≡ shares_any blocks.now block.now }
{
    blocks.iter().any(|own| block.shares_ids(own))
}

/// Whether an id is of a block of both.
fn share_ids(blocks: &[IdBlock], others: &[IdBlock]) -> bool
    ensures { result ≡ share_ids blocks.now others.now }
{
    others.iter().any(|other| shares_any(blocks, other))
}

/// The first device from a place on that has an id in common with the blocks.
fn sharer(blocks: &[IdBlock], ids: &[Items<IdBlock>], from: usize) -> Option<usize>
    requires { from ≤ length ids.now }
    ensures { result ≡ sharer blocks.now from (drop from ids.now) }
{
    for other in from..ids.len() {
        if share_ids(blocks, ids[other].as_slice()) {
            return Some(other);
        }
    }
    None
}

/// The first two devices with an id in common.
fn first_shared(ids: &[Items<IdBlock>]) -> Option<(usize, usize)>
    ensures { result ≡ first_shared 0 ids.now }
{
    for place in 0..ids.len() {
        if let Some(other) = sharer(ids[place].as_slice(), ids, place + 1) {
            return Some((place, other));
        }
    }
    None
}

/// The first two devices that have a connection id in common after their histories: of the blocks that each of them held at last, a
/// block of the one and a block of the other have an id in common. `OutOfMemory` is the only error.
pub fn find_shared_ids<D: Device + Drop>(
    alloc: Global,
    histories: &[History],
) -> Result<Option<(usize, usize)>, OutOfMemory>
    requires accepts { AcceptsAll D.accepts }
    requires valid { world_fault (configs_of histories.now) ≡ None }
    ensures { IfOk result (λ found. found ≡ first_shared 0 (ids_of_all histories.now)) }
{
    let ids = ids_of_all::<D>(alloc, histories)?;
    Ok(first_shared(&ids))
}
