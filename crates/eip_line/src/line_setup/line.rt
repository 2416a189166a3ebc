//! The line.

ghost use Rattle.std.specs.Prelude.{◌≡◌, ◌+◌, None, IfOk, length};
ghost use Rattle.segment_world.specs.Configs.{world_fault};
ghost use Rattle.eip_line.specs.LineSetup.Devices.{line_configs};

use crate::line_setup::configs;
use line_threads::Line;
use segment_world::WorldFault;
use std::alloc::Global;

/// How many datagrams wait for each device at most.
const INBOX: usize = 64;

/// The adapter, and so many scanners behind it.
///
/// The errors are those of `configs`.
pub fn line_of(alloc: Global, scanners: u8) -> Result<Line, WorldFault>
    ensures configs { IfOk result (λ line. line.configs.items ≡ line_configs scanners) }
    ensures valid { IfOk result (λ line. world_fault line.configs.items ≡ None) }
    ensures count { IfOk result (λ line. length line.configs.items ≡ scanners + 1) }
    ensures inbox { IfOk result (λ line. line.inbox ≡ 64) }
{
    Ok(Line {
        configs: configs(alloc, scanners)?,
        inbox: INBOX,
    })
}
