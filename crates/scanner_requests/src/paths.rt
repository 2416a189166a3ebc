//! The path to a slot's points.

ghost use Rattle.std.specs.Prelude.{◌≡◌};
ghost use Rattle.std.specs.Option.{option_map};
ghost use Rattle.cip_epath.specs.Path.{view_path};
ghost use Rattle.scanner_table.specs.Requests.{inhibit_of, segment_of, slot_path};

use cip_epath::ConnPath;
use cip_epath::class::ASSEMBLY;
use scanner_table::SlotConfig;

fn inhibit_of(inhibit: u8) -> Option<u8>
    ensures { result ≡ inhibit_of inhibit }
{
    if inhibit == 0 { None } else { Some(inhibit) }
}

fn segment_of(bytes: &[u8]) -> Option<&[u8]>
    ensures { option_map (λ lent. lent.now) result ≡ segment_of bytes.now }
{
    if bytes.is_empty() { None } else { Some(bytes) }
}

/// Returns the path to a slot's points, which are assembly instances.
///
/// Volume 1, chapter 3, connection path.
pub fn slot_path(config: &SlotConfig) -> ConnPath<'_>
    ensures { view_path result ≡ slot_path config.now }
{
    ConnPath {
        key: config.key,
        inhibit: inhibit_of(config.inhibit),
        class: ASSEMBLY,
        config: config.config,
        consumed: config.consumed,
        produced: config.produced,
        segment: segment_of(config.config_data.as_slice()),
    }
}
