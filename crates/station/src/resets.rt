//! Resets that peers request.

ghost use Rattle.std.specs.Prelude.{◌≡◌};
ghost use Rattle.std.specs.List.{list_any};
ghost use Rattle.station.specs.Resets.{is_reset};

use cip_events::Notice;

/// Whether notices say that a peer requests a reset.
pub(crate) fn requests_reset(notices: &[Notice]) -> bool
    ensures { result ≡ list_any is_reset notices.now }
{
    notices.iter().any(is_reset)
}

/// Whether a notice says that a peer requests a reset.
fn is_reset(notice: &Notice) -> bool
    ensures { result ≡ is_reset notice.now }
{
    matches!(notice, Notice::Reset(_))
}
