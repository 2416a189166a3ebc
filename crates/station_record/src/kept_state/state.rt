//! What a station keeps from one start to the next.

ghost use Rattle.std.specs.Prelude.{◌≡◌};
ghost use Rattle.station_record.specs.KeptState.States.{begun, drawn_serials, kept_ids, next_serials, next_state, serials_behind, with_ids};

use crate::kept_state::ids::KeptIds;

/// The connection serial numbers of a start before those of another one.
const SERIALS: u32 = 257;

/// How many times so many numbers the next start begins behind this one: half the circle.
const BLOCKS: u32 = 128;

/// The last connection serial number.
const LAST_SERIAL: u32 = 65_535;

/// The incarnation of a start, the serial number that was drawn once, the first connection serial number of a scanner's start, and
/// from where on no connection id was given.
#[derive(Clone, Copy, PartialEq, Eq)]
pub struct StationState {
    /// 1 to 255.
    pub incarnation: u8,
    pub serial: u32,
    /// 1 to 65,535. A state that was kept without one has none.
    pub serials: Option<u16>,
    /// From where on no connection id was given. A state that was kept without it has none.
    pub ids: Option<KeptIds>,
}

/// The first connection serial number of the next start: it is 257 times 128 behind this one, and 1 follows 65,535.
fn next_serials(first: u16) -> u16
    ensures { result ≡ next_serials first }
{
    let place = (u32::from(first) + SERIALS * BLOCKS - 1) % LAST_SERIAL;
    place as u16 + 1
}

/// The first connection serial number of a start where the last one kept none.
pub fn drawn_serials(drawn: u32) -> u16
    ensures { result ≡ drawn_serials drawn }
{
    (drawn % LAST_SERIAL) as u16 + 1
}

fn serials_behind(last: Option<u16>, drawn: u32) -> u16
    ensures { result ≡ serials_behind last drawn }
{
    match last {
        Some(first) => next_serials(first),
        None => drawn_serials(drawn),
    }
}

impl StationState {
    /// The state of the next start: incarnation 255 is followed by 1. A number is drawn, in case that the last start kept no
    /// first connection serial number. From where on no id was given stays.
    pub fn next(&self, drawn: u32) -> StationState
        ensures { result ≡ next_state self.now drawn }
    {
        let incarnation = if self.incarnation == 255 {
            1
        } else {
            self.incarnation + 1
        };
        StationState {
            incarnation,
            serial: self.serial,
            serials: Some(serials_behind(self.serials, drawn)),
            ids: self.ids,
        }
    }
}

/// The state of a start.
///
/// Its incarnation is the given one, or else the one behind that of the last start, or else, at the first start, the own
/// one of the profile. Its serial number is that of the last start, or else the drawn one. Its first connection serial number is
/// half the circle behind that of the last start, or else of the drawn number.
pub fn begin_state(
    last: Option<StationState>,
    given: Option<u8>,
    own: u8,
    drawn: u32,
) -> StationState
    ensures { result ≡ begun last given own drawn }
{
    let state = match last {
        Some(last) => last.next(drawn),
        None => StationState {
            incarnation: own,
            serial: drawn,
            serials: Some(drawn_serials(drawn)),
            ids: None,
        },
    };
    match given {
        Some(incarnation) => StationState {
            incarnation,
            ..state
        },
        None => state,
    }
}

/// From where on no id was given, for a start: as the last start has kept it, or else from a drawn place on.
pub fn kept_ids(state: &StationState, drawn: u32) -> KeptIds
    ensures { result ≡ kept_ids state.now drawn }
{
    match state.ids {
        Some(ids) => ids,
        None => KeptIds::drawn(drawn),
    }
}

/// A state with this place, from which on no id was given.
pub fn with_ids(state: StationState, ids: KeptIds) -> StationState
    ensures { result ≡ with_ids state ids }
{
    StationState {
        ids: Some(ids),
        ..state
    }
}
