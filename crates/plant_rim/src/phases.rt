//! How a plant ends: its scanners first, so that their targets answer, then its adapters, then its records.

ghost use Rattle.std.specs.Prelude.{◌≡◌};
ghost use Rattle.plant_rim.specs.Phases.{next_if, next_phase};

use crate::counts::PlantCounts;

/// No phase of the end waits longer, in milliseconds.
const PHASE_MS: u64 = 5_000;

/// What a plant does.
#[derive(Clone, Copy, Debug, PartialEq, Eq)]
pub enum PlantPhase {
    /// Its devices live.
    Running,
    /// Its scanners end.
    EndingScanners,
    /// All its devices end.
    EndingAll,
    /// Its records are written to their ends.
    Writing,
    /// It has ended.
    Ended,
}

/// What is known of a plant at a moment.
#[derive(Clone, Copy, PartialEq, Eq)]
pub struct PlantView {
    pub counts: PlantCounts,
    /// Whether it is to end: its time is over, its input has ended, or a device could not begin.
    pub is_over: bool,
    /// The milliseconds since its phase began.
    pub waited_ms: u64,
}

/// The phase behind a phase, or the same one.
pub fn next_phase(phase: PlantPhase, view: PlantView) -> PlantPhase
    ensures { result ≡ next_phase phase view }
{
    let is_late = view.waited_ms >= PHASE_MS;
    match phase {
        PlantPhase::Running => next_if(
            view.is_over || view.counts.devices == 0,
            phase,
            PlantPhase::EndingScanners,
        ),
        PlantPhase::EndingScanners => next_if(
            is_late || view.counts.scanners == 0,
            phase,
            PlantPhase::EndingAll,
        ),
        PlantPhase::EndingAll => next_if(
            is_late || view.counts.devices == 0,
            phase,
            PlantPhase::Writing,
        ),
        PlantPhase::Writing => {
            next_if(
                is_late || view.counts.records == 0,
                phase,
                PlantPhase::Ended,
            )
        }
        PlantPhase::Ended => PlantPhase::Ended,
    }
}

/// The next phase, if it is time for that.
fn next_if(is_time: bool, phase: PlantPhase, next: PlantPhase) -> PlantPhase
    ensures { result ≡ next_if is_time phase next }
{
    if is_time { next } else { phase }
}
