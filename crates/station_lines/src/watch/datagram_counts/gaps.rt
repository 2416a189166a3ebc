//! The time between the accepted datagrams of one connection.

ghost use Rattle.std.specs.Prelude.{◌≡◌, map};
ghost use Rattle.station_lines.specs.Watch.DatagramCounts.Gaps.{both, came, fresh_meter, fresh_window, is_place_of, is_recent, last_minute, moved_by, no_gaps, recent_sums, sums_in, window_after, window_of, with_gap, with_one, with_recent};

/// A window has so many milliseconds.
const WINDOW_MS: u64 = 10_000;

/// A minute has so many windows.
const WINDOWS: usize = 6;

/// Gaps between datagrams, in milliseconds. Each sum and each count ends at 2^64 - 1.
#[derive(Clone, Copy)]
pub struct GapSums {
    /// How many there were.
    pub count: u64,
    /// Their sum.
    pub sum_ms: u64,
    /// The sum of how far each gap is from the one before.
    pub moved_ms: u64,
    /// The longest one.
    pub greatest_ms: u64,
}

/// The gaps that ended in a window of ten seconds.
#[derive(Clone, Copy)]
pub struct GapWindow {
    /// The number of the window, from 0 on.
    pub number: u64,
    pub sums: GapSums,
}

/// The gaps between the accepted datagrams of one connection.
#[derive(Clone, Copy)]
pub struct GapMeter {
    /// When the newest one came.
    pub last_ms: Option<u64>,
    /// The newest gap.
    pub gap_ms: u64,
    /// All gaps.
    pub whole: GapSums,
    /// Those of the newest windows, each at the place of the one six before it.
    pub windows: [GapWindow; WINDOWS],
}

impl GapMeter {
    /// No datagram has come.
    pub fn fresh() -> GapMeter
        ensures { result ≡ fresh_meter }
    {
        GapMeter {
            last_ms: None,
            gap_ms: 0,
            whole: GapSums::none(),
            windows: [
                fresh_window(0),
                fresh_window(1),
                fresh_window(2),
                fresh_window(3),
                fresh_window(4),
                fresh_window(5),
            ],
        }
    }

    /// The gaps after a datagram is accepted at this time: behind the first one a gap ends.
    pub fn came(self, ms: u64) -> GapMeter
        ensures { result ≡ came ms self }
    {
        match self.last_ms {
            Some(last) => {
                let gap = ms.saturating_sub(last);
                with_gap(self, ms, gap, moved_by(self, gap))
            }
            None => GapMeter {
                last_ms: Some(ms),
                ..self
            },
        }
    }

    /// The gaps that ended in the newest six windows: in the last 50 to 60 seconds.
    pub fn last_minute(self, ms: u64) -> GapSums
        ensures { result ≡ last_minute ms self }
    {
        recent_sums(&self.windows, window_of(ms))
    }
}

impl GapSums {
    /// No gap.
    fn none() -> GapSums
        ensures { result ≡ no_gaps }
    {
        GapSums {
            count: 0,
            sum_ms: 0,
            moved_ms: 0,
            greatest_ms: 0,
        }
    }

    /// With a gap that is so far from the one before.
    fn with_one(self, gap: u64, moved: u64) -> GapSums
        ensures { result ≡ with_one gap moved self }
    {
        GapSums {
            count: self.count.saturating_add(1),
            sum_ms: self.sum_ms.saturating_add(gap),
            moved_ms: self.moved_ms.saturating_add(moved),
            greatest_ms: self.greatest_ms.max(gap),
        }
    }

    /// These and others.
    fn both(self, other: GapSums) -> GapSums
        ensures { result ≡ both self other }
    {
        GapSums {
            count: self.count.saturating_add(other.count),
            sum_ms: self.sum_ms.saturating_add(other.sum_ms),
            moved_ms: self.moved_ms.saturating_add(other.moved_ms),
            greatest_ms: self.greatest_ms.max(other.greatest_ms),
        }
    }
}

/// A window without a gap.
fn fresh_window(number: u64) -> GapWindow
    ensures { result ≡ fresh_window number }
{
    GapWindow {
        number,
        sums: GapSums::none(),
    }
}

/// The gaps after one that ends at this time, and is so far from the one before.
fn with_gap(meter: GapMeter, ms: u64, gap: u64, moved: u64) -> GapMeter
    ensures { result ≡ with_gap ms gap moved meter }
{
    let mut windows = meter.windows;
    note_each(&mut windows, window_of(ms), gap, moved);
    GapMeter {
        last_ms: Some(ms),
        gap_ms: gap,
        whole: meter.whole.with_one(gap, moved),
        windows,
    }
}

/// The number of the window in which a time is.
fn window_of(ms: u64) -> u64
    ensures { result ≡ window_of ms }
{
    ms / WINDOW_MS
}

/// Notes a gap that ends in the window of this number.
fn note_each(windows: &mut [GapWindow], number: u64, gap: u64, moved: u64)
    ensures { windows.new ≡ map (window_after number gap moved) windows.old }
{
    for window in windows.iter_mut() {
        *window = window_after(*window, number, gap, moved);
    }
}

/// A place of windows after a gap that ends in the window of this number.
fn window_after(window: GapWindow, number: u64, gap: u64, moved: u64) -> GapWindow
    ensures { result ≡ window_after number gap moved window }
{
    if !is_place_of(&window, number) {
        return window;
    }
    GapWindow {
        number,
        sums: sums_in(&window, number).with_one(gap, moved),
    }
}

/// Whether the window of this number is at this place: at that of the one six before it.
fn is_place_of(window: &GapWindow, number: u64) -> bool
    ensures { result ≡ is_place_of number window.now }
{
    window.number % 6 == number % 6
}

/// What a place of windows has of the window of this number.
fn sums_in(window: &GapWindow, number: u64) -> GapSums
    ensures { result ≡ sums_in number window.now }
{
    if window.number == number {
        window.sums
    } else {
        GapSums::none()
    }
}

/// How far a gap is from the one before, if there was one.
fn moved_by(meter: GapMeter, gap: u64) -> u64
    ensures { result ≡ moved_by gap meter }
{
    if meter.whole.count == 0 {
        return 0;
    }
    gap.max(meter.gap_ms).saturating_sub(gap.min(meter.gap_ms))
}

/// The gaps that ended in the newest six windows, of which this is the last.
fn recent_sums(windows: &[GapWindow], newest: u64) -> GapSums
    ensures { result ≡ recent_sums newest windows.now no_gaps }
{
    let mut sums = GapSums::none();
    for window in windows {
        sums = with_recent(sums, window, newest);
    }
    sums
}

/// With the gaps of a window, if it is one of the newest six.
fn with_recent(sums: GapSums, window: &GapWindow, newest: u64) -> GapSums
    ensures { result ≡ with_recent newest window.now sums }
{
    if is_recent(window, newest) {
        sums.both(window.sums)
    } else {
        sums
    }
}

/// Whether a window is one of the newest six.
fn is_recent(window: &GapWindow, newest: u64) -> bool
    ensures { result ≡ is_recent newest window.now }
{
    newest.saturating_sub(window.number) < 6
}
