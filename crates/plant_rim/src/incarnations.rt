//! The incarnations of the lives of a plant's devices.

ghost use Rattle.std.specs.Prelude.{◌≡◌, ◌<◌, ◌≤◌};
ghost use Rattle.plant_rim.specs.Incarnations.{AreSpans, next_of, span_of};

/// The most devices of which each has at least two incarnations of its own.
pub const MOST_SPANS: usize = 127;

/// The incarnations of one device of a plant, which no other device has: they are spread evenly over 1 to 255.
#[derive(Clone, Copy, PartialEq, Eq)]
pub struct IncarnationSpan {
    pub first: u8,
    pub last: u8,
}

impl IncarnationSpan {
    /// Those of the device of this number, from 0, of so many devices.
    pub fn of(device: usize, devices: usize) -> IncarnationSpan
        requires device { device < devices }
        requires devices { devices ≤ 127 }
        ensures { result ≡ span_of device devices }
    {
        IncarnationSpan {
            first: (device * 255 / devices + 1) as u8,
            last: ((device + 1) * 255 / devices) as u8,
        }
    }

    /// The incarnation of a device's next life: the next one of its span, whose last one is followed by its first.
    pub fn next(&self, incarnation: u8) -> u8
        ensures { result ≡ next_of self.now incarnation }
    {
        if incarnation < self.first || incarnation >= self.last {
            self.first
        } else {
            incarnation + 1
        }
    }
}

/// The devices of a plant have incarnations of their own, each at least two of 1 to 255, and no two devices have the same.
pub fn spans_are_apart()
    ensures { AreSpans }
{}
