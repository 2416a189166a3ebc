//! How much of a plant is at work.

ghost use Rattle.std.specs.Prelude.{◌≡◌};
ghost use Rattle.plant_rim.specs.Counts.{begun, left, record_begun, record_written};

/// The devices that live, the scanners among them, and the records that are not written to their ends.
#[derive(Clone, Copy, Debug, PartialEq, Eq)]
pub struct PlantCounts {
    pub devices: u32,
    pub scanners: u32,
    pub records: u32,
}

impl PlantCounts {
    /// Nothing is at work.
    pub fn none() -> PlantCounts
        ensures { result ≡ record { devices = 0; scanners = 0; records = 0 } }
    {
        PlantCounts {
            devices: 0,
            scanners: 0,
            records: 0,
        }
    }

    /// A device begins to live.
    pub fn begin(&mut self, scanner: bool)
        ensures { self.new ≡ begun scanner self.old }
    {
        self.devices = self.devices.saturating_add(1);
        if scanner {
            self.scanners = self.scanners.saturating_add(1);
        }
    }

    /// A device lives no more.
    pub fn leave(&mut self, scanner: bool)
        ensures { self.new ≡ left scanner self.old }
    {
        self.devices = self.devices.saturating_sub(1);
        if scanner {
            self.scanners = self.scanners.saturating_sub(1);
        }
    }

    /// A record begins.
    pub fn begin_record(&mut self)
        ensures { self.new ≡ record_begun self.old }
    {
        self.records = self.records.saturating_add(1);
    }

    /// A record is written to its end.
    pub fn leave_record(&mut self)
        ensures { self.new ≡ record_written self.old }
    {
        self.records = self.records.saturating_sub(1);
    }
}
