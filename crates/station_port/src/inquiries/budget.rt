//! How many inquiries a device is given.

ghost use Rattle.std.specs.Prelude.{◌≡◌};
ghost use Rattle.station_port.specs.Inquiries.Asking.{admits, budget_after, given_in};

/// The milliseconds of a second.
const SECOND_MS: u64 = 1_000;

/// A device is given at most so many inquiries in each second. Others are dropped, so that no flood of them fills a record.
pub const MOST_IN_A_SECOND: u32 = 32;

/// The inquiries that a device was given in a second.
#[derive(Clone, Copy)]
pub struct InquiryBudget {
    second: u64,
    given: u32,
}

impl InquiryBudget {
    /// None was given.
    pub fn begin() -> InquiryBudget
        ensures { result ≡ record { second = 0; given = 0 } }
    {
        InquiryBudget {
            second: 0,
            given: 0,
        }
    }

    /// Whether the device may be given another inquiry at this time, which is counted then.
    pub fn admits(&mut self, now_ms: u64) -> bool
        ensures answer { result ≡ admits self.old now_ms }
        ensures counted { self.new ≡ budget_after self.old now_ms }
    {
        let given = self.given_in(now_ms / SECOND_MS);
        self.second = now_ms / SECOND_MS;
        let is_admitted = given < MOST_IN_A_SECOND;
        self.given = if is_admitted { given + 1 } else { given };
        is_admitted
    }

    /// How many were given in a second: none, if that has just begun.
    fn given_in(&self, second: u64) -> u32
        ensures { result ≡ given_in self.now second }
    {
        if self.second == second { self.given } else { 0 }
    }
}
