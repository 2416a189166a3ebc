//! What becomes of a datagram.

ghost use Rattle.std.specs.Prelude.{◌≡◌};
ghost use Rattle.port_faults.specs.Impairments.{are_none, delay_of, impairment_of, is_drawn, state_at, word_at};

use rand_core::SeedableRng;
use rand_core::utils::NextWord;
use rand_xoshiro::SplitMix64;

/// What SplitMix64 adds to its state at each word.
const STEP: u64 = 0x9e37_79b9_7f4a_7c15;

/// How often datagrams are lost, repeated and overtaken, and how long they wait.
#[derive(Clone, Copy, PartialEq, Eq)]
pub struct FaultRates {
    /// The percentage of the datagrams that are lost.
    pub lose: u8,
    /// The percentage that arrive twice.
    pub repeat: u8,
    /// The percentage that the next one overtakes.
    pub reorder: u8,
    /// The most milliseconds that a datagram waits.
    pub delay_ms: u16,
    /// The seed: another one, other datagrams.
    pub seed: u64,
}

/// What becomes of a datagram.
#[derive(Clone, Copy, PartialEq, Eq)]
pub struct DatagramImpairment {
    pub lost: bool,
    pub repeated: bool,
    pub overtaken: bool,
    pub delay_ms: u64,
}

impl FaultRates {
    /// Whether nothing becomes of any datagram.
    pub fn are_none(&self) -> bool
        ensures { result ≡ are_none self.now }
    {
        self.lose == 0 && self.repeat == 0 && self.reorder == 0 && self.delay_ms == 0
    }

    /// What becomes of the datagram of this number, from 0.
    pub fn impairment_of(&self, number: u64) -> DatagramImpairment
        ensures { result ≡ impairment_of self.now number }
    {
        let word = word_at(self.seed, number);
        DatagramImpairment {
            lost: is_drawn(word, self.lose),
            repeated: is_drawn(word / 65_536, self.repeat),
            overtaken: is_drawn(word / 4_294_967_296, self.reorder),
            delay_ms: delay_of(word / 281_474_976_710_656, self.delay_ms),
        }
    }
}

/// The state of SplitMix64 of a seed behind so many words.
fn state_at(seed: u64, number: u64) -> u64
    ensures { result ≡ state_at seed number }
{
    seed.wrapping_add(number.wrapping_mul(STEP))
}

/// The word of this number, from 0, of SplitMix64 of a seed.
fn word_at(seed: u64, number: u64) -> u64
    ensures { result ≡ word_at seed number }
{
    SplitMix64::seed_from_u64(state_at(seed, number)).next_word()
}

/// Whether the lowest 16 bits of a word are drawn by a percentage.
fn is_drawn(word: u64, percent: u8) -> bool
    ensures { result ≡ is_drawn word percent }
{
    word % 65_536 % 100 < u64::from(percent)
}

/// The wait that a word draws: 0 to so many milliseconds.
fn delay_of(word: u64, most_ms: u16) -> u64
    ensures { result ≡ delay_of word most_ms }
{
    word % 65_536 % (u64::from(most_ms) + 1)
}
