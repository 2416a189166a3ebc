//! The key of a token.

ghost use Rattle.std.specs.Prelude.{◌≡◌, ℕ, ◌*◌, ◌≤◌, IfOk, IfSome, IfNone, IsTrue, ◌↔◌, slice_get, slice_set, vec_len};
ghost use Rattle.timer_wheel.specs.Hints as spec;
ghost use Rattle.timer_wheel.specs.Layout.{HasToken, Mirrors};

use crate::Token;
use crate::timer::Timer;
use cip_types::OutOfMemory;
use std::alloc::Global;

// 2^64 over the golden ratio: its multiples spread over the upper bits.
const SPREAD: u64 = 0x9E37_79B9_7F4A_7C15;

/// A cache of the key that each token was last armed at. An entry may be out of date, so the caller checks it.
#[derive(Drop)]
pub struct BucketHints {
    keys: Vec<usize>,
    // The number of dropped lower bits of a spread token.
    shift: u32,
}

impl BucketHints {
    /// An empty cache for this number of tokens, with at least four entries for each. OutOfMemory is the only fault.
    pub fn new(alloc: Global, tokens: usize) -> Result<Self, OutOfMemory>
        ensures { IfOk result (λ hints. 4 * tokens ≤ vec_len hints.keys) }
    {
        let places = tokens
            .saturating_mul(4)
            .checked_next_power_of_two()
            .ok_or(OutOfMemory)?;
        Ok(BucketHints {
            keys: vec![in alloc; 0; places]?,
            shift: places.leading_zeros().wrapping_add(1),
        })
    }

    // The index of a token's entry.
    fn hint_index(&self, token: Token) -> usize
        ensures { result ≡ spec.hint_index self.now.shift token.0 }
    {
        token.0.wrapping_mul(SPREAD).wrapping_shr(self.shift) as usize
    }

    /// Stores the key of a token.
    pub fn note(&mut self, token: Token, key: usize)
        ensures noted { let place = spec.hint_index self.old.shift token.0 in
            self.new.keys.items ≡ slice_set self.old.keys.items place key }
        ensures shift { self.new.shift ≡ self.old.shift }
    {
        let place = self.hint_index(token);
        if let Some(hint) = self.keys.get_mut(place) {
            *hint = key;
        }
    }

    /// The cached key of a token.
    pub fn guess(&self, token: Token) -> Option<usize>
        ensures { result ≡ slice_get self.now.keys.items (spec.hint_index self.now.shift token.0) }
    {
        self.keys.get(self.hint_index(token)).copied()
    }
}

// Whether a key has the timer of a token.
fn has_token(timers: &[Option<Timer>], token: Token, key: usize) -> bool
    ensures { IsTrue result ↔ HasToken timers.now token.0 key }
{
    match timers.get(key) {
        Some(Some(timer)) => timer.token == token,
        _ => false,
    }
}

/// The key of an armed token: the cached one if it is right, otherwise by a search of the tokens. None for a token
/// that is not armed.
pub fn key_of(
    timers: &[Option<Timer>],
    tokens: &[Token],
    hints: &BucketHints,
    token: Token,
) -> Option<usize>
    requires { Mirrors tokens.now timers.now }
    ensures found { IfSome result (HasToken timers.now token.0) }
    ensures absent { IfNone result ((key : ℕ) → ¬ HasToken timers.now token.0 key) }
{
    if let Some(key) = hints.guess(token)
        && has_token(timers, token, key)
    {
        return Some(key);
    }
    for (key, candidate) in tokens.iter().enumerate() {
        if *candidate == token && has_token(timers, token, key) {
            return Some(key);
        }
    }
    None
}
