//! Calls with each of their requests for memory refused in turn.

use crate::arming::{arm, disarm};
use cip_types::OutOfMemory;
use std::alloc::Global;
use thiserror::Error;

/// How calls with refusals differ from the same calls without, or why none were made.
#[derive(Clone, Copy, Debug, PartialEq, Eq, Error)]
pub enum Difference {
    #[error("no file")]
    NoFile,
    #[error("no trace")]
    NoTrace,
    #[error("out of memory where no request was refused")]
    OutOfMemory,
    #[error("a request was refused, and the call did not answer out of memory")]
    Unanswered,
    #[error("a refused call changed something")]
    Changed,
    #[error("another result after refusals")]
    Result,
    #[error("refused without end")]
    Endless,
}

impl From<OutOfMemory> for Difference {
    fn from(_refused: OutOfMemory) -> Difference {
        Difference::OutOfMemory
    }
}

/// A kind of call that takes memory.
pub trait MemoryCall {
    /// What the call is made on.
    type On;

    /// What the call takes beside memory.
    type Input;

    /// What the call returns.
    type Given: Drop;

    /// Makes the call. `OutOfMemory` if a request for memory was refused.
    fn make(
        alloc: Global,
        on: &mut Self::On,
        input: &Self::Input,
    ) -> Result<Self::Given, OutOfMemory>;

    /// Whether two calls returned the same.
    fn is_same(given: &Self::Given, expected: &Self::Given) -> Result<bool, OutOfMemory>;

    /// Whether two values on which the call is made are alike.
    fn is_like(on: &Self::On, twin: &Self::On) -> Result<bool, OutOfMemory>;
}

/// Calls that are made one after another on one value.
pub trait Trial {
    /// What the calls are made on.
    type On: Drop;

    /// What decides the calls.
    type Input;

    /// Makes a value for the calls.
    fn begin(alloc: Global, input: &Self::Input) -> Result<Self::On, OutOfMemory>;

    /// Makes the calls on a value and its twin.
    fn refuse(
        refusals: &mut Refusals,
        on: &mut Self::On,
        twin: &mut Self::On,
        input: &Self::Input,
    ) -> Result<(), Difference>;
}

/// No call and no run makes so many requests for memory.
pub const MOST_REQUESTS: usize = 100_000;

/// The number of requests that were refused.
#[derive(Clone, Copy)]
pub struct Refusals {
    pub alloc: Global,
    pub count: u64,
}

impl Refusals {
    /// Makes a call with its first request refused, then with its second, and so on, until none is refused; and once on a
    /// twin, where none is. Each refused call has to answer `OutOfMemory` and to leave what it is made on as its twin is.
    /// The call that passes has to return what the twin's call returns, and to leave the two alike.
    pub fn in_call<C: MemoryCall>(
        &mut self,
        on: &mut C::On,
        twin: &mut C::On,
        input: &C::Input,
    ) -> Result<(), Difference> {
        for nth in 0..MOST_REQUESTS {
            match attempt::<C>(self.alloc, on, input, nth + 1)? {
                Some(given) => {
                    compare::<C>(self.alloc, twin, input, &given)?;
                    return compare_values::<C>(on, twin);
                }
                None => compare_values::<C>(on, twin)?,
            }
            self.count = self.count.saturating_add(1);
        }
        Err(Difference::Endless)
    }

    /// Makes a call for each input in turn, as `in_call` does.
    pub fn in_calls<C: MemoryCall>(
        &mut self,
        on: &mut C::On,
        twin: &mut C::On,
        inputs: &[C::Input],
    ) -> Result<(), Difference> {
        for input in inputs {
            self.in_call::<C>(on, twin, input)?;
        }
        Ok(())
    }

    /// Makes the calls of a trial on a fresh value and a twin of it.
    pub fn in_trial<T: Trial>(&mut self, input: &T::Input) -> Result<(), Difference> {
        match (T::begin(self.alloc, input), T::begin(self.alloc, input)) {
            (Ok(mut on), Ok(mut twin)) => T::refuse(self, &mut on, &mut twin, input),
            _ => Err(Difference::OutOfMemory),
        }
    }
}

/// One call with its nth request refused. None if it was refused, and the call answered so.
fn attempt<C: MemoryCall>(
    alloc: Global,
    on: &mut C::On,
    input: &C::Input,
    nth: usize,
) -> Result<Option<C::Given>, Difference> {
    arm(alloc, nth);
    let given = C::make(alloc, on, input);
    match (given, disarm(alloc)) {
        (Ok(given), false) => Ok(Some(given)),
        (Ok(_), true) => Err(Difference::Unanswered),
        (Err(OutOfMemory), true) => Ok(None),
        (Err(OutOfMemory), false) => Err(Difference::OutOfMemory),
    }
}

/// Makes the twin's call, and compares what the two calls returned.
fn compare<C: MemoryCall>(
    alloc: Global,
    twin: &mut C::On,
    input: &C::Input,
    given: &C::Given,
) -> Result<(), Difference> {
    let expected = C::make(alloc, twin, input)?;
    if C::is_same(given, &expected)? {
        return Ok(());
    }
    Err(Difference::Result)
}

/// Compares what a call is made on with its twin.
fn compare_values<C: MemoryCall>(on: &C::On, twin: &C::On) -> Result<(), Difference> {
    if C::is_like(on, twin)? {
        return Ok(());
    }
    Err(Difference::Changed)
}

/// A value that can be compared.
pub trait Compared {
    /// Whether the two are the same.
    fn is_same_as(&self, other: &Self) -> bool;
}

/// Whether two values that were made are the same.
pub fn are_same<T: Compared + Drop>(
    one: Result<T, OutOfMemory>,
    other: Result<T, OutOfMemory>,
) -> Result<bool, OutOfMemory> {
    match (one, other) {
        (Ok(one), Ok(other)) => Ok(one.is_same_as(&other)),
        _ => Err(OutOfMemory),
    }
}
