//! Who is served by threads that each serve one at a time. Nobody waits for a thread that serves somebody else: who comes while
//! each thread is busy is turned away at once, and makes nobody else go.

ghost use Rattle.std.specs.Prelude.{◌≡◌};
ghost use Rattle.page_server.specs.IdleThreads.{WasOffered, after_call, first_of, fresh_threads, with_idle};

use std::alloc::Global;
use std::marker::Model;

/// What became of somebody who came.
pub(crate) enum Offered<T> {
    /// A thread serves it next.
    Taken,
    /// Each thread is busy, or has somebody to serve.
    Full(T),
    /// An allocation was refused.
    OutOfMemory(T),
}

/// The threads that wait for somebody, and those who wait for one of them, in the order in which they came. They are never more
/// than the threads that wait.
#[derive(Drop)]
pub(crate) struct IdleThreads<T> {
    idle: usize,
    waiting: Vec<T>,
}

impl<T> Model for IdleThreads<T> {
    ghost use Rattle.page_server.specs.IdleThreads.{IdleThreads};
    ghost use Rattle.std.specs.Prelude.{◌≤◌, length};

    ghost Value = { IdleThreads T };

    ghost view = { λ p. record { idle = p.idle; waiting = p.waiting.items } };

    ghost invariant = { λ p. length p.waiting.items ≤ p.idle };
}

impl<T: Drop> IdleThreads<T> {
    /// No thread waits, and nobody. Takes no memory.
    pub(crate) fn new(alloc: Global) -> IdleThreads<T>
        ensures { result ≡ fresh_threads }
    {
        IdleThreads {
            idle: 0,
            waiting: Vec::new(alloc),
        }
    }

    /// Somebody comes: it is served next if a thread waits that nobody waits for, and else turned away.
    pub(crate) fn offer(&mut self, one: T) -> Offered<T>
        ensures { WasOffered self.old one result self.new }
    {
        if self.waiting.len() >= self.idle {
            return Offered::Full(one);
        }
        if self.waiting.reserve(1).is_err() {
            return Offered::OutOfMemory(one);
        }
        self.waiting.push(one).unwrap();
        Offered::Taken
    }

    /// A thread begins to wait.
    pub(crate) fn begin_wait(&mut self)
        ensures { self.new ≡ with_idle self.old }
    {
        self.idle = self.idle.saturating_add(1);
    }

    /// Whether nobody waits for a thread.
    pub(crate) fn is_empty(&self) -> bool {
        self.waiting.is_empty()
    }

    /// A thread that waits takes who came first.
    pub(crate) fn call(&mut self) -> Option<T>
        ensures one { result ≡ first_of self.old.waiting }
        ensures rest { self.new ≡ after_call self.old }
    {
        if self.waiting.is_empty() {
            return None;
        }
        self.idle -= 1;
        Some(self.waiting.remove(0))
    }
}
