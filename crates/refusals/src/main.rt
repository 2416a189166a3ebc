//! Refuses memory: makes each call that takes memory with its first request refused, then with its second, and so on,
//! until none is refused. A refused call has to answer that it is out of memory and to leave what it is made on as it
//! was, and the call that passes has to return what it returns where nothing was refused.
//!
//! First the codecs; then the traces whose files the command line names: as text, over a plain device, in a book of it, and
//! through `run`. The fast devices are of `tools/play/c_memory.c`; networks, records that settle, and outcomes as lines are of
//! `tools/play/refusals`, which refuses a request of a whole run of a program.
//!
//! The requests are refused by `tools/play/refuse.c`, which is loaded before the C library (`tools/play/refusals` does so). Without
//! it none is refused, and the program prints that.
#![tactic(auto)]

mod arming;
mod books;
mod calls;
mod codecs;
mod devices;
mod runs;
mod texts;
mod traces;

use calls::{Difference, Refusals};
use codecs::refuse_codecs;
use std::alloc::Global;
use std::env;
use std::fs::Files;
use std::process::ExitCode;
use traces::refuse_file;

/// Prints how many requests were refused in the codecs and in each trace.
fn main(rt: HostRuntime) -> ExitCode {
    let words = match env::args(&rt) {
        Ok(words) => words.collect::<Vec<String>>(rt.alloc()),
        Err(_) => return ExitCode::from(2),
    };
    match words {
        Ok(words) if is_all_printed(&rt, words.as_slice()) => ExitCode::SUCCESS,
        _ => ExitCode::FAILURE,
    }
}

/// Prints how many requests were refused in all, and whether there was no difference.
fn is_all_printed<R: AllocGlobal + Files + Print>(rt: &R, words: &[String]) -> bool {
    let mut good = are_codecs_printed(rt, rt.alloc());
    for name in words.iter().skip(1) {
        let mut refusals = none_yet(rt.alloc());
        let refused = refuse_file(rt, name.as_str(), &mut refusals);
        good &= is_printed(rt, name.as_str(), &refusals, refused);
    }
    good
}

/// Prints how many requests were refused in the codecs, and whether there was no difference.
fn are_codecs_printed<R: Print>(rt: &R, alloc: Global) -> bool {
    let mut refusals = none_yet(alloc);
    let refused = refuse_codecs(&mut refusals);
    is_printed(rt, "codecs", &refusals, refused)
}

/// No refusals yet.
fn none_yet(alloc: Global) -> Refusals {
    Refusals { alloc, count: 0 }
}

/// Prints how many requests were refused, or the difference, and whether there was none.
fn is_printed<R: Print>(
    rt: &R,
    name: &str,
    refusals: &Refusals,
    refused: Result<(), Difference>,
) -> bool {
    let count = refusals.count;
    match refused {
        Ok(()) => println!(rt; "{name}: refused {count}").is_ok(),
        Err(difference) => {
            let _ = println!(rt; "{name}: {difference}, after {count} refusals");
            false
        }
    }
}
