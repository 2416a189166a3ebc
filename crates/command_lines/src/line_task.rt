//! The task that a command line requests.

ghost use Rattle.std.specs.Prelude.{◌≡◌, map, codes, Ok, Err, IfOk, None, Some};
ghost use Rattle.command_lines.specs.LineTasks.{IsAlone, Requests, is_alone, is_named, is_second, task_of};

use crate::line_commands::parse;
use std::alloc::{AllocError, Global};
use std::convert::AsStr;
use thiserror::Error;

/// The task that a command line requests.
#[derive(Clone, Copy)]
pub enum Task {
    /// Steps a device by the lines of the input.
    Step,
    /// Runs an adapter and a scanner over sockets of this host.
    Loop(LoopTask),
    /// Runs an adapter and scanners, each in a thread of its own, and settles what they did.
    Line(LineTask),
    /// Prints the program's version.
    Version,
}

/// The ports of an adapter and a scanner, and the number of turns of each.
#[derive(Clone, Copy)]
pub struct LoopTask {
    /// The adapter's port of TCP.
    pub tcp: u16,
    /// The adapter's port of UDP. The scanner's is the next one.
    pub udp: u16,
    /// The number of turns of each device.
    pub turns: u32,
}

/// The number of scanners beside the adapter, and how many ticks of a millisecond each device has.
#[derive(Clone, Copy)]
pub struct LineTask {
    pub scanners: u8,
    pub ticks: u32,
}

/// Why a command line requests no task.
#[derive(Clone, Copy, Debug, PartialEq, Eq, Error)]
pub enum Misuse {
    /// It is none of the program's, or requests help.
    #[error("no command line of the program")]
    Usage,
    /// An allocation was refused.
    #[error("no memory")]
    OutOfMemory,
}

impl From<AllocError> for Misuse {
    ghost use Rattle.command_lines.specs.declared.line_task.Misuse.TheVariants as misuse;

    ghost from_gives = { λ _ given. given ≡ misuse.OutOfMemory };

    fn from(_error: AllocError) -> Misuse {
        Misuse::OutOfMemory
    }
}

/// The task that the words request. The first word is the program's own name, and the next one the command's. The word
/// `step` is taken alone, and never refused; so is `--version`.
///
/// `Usage` comes exactly where the words request no task and memory was not refused; `OutOfMemory` only where it was.
#[tactic(auto, using(crate::proofs::Lines::step_is, crate::proofs::Lines::version_is, crate::proofs::Lines::alone_is, crate::proofs::Lines::alone_of, crate::proofs::Lines::named_requests, crate::proofs::Lines::read_is, crate::proofs::Lines::other_is, crate::proofs::Lines::none_is))]
pub fn read_line_task<S: AsStr>(alloc: Global, words: &[S]) -> Result<Task, Misuse>
    ensures requests { IfOk result (Requests (map S.text words.now)) }
    ensures step { IsAlone (map S.text words.now) (codes "step") → result ≡ Ok Task.Step }
    ensures version { IsAlone (map S.text words.now) (codes "--version") → result ≡ Ok Task.Version }
    ensures task { IfOk result (λ task. task_of (map S.text words.now) ≡ Some task) }
    ensures usage { result ≡ Err Misuse.Usage → task_of (map S.text words.now) ≡ None }
{
    if is_alone(words, "step") {
        return Ok(Task::Step);
    }
    if is_alone(words, "--version") {
        return Ok(Task::Version);
    }
    match parse(alloc, words) {
        Ok(task) if is_named(words, task) => Ok(task),
        Ok(_) => Err(Misuse::Usage),
        Err(misuse) => Err(misuse),
    }
}

/// Whether the words are the program's name and this word, and nothing else.
fn is_alone<S: AsStr>(words: &[S], word: &str) -> bool
    ensures { result ≡ is_alone (map S.text words.now) word.now }
{
    words.len() == 2 && is_second(words, word)
}

/// Whether this word is the second.
fn is_second<S: AsStr>(words: &[S], word: &str) -> bool
    ensures { result ≡ is_second (map S.text words.now) word.now }
{
    let Some(given) = words.get(1) else {
        return false;
    };
    given.as_str() == word
}

/// Whether the command's word is that of the task.
fn is_named<S: AsStr>(words: &[S], task: Task) -> bool
    ensures { result ≡ is_named (map S.text words.now) task }
{
    match task {
        Task::Step => is_alone(words, "step"),
        Task::Loop(_) => is_second(words, "loop"),
        Task::Line(_) => is_second(words, "line"),
        Task::Version => is_alone(words, "--version"),
    }
}
