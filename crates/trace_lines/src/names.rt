//! The names that are words.

ghost use Rattle.std.specs.Prelude.{◌≡◌};
ghost use Rattle.trace_words.specs.Reader.{unread_words, Takes, next_word};
ghost use Rattle.trace_lines.specs.Kinds.{action_of, action_word, kind_of, kind_word, multicast_of, trigger_of, mode_of, closers_of, openings_of};

use adapter_table::Action;
use cip_netparams::Trigger;
use cip_productions::Kind;
use trace_words::{TextFault, Words};

/// An action for an output, by its word.
#[tactic(auto, unfolding(crate::specs::Kinds::action_of))]
pub fn read_action(words: &mut Words<'_>) -> Result<Action, TextFault>
    ensures { Takes (next_word action_of (unread_words words.old)) result (unread_words words.new) }
{
    match words.word()? {
        "zero" => Ok(Action::Zero),
        "hold" => Ok(Action::Hold),
        _ => Err(TextFault::Bad),
    }
}

/// The word of an action for an output.
pub fn action_name(action: Action) -> &'static str
    ensures { result.now ≡ action_word action }
{
    match action {
        Action::Zero => "zero",
        Action::Hold => "hold",
    }
}

/// The kind of a connection, by its word.
#[tactic(auto, unfolding(crate::specs::Kinds::kind_of))]
pub fn read_kind(words: &mut Words<'_>) -> Result<Kind, TextFault>
    ensures { Takes (next_word kind_of (unread_words words.old)) result (unread_words words.new) }
{
    match words.word()? {
        "exclusive" => Ok(Kind::ExclusiveOwner),
        "input" => Ok(Kind::InputOnly),
        "listen" => Ok(Kind::ListenOnly),
        _ => Err(TextFault::Bad),
    }
}

/// The word of the kind of a connection.
pub fn kind_name(kind: Kind) -> &'static str
    ensures { result.now ≡ kind_word kind }
{
    match kind {
        Kind::ExclusiveOwner => "exclusive",
        Kind::InputOnly => "input",
        Kind::ListenOnly => "listen",
    }
}

/// Whether a target produces for a multicast group, by its word.
#[tactic(auto, unfolding(crate::specs::Kinds::multicast_of))]
pub fn read_multicast(words: &mut Words<'_>) -> Result<bool, TextFault>
    ensures { Takes (next_word multicast_of (unread_words words.old)) result (unread_words words.new) }
{
    match words.word()? {
        "p2p" => Ok(false),
        "multicast" => Ok(true),
        _ => Err(TextFault::Bad),
    }
}

/// The trigger of a target's productions, by its word.
#[tactic(auto, unfolding(crate::specs::Kinds::trigger_of))]
pub fn read_trigger(words: &mut Words<'_>) -> Result<Trigger, TextFault>
    ensures { Takes (next_word trigger_of (unread_words words.old)) result (unread_words words.new) }
{
    match words.word()? {
        "cyclic" => Ok(Trigger::Cyclic),
        "change" => Ok(Trigger::ChangeOfState),
        _ => Err(TextFault::Bad),
    }
}

/// Whether the application of a scanner runs, by its word.
#[tactic(auto, unfolding(crate::specs::Kinds::mode_of))]
pub fn read_mode(words: &mut Words<'_>) -> Result<bool, TextFault>
    ensures { Takes (next_word mode_of (unread_words words.old)) result (unread_words words.new) }
{
    match words.word()? {
        "run" => Ok(true),
        "idle" => Ok(false),
        _ => Err(TextFault::Bad),
    }
}

/// Which nodes close a connection: its own, by its word.
#[tactic(auto, unfolding(crate::specs::Kinds::closers_of))]
pub fn read_closers(words: &mut Words<'_>) -> Result<(), TextFault>
    ensures { Takes (next_word closers_of (unread_words words.old)) result (unread_words words.new) }
{
    match words.word()? {
        "own" => Ok(()),
        _ => Err(TextFault::Bad),
    }
}

/// The word before the number of openings.
#[tactic(auto, unfolding(crate::specs::Kinds::openings_of))]
pub fn read_openings(words: &mut Words<'_>) -> Result<(), TextFault>
    ensures { Takes (next_word openings_of (unread_words words.old)) result (unread_words words.new) }
{
    match words.word()? {
        "openings" => Ok(()),
        _ => Err(TextFault::Bad),
    }
}
