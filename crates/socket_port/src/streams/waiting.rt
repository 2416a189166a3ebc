//! Messages that wait to be taken.

ghost use Rattle.std.specs.Prelude.{◌≡◌, [], ◌∷◌, IfNone, IfSome};
ghost use Rattle.socket_port.specs.Streams.Nil.{is_nil};

use cip_encap::Message;
use std::alloc::Global;
use std::collections::VecDeque;
use std::marker::Model;

/// Messages that wait to be taken, in their order.
#[derive(Drop)]
pub struct MessageQueue {
    messages: VecDeque<Message>,
}

impl Model for MessageQueue {
    ghost use Rattle.std.specs.Prelude.{List, ℕ};

    ghost Value = { List (List ℕ) };

    ghost view = { λ w. w.messages.items };
}

impl MessageQueue {
    /// None. Takes no memory.
    pub(crate) fn none(alloc: Global) -> Self
        ensures { result ≡ [] }
    {
        MessageQueue {
            messages: VecDeque::new(alloc),
        }
    }

    /// These. Takes no memory.
    pub(crate) fn of(messages: Vec<Message>) -> Self
        ensures { result ≡ messages.items }
    {
        MessageQueue {
            messages: VecDeque::from_vec(messages),
        }
    }

    /// Takes the first one out.
    pub(crate) fn pop(&mut self) -> Option<Message>
        ensures none { IfNone result ((self.old ≡ []) × (self.new ≡ [])) }
        ensures some { IfSome result (λ message. self.old ≡ message ∷ self.new) }
    {
        self.messages.pop_front()
    }

    /// Whether there is none.
    pub(crate) fn is_empty(&self) -> bool
        ensures { result ≡ is_nil self.now }
    {
        self.messages.is_empty()
    }
}
