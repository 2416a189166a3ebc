//! Laws of class 3 connections and of requests to the application. A law call does nothing; its contract states the
//! law.

ghost use Rattle.std.specs.Prelude.{◌≡◌, ◌<◌, ℕ, List, Some, find, not, true};
ghost use Rattle.cip_types.specs.declared.ids.IdBlock.{IdBlock};
ghost use Rattle.cip_types.specs.declared.names.ConnId.{ConnId};
ghost use Rattle.cip_types.specs.declared.names.Ms.{Ms};
ghost use Rattle.messaging.specs.declared.class3.Class3Connection.{Class3Connection};
ghost use Rattle.messaging.specs.declared.table.Messaging.{Messaging};
ghost use Rattle.messaging.specs.Changes.{answered, executed, has_request_number, repeated};
ghost use Rattle.messaging.specs.Class3Connections.{executed_class3, is_class3, repeated_class3};
ghost use Rattle.messaging.specs.Lemmas.IdleLemmas.{IsCalm};
ghost use Rattle.messaging.specs.Sound.{EachOf, IsSoundMessaging};
ghost use Rattle.messaging.specs.Times.{first_moment, is_idle};

/// A message that was executed is from then on the last one of its connection, and its count repeats it. The
/// connection has the reply.
pub fn executed_messages_are_last()
    ensures { (ids : List IdBlock) (next_id : ℕ) (m : Messaging) (stream : ℕ) (id : ConnId) (count : ℕ) (reply : List ℕ)
        (deadline : Ms) (d : Class3Connection) → IsSoundMessaging ids next_id m
        → find (is_class3 stream id) m.class3_connections ≡ Some d
        → find (is_class3 stream id) (executed m id count reply deadline).class3_connections
        ≡ Some (executed_class3 count reply deadline d) }
{}

/// A message that is repeated changes nothing of its connection but the deadline.
pub fn repetitions_move_deadlines()
    ensures { (ids : List IdBlock) (next_id : ℕ) (m : Messaging) (stream : ℕ) (id : ConnId) (deadline : Ms)
        (d : Class3Connection)
        → IsSoundMessaging ids next_id m → find (is_class3 stream id) m.class3_connections ≡ Some d
        → find (is_class3 stream id) (repeated m id deadline).class3_connections
        ≡ Some (repeated_class3 deadline d) }
{}

/// A request that was answered waits no more.
pub fn answered_requests_wait_no_more()
    ensures { (m : Messaging) (number : ℕ)
        → EachOf (λ w. not (has_request_number number w) ≡ true) (answered m number).waiting }
{}

/// At a time at which no deadline has come nothing ends, and nothing changes.
pub fn idle_times_change_nothing()
    ensures { (ids : List IdBlock) (next_id : ℕ) (clock : Ms) (m : Messaging)
        → IsSoundMessaging ids next_id m → is_idle clock m ≡ true → IsCalm clock m }
{}

/// Before the first of the deadlines none has come.
pub fn earlier_times_are_idle()
    ensures { (clock : Ms) (m : Messaging) → clock.0 < first_moment m → is_idle clock m ≡ true }
{}
