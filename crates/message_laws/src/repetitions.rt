//! A message of a class 3 connection that comes again gets what was sent for it.

ghost use Rattle.message_laws.specs.Executions.{MessagesAreExecutedOnce};
ghost use Rattle.message_laws.specs.Repetitions.{RepetitionsGetWhatWasSent, WhatIsSentGoesOut};

use adapter_table::laws::tables_are_whole;

/// Every repetition of a message of a class 3 connection, until its next one, gets byte for byte what was last sent for it, and
/// executes nothing.
///
/// - `repeated`: an event asks on a connection, with any count. Any events follow, over this stream or another one: ticks, answers of
///   the application, repetitions, messages of other connections. None asks on the connection by another count, and it does not end.
///   Then a message of that count, with whatever bytes, is answered by the frame that was last sent for it, or by nothing if none was
///   yet. Its verdict is a duplicate. Nothing is noticed or asked, and all of the table but the connection's deadline stays.
/// - `sent`: what counts as sent for a message is among the frames of that event's answer: those that answer the message, those of
///   the application's answer to it, and the reply of a tick in place of the application.
///
/// The law speaks of every run from a whole table. A frame whose options are not 0 brings no message to a device that is described.
///
/// Volume 1, chapter 3, transport class 3.
pub fn repetitions_get_what_was_sent()
    ensures repeated { RepetitionsGetWhatWasSent }
    ensures sent { WhatIsSentGoesOut }
{
    tables_are_whole();
}

/// Of the messages that are executed on a class 3 connection one after the other the sequence counts differ. So a message that comes
/// again is executed once.
///
/// That a message is executed is read off what its event does while the connection is open: it reports something, the application is
/// asked, or the connection notes another last message. The law speaks of every run from a whole table, from an event on that asks on
/// the connection.
///
/// Volume 1, chapter 3, transport class 3.
pub fn messages_are_executed_once_in_turn()
    ensures { MessagesAreExecutedOnce }
{
    tables_are_whole();
}
