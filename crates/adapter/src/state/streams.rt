//! Streams of peers, and their sessions.

ghost use Rattle.std.specs.Prelude.{◌≡◌};
ghost use Rattle.cip_events.specs.Outcomes.{Follows};
ghost use Rattle.adapter_table.specs.Streams.{stream_opened, without_stream, registered_table};

use super::AdapterState;
use adapter_table::laws::tables_are_whole;
use adapter_table::{is_taken, register_stream};
use cip_tables::{Answer, Outcome, StepFault, Stream, Verdict};
use cip_types::{Node, add_stream, drop_stream};
use indexed_connections::ConnectionTable;

impl<T: ConnectionTable> AdapterState<T> {
    /// A peer opens a stream.
    #[tactic(auto, unfolding(adapter_table::specs::Streams::stream_opened, adapter_table::specs::Streams::with_stream))]
    pub fn open_stream(&mut self, number: u16, peer: Node) -> Outcome
        ensures { Follows (stream_opened self.old number peer) self.old result self.new }
    {
        if is_taken(&self.streams, number) {
            return Err(StepFault::NotAllowedNow);
        }
        // The table stays whole.
        tables_are_whole();
        let stream = Stream {
            number,
            peer,
            registered: false,
        };
        add_stream(&mut self.streams, stream)?;
        Ok(Answer::plain(self.alloc, Verdict::Done))
    }

    /// The stream is not open any more, and its class 3 connections have ended.
    #[tactic(auto, unfolding(adapter_table::specs::Streams::without_stream))]
    pub fn drop_stream(&mut self, number: u16)
        ensures { self.new ≡ without_stream self.old number }
    {
        // The table stays whole.
        tables_are_whole();
        drop_stream(&mut self.streams, number);
        self.messaging.end_stream(number);
    }

    /// A session is registered on the stream.
    #[tactic(auto, unfolding(adapter_table::specs::Streams::registered_table))]
    pub fn register_stream(&mut self, number: u16)
        ensures { self.new ≡ registered_table self.old number }
    {
        // The table stays whole.
        tables_are_whole();
        register_stream(&mut self.streams, number);
    }
}
