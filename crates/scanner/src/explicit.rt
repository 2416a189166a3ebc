//! Explicit requests of the application, and the replies to them.

ghost use Rattle.std.specs.Prelude.{Ok};
ghost use Rattle.cip_encap.specs.Message.{view_message};
ghost use Rattle.cip_events.specs.Outcomes.{Follows};
ghost use Rattle.scanner_table.specs.Explicit.{explicit_request, explicit_answered, explicit_reply};
ghost use Rattle.scanner_table.specs.WellFormed.{IsWellFormed};
ghost use Rattle.scanner_slots.specs.declared.bounds.Bounds.{Bounds};
ghost use Rattle.scanner_slots.specs.Bounding.{IsHinted};
ghost use Rattle.scanner.specs.Tables.{table_in};

use crate::slots::ScannerSlots;
use cip_encap::MessageView;
use cip_events::{Answer, Outcome, Verdict};
use cip_types::{Items, Node};
use explicit_requests::{
    add_pending, explicit_frame, pending_explicit, remove_pending, reply_answer, session_for,
};
use scanner_table::PendingExplicit;

impl ScannerSlots {
    /// Sends a request of the application to the message router of a target.
    pub fn request_explicit(&mut self, target: Node, number: u32, bytes: &[u8]) -> Outcome
        requires { IsWellFormed (table_in self.old) }
        ensures step { Follows (explicit_request (table_in self.old) target number bytes.now) (table_in self.old) result
            (table_in self.new) }
        ensures hints { (bounds : Bounds) → IsHinted bounds (table_in self.old) → IsHinted bounds (table_in self.new) }
    {
        let session = match session_for(&self.profile, &self.state, target, number, bytes) {
            Ok(session) => session,
            Err(why) => return Err(why),
        };
        let pending = pending_explicit(&self.profile, &self.state, session, number, bytes);
        let frame = explicit_frame(self.alloc, session, pending.request, bytes)?;
        let frames = Items::one(self.alloc, frame)?;
        add_pending(&mut self.state.explicit, pending)?;
        self.state.next_request += 1;
        Ok(Answer {
            frames,
            ..Answer::plain(self.alloc, Verdict::Done)
        })
    }

    /// Takes the message of a target that ends a request.
    pub fn take_reply(&mut self, pending: PendingExplicit, message: &MessageView<'_>) -> Outcome
        ensures step { let said = explicit_reply pending.service (view_message message.now) in Follows
            (Ok (explicit_answered (table_in self.old) pending said)) (table_in self.old) result (table_in self.new) }
        ensures hints { (bounds : Bounds) → IsHinted bounds (table_in self.old) → IsHinted bounds (table_in self.new) }
    {
        let answer = reply_answer(self.alloc, pending, message)?;
        remove_pending(&mut self.state.explicit, pending.request);
        Ok(answer)
    }
}
