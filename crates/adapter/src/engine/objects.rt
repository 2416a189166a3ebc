//! Services of objects beside the Connection Manager, and inquiries.

ghost use Rattle.std.specs.Prelude.{◌≡◌, ◌≤◌, Ok, Some, None, IfOk, false, ◌==◌, ◌&&◌, length};
ghost use Rattle.std.specs.Option.{option_map};
ghost use Rattle.adapter_replies.specs.Messages.{object_fields, object_notices};
ghost use Rattle.adapter_replies.specs.Routes.{kept_text, routed_answer};
ghost use Rattle.adapter_replies.specs.Serving.{finished};
ghost use Rattle.cip_events.specs.Outcomes.{Follows};
ghost use Rattle.adapter_table.specs.Objects.{alone_answer, connection_count};
ghost use Rattle.adapter_table.specs.Rows.{kind_count};
ghost use Rattle.adapter_table.specs.Inquiries.{inquiry_reply, inquired};
ghost use Rattle.adapter_table.specs.Carrying.{object_answer};
ghost use Rattle.adapter_table.specs.Requests.{served_object};
ghost use Rattle.adapter_replies.specs.Objects.Views.{view_answer};

use super::Adapter;
use adapter_replies::{
    ConnectionFacts, ObjectAnswer, ObjectRequest, Route, assembly_answer, described_answer,
    has_inquiry_length, inquiry_answer, manager_answer, object_notices, object_reply,
    reply_and_text,
};
use cip_epath::class::{ASSEMBLY, CONNECTION_MANAGER};
use cip_events::Recipient;
use cip_productions::Kind;
use cip_tables::{Answer, Outcome, Status, Verdict};
use cip_types::{Node, OutOfMemory};
use indexed_connections::ConnectionTable;

// OBJECTS

impl<T: ConnectionTable> Adapter<T> {
    /// How many established connections of an application type there are: at most 64.
    #[tactic(auto, using(adapter_table::specs::Lemmas::ObjectSizes::kind_few))]
    fn kind_count(&self, kind: Kind) -> usize
        ensures value { result ≡ kind_count self.now.rows kind }
        ensures few { result ≤ 64 }
    {
        // Gives the prover that there are few connections.
        self.state.is_whole();
        self.state.connections().kind_count(kind)
    }

    /// How many connections there are: the established ones of class 1, and those of class 3.
    fn connection_count(&self) -> usize
        ensures { result ≡ connection_count self.now.rows self.now.messaging }
    {
        // Gives the prover that there are few connections of class 3.
        self.state.is_whole();
        let class3 = self.state.messaging().class3_connections().len();
        let listeners = self.kind_count(Kind::ListenOnly) + class3;
        let readers = self.kind_count(Kind::InputOnly) + listeners;
        self.kind_count(Kind::ExclusiveOwner) + readers
    }

    /// What the device answers to a service of another object than an assembly. Without a description it has none.
    fn described_answer(
        &self,
        class: u32,
        instance: u32,
        request: ObjectRequest<'_>,
    ) -> Result<ObjectAnswer<'_>, OutOfMemory>
        requires assembly { (class == 0x04) ≡ false }
        requires manager { (instance == 1 && class == 0x06) ≡ false }
        ensures { IfOk result (λ answer. view_answer answer
            ≡ alone_answer self.now request.entry.service class instance request.entry.attribute
            request.entry.body.now) }
    {
        let Some(description) = &self.state.profile().description else {
            return Ok(ObjectAnswer::Denied(Status::PathDestination));
        };
        let facts = ConnectionFacts {
            io: self.state.connections().io_state(),
            count: self.connection_count(),
            link: self.state.counters().link.as_slice(),
        };
        described_answer(
            self.state.alloc(),
            self.state.assemblies(),
            facts,
            description,
            class,
            instance,
            request,
        )
    }

    /// What the device answers to a service of an object that carries no request.
    #[tactic(auto, using(adapter_replies::specs::Objects::SaidLaws::assembly_is, adapter_replies::specs::Objects::SaidLaws::manager_is))]
    pub(crate) fn alone_answer(
        &self,
        class: u32,
        instance: u32,
        request: ObjectRequest<'_>,
    ) -> Result<ObjectAnswer<'_>, OutOfMemory>
        ensures { IfOk result (λ answer. view_answer answer
            ≡ alone_answer self.now request.entry.service class instance request.entry.attribute
            request.entry.body.now) }
    {
        if class == ASSEMBLY {
            return assembly_answer(
                self.state.alloc(),
                self.state.assemblies(),
                instance,
                request,
            );
        }
        if instance == 1 && class == CONNECTION_MANAGER {
            return manager_answer(
                self.state.alloc(),
                self.state.counters().manager,
                &self.state.profile().description,
                request,
            );
        }
        self.described_answer(class, instance, request)
    }

    /// The answer to a service of an object, and the text that a class 3 connection keeps of the reply.
    fn object_reply(
        &self,
        route: Route,
        class: u32,
        instance: u32,
        request: ObjectRequest<'_>,
    ) -> Result<(Answer, Vec<u8>), OutOfMemory>
        ensures answer { IfOk result (λ made. made.0
            ≡ routed_answer route (object_fields request.entry.service (object_answer self.now request.entry.service
            class instance request.entry.attribute request.entry.body.now)) None
            (object_notices (object_answer self.now request.entry.service class instance request.entry.attribute
            request.entry.body.now))) }
        ensures text { IfOk result (λ made. made.1.items
            ≡ kept_text route (object_fields request.entry.service (object_answer self.now request.entry.service
            class instance request.entry.attribute request.entry.body.now))) }
        ensures few { IfOk result (λ made. length made.1.items ≤ 1404) }
    {
        // Gives the prover that the points have the lengths of their profile, so that an answer is short.
        self.state.is_whole();
        let answer = self.object_answer(class, instance, request)?;
        let notices = object_notices(self.state.alloc(), &answer)?;
        let reply = object_reply(request.service, &answer);
        let made = reply_and_text(self.state.alloc(), route, &reply, notices)?;
        Ok(made)
    }

    /// A service of an object beside the Connection Manager's own.
    #[tactic(auto, unfolding(adapter_table::specs::Requests::served_object), using(adapter_replies::specs::RouteLaws::object_on))]
    pub(crate) fn object(
        &mut self,
        route: Route,
        class: u32,
        instance: u32,
        request: ObjectRequest<'_>,
    ) -> Outcome
        ensures { Follows (Ok (finished self.old route (Some
            (served_object self.old request.entry.service class instance request.entry.attribute
            request.entry.body.now)))) self.old result self.new }
    {
        let (answer, text) = self.object_reply(route, class, instance, request)?;
        self.state.keep(route, text, answer)
    }
}

// INQUIRIES

impl<T: ConnectionTable> Adapter<T> {
    /// The reply to some bytes, if the device is described and they are an inquiry.
    #[tactic(auto, using(adapter_replies::specs::Objects::SaidLaws::inquired_is, adapter_replies::specs::Objects::SaidLaws::uninquired_is))]
    pub(crate) fn inquiry_reply(&self, bytes: &[u8]) -> Result<Option<Vec<u8>>, OutOfMemory>
        ensures { IfOk result (λ reply. option_map (λ v. v.items) reply ≡ inquiry_reply self.now bytes.now) }
    {
        let Some(description) = &self.state.profile().description else {
            return Ok(None);
        };
        if !has_inquiry_length(bytes) {
            return Ok(None);
        }
        let io = self.state.connections().io_state();
        adapter_replies::inquiry_reply(
            self.state.alloc(),
            self.state.assemblies(),
            io,
            description,
            bytes,
        )
    }

    /// An inquiry of a peer over no stream.
    #[tactic(auto, unfolding(adapter_table::specs::Inquiries::inquired))]
    pub(crate) fn inquire(&mut self, peer: Node, bytes: &[u8]) -> Outcome
        ensures { Follows (Ok (inquired self.old peer bytes.now)) self.old result self.new }
    {
        match self.inquiry_reply(bytes)? {
            Some(text) => Ok(inquiry_answer(self.state.alloc(), Recipient::Peer(peer), text)?),
            None => Ok(Answer::plain(self.state.alloc(), Verdict::BadFrame)),
        }
    }
}
