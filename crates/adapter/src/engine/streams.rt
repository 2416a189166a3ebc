//! Streams of peers, and the messages that are received over them.

ghost use Rattle.std.specs.Prelude.{◌≡◌, [], Ok, IfOk, ◌∷◌};
ghost use Rattle.cip_events.specs.Outcomes.{Follows};
ghost use Rattle.adapter_replies.specs.Routes.{view_request_header, view_frame_reply, IsWritableFrame, framed_answer};
ghost use Rattle.adapter_table.specs.Encapsulation.{framed, frame, frame_answer, frame_for, stream_answer, wrong_length_answer, refusal, handled, session_begun, register_session, unregister_session, send_rr_data};
ghost use Rattle.cip_events.specs.declared.event.Notice.TheVariants.{StreamClosed};
ghost use Rattle.cip_events.specs.declared.event.Verdict.TheVariants.{Done};
ghost use Rattle.adapter_table.specs.Streams.{stream_cut, ended_notices, without_stream};
ghost use Rattle.adapter_table.specs.Lemmas.RequestLemmas.{IsOpenStream};
ghost use Rattle.adapter_table.specs.Inquiries.{inquiry_reply};
ghost use Rattle.cip_router.specs.Commands.{command_of};

use super::Adapter;
use adapter_replies::{
    FrameReply, FrameView, RequestHeader, Route, cut_answer, ended_answer, frame_answer,
    inquiry_answer, is_protocol, read_frame_for, read_items_for,
};
use adapter_table::{has_session, register_stream, session_of};
use cip_events::Recipient;
use cip_tables::{Answer, Command, EncapStatus, Outcome, StepFault, Stream, Verdict};
use cip_types::{OutOfMemory, drop_stream, find_stream};
use indexed_connections::ConnectionTable;

// STREAMS

impl<T: ConnectionTable> Adapter<T> {
    /// A stream breaks, or its peer ends it.
    #[tactic(auto, unfolding(adapter_table::specs::Streams::stream_cut), using(crate::proofs::Ending::ended_notices))]
    pub(crate) fn cut_stream(&mut self, number: u16) -> Outcome
        ensures { Follows (stream_cut self.old number) self.old result self.new }
    {
        let Some(stream) = find_stream(self.state.streams(), number) else {
            return Err(StepFault::NotAllowedNow);
        };
        let ended = self
            .state
            .messaging()
            .stream_triads(self.state.alloc(), stream.number)?;
        let answer = cut_answer(self.state.alloc(), &ended)?;
        self.state.drop_stream(stream.number);
        Ok(answer)
    }
}

// SESSIONS

impl<T: ConnectionTable> Adapter<T> {
    fn answer_frame(
        &self,
        number: u16,
        request_header: RequestHeader,
        reply: &FrameReply<'_>,
    ) -> Result<Answer, OutOfMemory>
        requires { IsWritableFrame (view_frame_reply reply.now) }
        ensures { IfOk result (λ answer. answer
            ≡ framed_answer number (view_request_header request_header) (view_frame_reply reply.now) []) }
    {
        let alloc = self.state.alloc();
        frame_answer(alloc, number, request_header, reply, Vec::new(alloc))
    }

    /// A message that is refused.
    pub(crate) fn refuse_frame(
        &mut self,
        number: u16,
        request_header: RequestHeader,
        why: EncapStatus,
    ) -> Outcome
        ensures { Follows (Ok (framed number (view_request_header request_header) (refusal self.old why)))
            self.old result self.new }
    {
        Ok(self.answer_frame(number, request_header, &FrameReply::Refused(why))?)
    }

    /// A session begins.
    fn begin_session(&mut self, stream: &Stream, request_header: RequestHeader) -> Outcome
        ensures { Follows (Ok (framed stream.now.number (view_request_header request_header)
            (session_begun self.old stream.now))) self.old result self.new }
    {
        let reply = FrameReply::Registered(session_of(stream));
        let answer = self.answer_frame(stream.number, request_header, &reply)?;
        self.state.register_stream(stream.number);
        Ok(answer)
    }

    /// RegisterSession.
    fn register_session(
        &mut self,
        stream: &Stream,
        request_header: RequestHeader,
        body: &[u8],
    ) -> Outcome
        ensures { Follows (Ok (framed stream.now.number (view_request_header request_header)
            (register_session self.old stream.now body.now))) self.old result self.new }
    {
        if body.len() != 4 {
            return self.refuse_frame(stream.number, request_header, EncapStatus::InvalidLength);
        }
        if !is_protocol(body) {
            return Ok(self.answer_frame(stream.number, request_header, &FrameReply::OtherVersion)?);
        }
        if stream.registered {
            return self.refuse_frame(stream.number, request_header, EncapStatus::InvalidCommand);
        }
        self.begin_session(stream, request_header)
    }

    /// A session ends, and its stream with it.
    #[tactic(auto, using(crate::proofs::Ending::ended_notices))]
    fn end_session(&mut self, number: u16) -> Outcome
        ensures { Follows
            (Ok (
              record {
                frames = [];
                datagrams = [];
                verdict = Done;
                notices = StreamClosed number ∷ ended_notices self.old number;
              },
              without_stream self.old number,
            ))
            self.old result self.new }
    {
        let ended = self
            .state
            .messaging()
            .stream_triads(self.state.alloc(), number)?;
        let answer = ended_answer(self.state.alloc(), number, &ended)?;
        self.state.drop_stream(number);
        Ok(answer)
    }

    /// UnRegisterSession.
    fn unregister_session(&mut self, stream: &Stream, request_header: RequestHeader) -> Outcome
        ensures { Follows (Ok (framed stream.now.number (view_request_header request_header)
            (unregister_session self.old stream.now request_header.session))) self.old result self.new }
    {
        if has_session(stream, request_header.session) {
            return self.end_session(stream.number);
        }
        Ok(Answer::plain(self.state.alloc(), Verdict::Done))
    }
}

// FRAMES

impl<T: ConnectionTable> Adapter<T> {
    /// SendRRData.
    #[tactic(auto, using(adapter_replies::specs::RouteLaws::stream_is))]
    fn send_rr_data(
        &mut self,
        stream: &Stream,
        request_header: RequestHeader,
        body: &[u8],
    ) -> Outcome
        requires { IsOpenStream self.old stream.now }
        ensures { Follows (Ok (framed stream.now.number (view_request_header request_header)
            (send_rr_data self.old stream.now request_header.session request_header.context body.now)))
            self.old result self.new }
    {
        if !has_session(stream, request_header.session) {
            return self.refuse_frame(stream.number, request_header, EncapStatus::InvalidSession);
        }
        let Ok(packet) = read_items_for(&self.state.profile().description, body) else {
            return self.refuse_frame(stream.number, request_header, EncapStatus::IncorrectData);
        };
        self.serve(Route::Stream(*stream, request_header), packet.data)
    }

    /// A whole message, by its command.
    #[tactic(auto, unfolding(adapter_table::specs::Encapsulation::handled))]
    fn handle(&mut self, stream: &Stream, request_header: RequestHeader, body: &[u8]) -> Outcome
        requires { IsOpenStream self.old stream.now }
        ensures { Follows (Ok
            (framed stream.now.number (view_request_header request_header) (handled self.old stream.now
            (view_request_header request_header) body.now
            (command_of request_header.command)))) self.old result self.new }
    {
        match Command::of(request_header.command) {
            Command::Nop => Ok(Answer::plain(self.state.alloc(), Verdict::Done)),
            Command::ListServices => Ok(self.answer_frame(
                stream.number,
                request_header,
                &FrameReply::Services,
            )?),
            Command::RegisterSession => self.register_session(stream, request_header, body),
            Command::UnregisterSession => self.unregister_session(stream, request_header),
            Command::SendRrData => self.send_rr_data(stream, request_header, body),
            Command::SendUnitData => self.send_unit_data(stream, request_header, body),
            Command::Other => self.refuse_frame(
                stream.number,
                request_header,
                EncapStatus::InvalidCommand,
            ),
        }
    }

    /// A header whose length field is wrong.
    fn wrong_length(&mut self, number: u16, request_header: RequestHeader) -> Outcome
        ensures { Follows (Ok (wrong_length_answer self.old number (view_request_header request_header)))
            self.old result self.new }
    {
        if Command::of(request_header.command).is_silent() {
            return Ok(Answer::plain(self.state.alloc(), Verdict::BadFrame));
        }
        self.refuse_frame(number, request_header, EncapStatus::InvalidLength)
    }

    /// The bytes of a frame that is no inquiry.
    fn command(&mut self, stream: &Stream, bytes: &[u8]) -> Outcome
        requires { IsOpenStream self.old stream.now }
        ensures { Follows (Ok (frame_answer self.old stream.now
            (frame_for self.old.profile.description bytes.now)))
            self.old result self.new }
    {
        match read_frame_for(&self.state.profile().description, bytes) {
            FrameView::NoHeader => Ok(Answer::plain(self.state.alloc(), Verdict::BadFrame)),
            FrameView::BadLength(request_header) => self.wrong_length(
                stream.number,
                request_header,
            ),
            FrameView::Whole(request_header, body) => self.handle(stream, request_header, body),
        }
    }

    /// The bytes of a frame of an open stream: an inquiry is answered before any command.
    fn receive_frame(&mut self, stream: &Stream, bytes: &[u8]) -> Outcome
        requires { IsOpenStream self.old stream.now }
        ensures { Follows (Ok (stream_answer self.old stream.now bytes.now (inquiry_reply self.old bytes.now)))
            self.old result self.new }
    {
        match self.inquiry_reply(bytes)? {
            Some(text) => Ok(inquiry_answer(
                self.state.alloc(),
                Recipient::Stream(stream.number),
                text,
            )?),
            None => self.command(stream, bytes),
        }
    }

    /// The bytes of a frame that is received over a stream.
    #[tactic(auto, unfolding(adapter_table::specs::Encapsulation::frame))]
    pub(crate) fn frame(&mut self, number: u16, bytes: &[u8]) -> Outcome
        ensures { Follows (frame self.old number bytes.now) self.old result self.new }
    {
        let Some(stream) = find_stream(self.state.streams(), number) else {
            return Err(StepFault::NotAllowedNow);
        };
        self.receive_frame(&stream, bytes)
    }
}
