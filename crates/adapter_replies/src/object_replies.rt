//! Replies to services of objects, and answers to inquiries.

ghost use Rattle.std.specs.Prelude.{◌≡◌, IfOk};
ghost use Rattle.adapter_table.specs.Lemmas.ObjectSizes.{FewSaid};
ghost use Rattle.adapter_replies.specs.Objects.Views.{view_answer};
ghost use Rattle.adapter_table.specs.Inquiries.{frame_alone};
ghost use Rattle.cip_router.specs.Replies.{view_reply};
ghost use Rattle.adapter_replies.specs.Messages.{object_fields, object_notices};
ghost use Rattle.adapter_replies.specs.Routes.{IsWritable};

use crate::answers::one_frame_answer;
use crate::objects::ObjectAnswer;
use cip_events::{Answer, Frame, Notice, Recipient};
use cip_router::{ObjectService, Reply};
use cip_types::{Items, OutOfMemory};
use std::alloc::Global;

/// The reply to a service of an object.
pub fn object_reply<'a>(service: u8, answer: &'a ObjectAnswer<'_>) -> Reply<'a>
    requires { FewSaid (view_answer answer.now) }
    ensures value { view_reply result ≡ object_fields service (view_answer answer.now) }
    ensures writable { IsWritable (view_reply result) }
{
    match answer {
        ObjectAnswer::Said(by, bytes) => Reply::Object(*by, bytes.as_slice()),
        ObjectAnswer::Denied(why) => Reply::Refused(service, why.fault(), None),
        ObjectAnswer::Resetting(_) => Reply::Object(ObjectService::Reset, &[]),
        ObjectAnswer::Answering(by, general, bytes) => {
            Reply::Own(by.code(), *general, bytes.as_slice())
        }
        ObjectAnswer::Refusing(named, why) => Reply::Refused(*named, why.fault(), None),
        ObjectAnswer::Unrouted(words) => Reply::NoRoute(*words),
    }
}

/// The notices of an answer to a service of an object: a reset is reported. `OutOfMemory` is the only error.
pub fn object_notices(alloc: Global, answer: &ObjectAnswer<'_>) -> Result<Vec<Notice>, OutOfMemory>
    ensures { IfOk result (λ notices. notices.items ≡ object_notices (view_answer answer.now)) }
{
    let mut notices = Vec::new(alloc);
    if let ObjectAnswer::Resetting(kind) = answer {
        notices.push(Notice::Reset(*kind))?;
    }
    Ok(notices)
}

/// The answer of one frame, the reply to an inquiry. Out of memory is the only fault.
///
/// Volume 2, chapter 2, ListIdentity, ListServices and ListInterfaces.
pub fn inquiry_answer(alloc: Global, to: Recipient, text: Vec<u8>) -> Result<Answer, OutOfMemory>
    ensures { IfOk result (λ answer. answer ≡ frame_alone to text.items) }
{
    let bytes = Items::from_vec(text);
    one_frame_answer(alloc, Frame { to, bytes }, Vec::new(alloc))
}
