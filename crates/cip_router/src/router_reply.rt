//! Replies of a message router in general.

ghost use Rattle.std.specs.Prelude.{◌≡◌};
ghost use Rattle.std.specs.Option.{option_map};
ghost use Rattle.cip_router.specs.RouterReplies.{view_router_reply, router_reply_reading};

/// A reply of a message router to a request of any service.
///
/// Volume 1, chapter 2, message router response.
#[derive(Clone, Copy)]
pub struct RouterReply<'a> {
    /// The service of the request, with the reply bit. It is not judged.
    pub service: u8,
    /// The general status.
    pub status: u8,
    /// The bytes of the additional status, two for each word.
    pub additional: &'a [u8],
    /// The data.
    pub content: &'a [u8],
}

/// Reads a reply, and takes no memory. There is none where the bytes end before the additional status does. The
/// reserved byte is not judged.
#[tactic(auto, unfolding(crate::specs::RouterReplies::router_reply_reading))]
pub fn read_router_reply(bytes: &[u8]) -> Option<RouterReply<'_>>
    ensures { option_map view_router_reply result ≡ router_reply_reading bytes.now }
{
    let [service, _, status, words, rest @ ..] = bytes else {
        return None;
    };
    let len = 2 * usize::from(*words);
    if rest.len() < len {
        return None;
    }
    let (additional, content) = rest.split_at(len);
    Some(RouterReply {
        service: *service,
        status: *status,
        additional,
        content,
    })
}
