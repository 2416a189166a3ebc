//! Requests to objects of the maker's own.

ghost use Rattle.std.specs.Prelude.{◌≡◌};
ghost use Rattle.std.specs.Option.{option_map};
ghost use Rattle.cip_router.specs.Requests.{view_router_request};
ghost use Rattle.adapter_table.specs.Own.{is_own_class, own_of};
ghost use Rattle.adapter_replies.specs.Objects.Views.{view_own};

use cip_router::RouterRequest;

/// A request to an object of the maker's own: the service, the class and the instance, the attribute, if the path names
/// one, and the data.
///
/// Volume 1, chapter 2, message router request.
#[derive(Clone, Copy)]
pub struct OwnRequest<'b> {
    pub service: u8,
    pub class: u32,
    pub instance: u32,
    pub attribute: Option<u32>,
    pub body: &'b [u8],
}

/// Whether the class is one of the maker's own.
pub(crate) fn is_own_class(objects: &[u32], class: u32) -> bool
    ensures { result ≡ is_own_class objects.now class }
{
    objects.iter().any(|own| *own == class)
}

/// The request, if it is to an object of one of these classes of the maker's own.
///
/// Volume 1, chapter 2, message router request.
pub fn own_request<'b>(objects: &[u32], request: &RouterRequest<'b>) -> Option<OwnRequest<'b>>
    ensures { option_map view_own result ≡ own_of objects.now (view_router_request request.now) }
{
    let RouterRequest::Object(service, class, instance, attribute, body) = *request else {
        return None;
    };
    if !is_own_class(objects, class) {
        return None;
    }
    Some(OwnRequest {
        service,
        class,
        instance,
        attribute,
        body,
    })
}
