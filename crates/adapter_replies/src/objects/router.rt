//! The Message Router: which objects a device has, and how many connections.

ghost use Rattle.std.specs.Prelude.{◌≡◌, ◌≤◌, IfOk, length};
ghost use Rattle.adapter_table.specs.Objects.{most_class1, most_class3, most_connections, router_instance};
ghost use Rattle.adapter_replies.specs.Objects.Views.{requested, view_answer};

use crate::objects::answer::{ObjectAnswer, ObjectRequest, instance_answer};
use crate::objects::instance::Instance;
use crate::objects::port::left_classes;
use crate::objects::value::{Attribute, Value};
use adapter_table::{MakerLimits, Places, Profile};
use cip_types::OutOfMemory;
use cip_types::limits::MOST_CONNECTIONS;
use std::alloc::Global;

/// The classes of the objects that each described device has.
///
/// Volume 1, chapter 5, object library.
pub(crate) const SERVED: [u16; 6] = [0x01, 0x02, 0x04, 0x06, 0xF5, 0xF6];

/// The class 3 connections of an adapter, where its maker states no number (limit 2.16).
const MOST_CLASS3: u16 = 64;

/// How many connections of class 1 there may be.
fn most_class1(places: Option<Places>) -> u16
    ensures value { result ≡ most_class1 places }
    ensures bound { result ≤ 765 }
{
    match places {
        Some(places) => {
            u16::from(places.owners) + (u16::from(places.readers) + u16::from(places.listeners))
        }
        None => MOST_CONNECTIONS as u16,
    }
}

/// How many connections of class 3 there may be.
fn most_class3(places: Option<u8>) -> u16
    ensures value { result ≡ most_class3 places }
    ensures bound { result ≤ 255 }
{
    match places {
        Some(places) => u16::from(places),
        None => MOST_CLASS3,
    }
}

/// How many connections of both classes there may be.
fn most_connections(limits: &MakerLimits) -> u16
    ensures { result ≡ most_connections limits.now }
{
    most_class1(limits.places) + most_class3(limits.class3_places())
}

/// A service of the Message Router.
///
/// Volume 1, chapter 5, Message Router object.
#[tactic(auto, using(crate::proofs::Points::objects_len, adapter_table::specs::Lemmas::ObjectSizes::left_is_few))]
pub(crate) fn router_answer<'a>(
    alloc: Global,
    profile: &'a Profile,
    connections: usize,
    owned: bool,
    request: ObjectRequest<'_>,
) -> Result<ObjectAnswer<'a>, OutOfMemory>
    requires { length profile.now.objects ≤ 16 }
    ensures { IfOk result (λ answer. view_answer answer
        ≡ requested owned request.entry (router_instance profile.now connections)) }
{
    let own = profile.objects.as_slice();
    let count = SERVED.len() + left_classes(own).len() + own.len();
    let attributes = [
        Attribute::Single(1, Value::Objects(count, own)),
        Attribute::Single(2, Value::Word(most_connections(&profile.limits))),
        Attribute::Single(3, Value::Low(connections)),
    ];
    let instance = Instance {
        attributes: &attributes,
        gets_all: false,
        sets: true,
        resets: false,
    };
    instance_answer(alloc, &instance, owned, request)
}
