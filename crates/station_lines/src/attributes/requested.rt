//! What a request asks of an attribute.

ghost use Rattle.std.specs.Prelude.{◌≡◌};
ghost use Rattle.station_lines.specs.Attributes.Requested.{requested_of, attribute_of, service_of};
ghost use Rattle.cip_epath.specs.Reading.{target_reading};

use cip_epath::read_target;
use cip_fwdopen::service::GET_ATTRIBUTE_SINGLE;
use cip_types::Node;

/// Set_Attribute_Single.
///
/// Volume 1, appendix A, common services.
pub(crate) const SET_SINGLE: u8 = 0x10;

/// An attribute of a target.
#[derive(Clone, Copy, PartialEq, Eq)]
pub struct TargetAttribute {
    pub target: Node,
    pub class: u32,
    pub instance: u32,
    pub attribute: u32,
}

/// What is requested of an attribute.
#[derive(Clone, Copy, PartialEq, Eq)]
pub enum AttributeService {
    /// Its value.
    Get,
    /// That it takes a value.
    Set,
}

/// A request for an attribute, and its number.
#[derive(Clone, Copy, PartialEq, Eq)]
pub struct RequestedAttribute {
    pub number: u32,
    pub service: AttributeService,
    pub at: TargetAttribute,
}

/// What a service asks of an attribute.
fn service_of(code: u8) -> Option<AttributeService>
    ensures { result ≡ service_of code }
{
    match code {
        GET_ATTRIBUTE_SINGLE => Some(AttributeService::Get),
        SET_SINGLE => Some(AttributeService::Set),
        _ => None,
    }
}

/// The attribute of a target that a path names.
fn attribute_of(target: Node, path: &[u8]) -> Option<TargetAttribute>
    ensures { result ≡ attribute_of target (target_reading path.now) }
{
    let Ok(path) = read_target(path) else {
        return None;
    };
    let attribute = path.attribute?;
    Some(TargetAttribute {
        target,
        class: path.class,
        instance: path.instance,
        attribute,
    })
}

/// The attribute that a request of this number gets or sets. None if it asks for something else.
///
/// Volume 1, chapter 2, message router request.
#[tactic(auto, unfolding(crate::specs::Attributes::Requested::requested_of))]
pub(crate) fn requested_of(target: Node, number: u32, bytes: &[u8]) -> Option<RequestedAttribute>
    ensures { result ≡ requested_of target number bytes.now }
{
    let [code, words, rest @ ..] = bytes else {
        return None;
    };
    let len = 2 * usize::from(*words);
    if rest.len() < len {
        return None;
    }
    let service = service_of(*code)?;
    let at = attribute_of(target, &rest[..len])?;
    Some(RequestedAttribute {
        number,
        service,
        at,
    })
}
