//! The services of objects that a device answers with data.

ghost use Rattle.std.specs.Prelude.{◌≡◌};
ghost use Rattle.cip_fwdopen.specs.Reply.{reply_service};
ghost use Rattle.cip_router.specs.Replies.{object_service_code};

use cip_fwdopen::service::{GET_ATTRIBUTE_SINGLE, REPLY};

/// The service that answers all attributes of an instance.
const GET_ATTRIBUTES_ALL: u8 = 0x01;

/// The service that answers a list of attributes.
const GET_ATTRIBUTE_LIST: u8 = 0x03;

/// The service that writes a list of attributes.
const SET_ATTRIBUTE_LIST: u8 = 0x04;

/// The service that resets a device.
const RESET: u8 = 0x05;

/// The service that carries several requests.
const MULTIPLE_SERVICE_PACKET: u8 = 0x0A;

/// A service of an object that changes no connection.
///
/// Volume 1, appendix A, common services.
#[derive(Clone, Copy, Debug, PartialEq, Eq)]
pub enum ObjectService {
    /// Get_Attributes_All: the attributes of an instance, one behind the other.
    GetAll,
    /// Get_Attribute_List: some attributes, each with its status.
    GetList,
    /// Set_Attribute_List: the status of each attribute.
    SetList,
    /// Reset: the device is asked to begin anew.
    Reset,
    /// Multiple_Service_Packet: the replies to several requests.
    Packet,
    /// Get_Attribute_Single: one attribute.
    GetSingle,
}

impl ObjectService {
    /// The code of the service in a request.
    pub fn code(self) -> u8
        ensures { result ≡ object_service_code self }
    {
        match self {
            ObjectService::GetAll => GET_ATTRIBUTES_ALL,
            ObjectService::GetList => GET_ATTRIBUTE_LIST,
            ObjectService::SetList => SET_ATTRIBUTE_LIST,
            ObjectService::Reset => RESET,
            ObjectService::Packet => MULTIPLE_SERVICE_PACKET,
            ObjectService::GetSingle => GET_ATTRIBUTE_SINGLE,
        }
    }

    /// The code of the service in a reply: with its highest bit.
    pub fn reply_code(self) -> u8
        ensures { result ≡ reply_service (object_service_code self) }
    {
        match self {
            ObjectService::GetAll => GET_ATTRIBUTES_ALL | REPLY,
            ObjectService::GetList => GET_ATTRIBUTE_LIST | REPLY,
            ObjectService::SetList => SET_ATTRIBUTE_LIST | REPLY,
            ObjectService::Reset => RESET | REPLY,
            ObjectService::Packet => MULTIPLE_SERVICE_PACKET | REPLY,
            ObjectService::GetSingle => GET_ATTRIBUTE_SINGLE | REPLY,
        }
    }
}
