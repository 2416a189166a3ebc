//! Requests to the message router.

ghost use Rattle.std.specs.Prelude.{◌≡◌, Result};
ghost use Rattle.cip_fwdopen.specs.declared.fault.ReadFault.{ReadFault};
ghost use Rattle.cip_fwdopen.specs.Readings.{seen};
ghost use Rattle.cip_fwdopen.specs.Request.{RequestFields, view_request, IsRequestReading, request_reading};

use crate::fault::ReadFault;
use cip_epath::{Target, read_target};
use cip_types::fields::u8_at;

/// A request: a service, its target, and its data, which is not decoded.
///
/// Volume 1, chapter 2, message router request.
#[derive(Clone, Copy)]
pub struct Request<'a> {
    pub service: u8,
    pub target: Target,
    pub body: &'a [u8],
}

fn whole_request(bytes: &[u8]) -> Result<Request<'_>, ReadFault>
    ensures { seen view_request result ≡ request_reading bytes.now }
{
    let Some((service, rest)) = u8_at(bytes) else {
        return Err(ReadFault::NotEnough);
    };
    let Some((words, rest)) = u8_at(rest) else {
        return Err(ReadFault::NotEnough);
    };
    let len = 2 * usize::from(words);
    if rest.len() < len {
        return Err(ReadFault::NotEnough);
    }
    let (path, body) = rest.split_at(len);
    match read_target(path) {
        Ok(target) => Ok(Request {
            service,
            target,
            body,
        }),
        Err(fault) => Err(ReadFault::Path(fault)),
    }
}

/// Reads a request. Its body is all bytes after the path.
///
/// NotEnough where the bytes end before the path does, as no bytes do; Path where the path is that of no
/// target; never TooMuch.
///
/// Volume 1, chapter 2, message router request.
pub fn read_request(bytes: &[u8]) -> Result<Request<'_>, ReadFault>
    ensures value { seen view_request result ≡ request_reading bytes.now }
    // The result is a reading of the bytes.
    ensures reading { IsRequestReading bytes.now (seen view_request result) }
    // The bytes have no other reading.
    ensures only { (other : Result RequestFields ReadFault) → IsRequestReading bytes.now other
        → seen view_request result ≡ other }
{
    whole_request(bytes)
}
