//! The data of a Forward_Open and of a Large_Forward_Open.

ghost use Rattle.std.specs.Prelude.{◌≡◌, Result, ◌<◌};
ghost use Rattle.cip_fwdopen.specs.declared.fault.ReadFault.{ReadFault};
ghost use Rattle.cip_fwdopen.specs.Readings.{seen};
ghost use Rattle.cip_fwdopen.specs.Open.{OpenFields, view_open, open_of, params_of, IsOpenReading, open_reading};
ghost use Rattle.cip_fwdopen.specs.Numbers.{numbers_of};
ghost use Rattle.cip_fwdopen.specs.Services.{is_large_open};

use crate::fault::ReadFault;
use crate::fixed::OpenFront;
use crate::open_service::OpenService;
use cip_netparams::{NetParams, read16, read32};
use cip_types::{ConnId, Triad};

/// The data of a Forward_Open or of a Large_Forward_Open. Packet intervals are in microseconds. `P` is the connection
/// path: its bytes, not decoded, in a request that is read, and a `ConnPath` in one that is sent.
///
/// Volume 1, chapter 3, Forward_Open service.
#[derive(Clone, Copy)]
pub struct OpenRequest<P> {
    /// Priority and time tick of the unconnected request.
    pub priority_tick: u8,
    /// Its time-out, in ticks.
    pub ticks: u8,
    pub o_t_id: ConnId,
    pub t_o_id: ConnId,
    pub triad: Triad,
    /// The code of the connection timeout multiplier, 0 to 7.
    pub multiplier: u8,
    pub o_t_rpi: u32,
    pub o_t_params: NetParams,
    pub t_o_rpi: u32,
    pub t_o_params: NetParams,
    /// The transport class and trigger byte, not decoded.
    pub trigger: u8,
    pub path: P,
}

fn params_of(service: OpenService, word: u32) -> NetParams
    ensures { result ≡ params_of (is_large_open service) word }
{
    let large = service.is_large();
    if large {
        read32(word)
    } else {
        read16((word & 0xFFFF) as u16)
    }
}

fn request_of<'a>(service: OpenService, fixed: OpenFront, path: &'a [u8]) -> OpenRequest<&'a [u8]>
    ensures { view_open result ≡ open_of (is_large_open service) (numbers_of fixed, path.now) }
{
    OpenRequest {
        priority_tick: fixed.priority_tick,
        ticks: fixed.ticks,
        o_t_id: ConnId(fixed.o_t_id),
        t_o_id: ConnId(fixed.t_o_id),
        triad: Triad {
            serial: fixed.serial,
            vendor: fixed.vendor,
            originator: fixed.originator,
        },
        multiplier: fixed.multiplier,
        o_t_rpi: fixed.o_t_rpi,
        o_t_params: params_of(service, fixed.o_t_word),
        t_o_rpi: fixed.t_o_rpi,
        t_o_params: params_of(service, fixed.t_o_word),
        trigger: fixed.trigger,
        path,
    }
}

fn whole_open(service: OpenService, bytes: &[u8]) -> Result<OpenRequest<&[u8]>, ReadFault>
    ensures { seen view_open result ≡ open_reading (is_large_open service) bytes.now }
{
    let Some((fixed, rest)) = OpenFront::at(service, bytes) else {
        return Err(ReadFault::NotEnough);
    };
    let len = 2 * usize::from(fixed.path_words);
    if rest.len() < len {
        return Err(ReadFault::NotEnough);
    }
    if rest.len() > len {
        return Err(ReadFault::TooMuch);
    }
    Ok(request_of(service, fixed, rest))
}

/// Reads the data of a Large_Forward_Open, whose connection parameters have 32 bits, or of a Forward_Open,
/// whose connection parameters have 16. Reserved bytes are not judged.
///
/// NotEnough where the bytes end before the fields or the path do, TooMuch where bytes follow the
/// path; never Path.
///
/// Volume 1, chapter 3, Forward_Open and Large_Forward_Open services.
pub fn read_open(service: OpenService, bytes: &[u8]) -> Result<OpenRequest<&[u8]>, ReadFault>
    ensures value { seen view_open result ≡ open_reading (is_large_open service) bytes.now }
    // The result is a reading of the bytes.
    ensures reading { IsOpenReading (is_large_open service) bytes.now (seen view_open result) }
    // The bytes have no other reading.
    ensures only { (other : Result OpenFields ReadFault) → IsOpenReading (is_large_open service) bytes.now other
        → seen view_open result ≡ other }
{
    whole_open(service, bytes)
}
