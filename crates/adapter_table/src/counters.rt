//! What a device counts of its connections, and what its host counts of its interface.

ghost use Rattle.std.specs.Prelude.{◌≡◌, IfOk};
ghost use Rattle.adapter_table.specs.Counters.{counted, counted_if, more, no_counters, open_tally, refused_tally, timed_out};

use cip_fwdopen::OpenService;
use cip_fwdopen::service::FORWARD_CLOSE;
use cip_router::{Refusal, Status};
use cip_types::{Items, OutOfMemory};
use std::alloc::Global;

/// The bytes of the counters of an interface, and behind them those of its medium: eleven and twelve numbers of 32 bits.
///
/// Volume 2, chapter 5, Ethernet Link object, attributes 4 and 5.
pub const INTERFACE_COUNTERS: usize = 44;

/// The bytes of the counters of an interface and of its medium.
pub const LINK_COUNTERS: usize = 92;

/// What a request to open or to close a connection is counted as, beside the requests of its kind.
///
/// Volume 1, chapter 3, Connection Manager object.
#[derive(Clone, Copy, Debug, PartialEq, Eq)]
pub enum Tally {
    /// A connection was opened.
    Opened,
    /// The request to open has a bad format.
    OpenFormat,
    /// The device lacks what the connection needs.
    OpenResource,
    /// The request to open was refused for another reason.
    OpenOther,
    /// A connection was closed.
    Closed,
    /// The request to close has a bad format.
    CloseFormat,
    /// The request to close was refused for another reason.
    CloseOther,
}

/// The requests to open and to close connections, those of them that were refused, and the connections that timed out. Behind 65,535
/// follows 0.
///
/// Volume 1, chapter 3, Connection Manager object, attributes 1 to 8.
#[derive(Clone, Copy, Debug, PartialEq, Eq)]
pub struct ManagerCounters {
    pub opens: u16,
    pub open_formats: u16,
    pub open_resources: u16,
    pub open_others: u16,
    pub closes: u16,
    pub close_formats: u16,
    pub close_others: u16,
    pub time_outs: u16,
}

/// What a device counts of its connections, and what its host has counted of its interface: no bytes before the host has said so,
/// then those of the counters of the interface and of its medium.
///
/// Volume 1, chapter 3, Connection Manager object; Volume 2, chapter 5, Ethernet Link object.
#[derive(PartialEq, Drop)]
pub struct DeviceCounters {
    pub manager: ManagerCounters,
    pub link: Items<u8>,
}

/// A counter that counts so many more.
fn more(count: usize, number: u16) -> u16
    ensures { result ≡ more count number }
{
    ((count % 65536 + usize::from(number)) % 65536) as u16
}

/// What the refusal of an opening is counted as.
///
/// Volume 1, chapter 3, Connection Manager object, attributes 2 to 4.
pub fn open_tally(why: Refusal) -> Tally
    ensures { result ≡ open_tally why }
{
    match why {
        Refusal::OutOfConnections => Tally::OpenResource,
        Refusal::Segment => Tally::OpenFormat,
        _ => Tally::OpenOther,
    }
}

/// What a request of this service is counted as that is refused without its data: one of a wrong length has a bad format, one that a
/// message of a connection brings has not. Any other one is no request to open or to close a connection.
///
/// Volume 1, chapter 3, Connection Manager object, attributes 2, 4, 6 and 7.
pub fn refused_tally(service: u8, why: Status) -> Option<Tally>
    ensures { result ≡ refused_tally service why }
{
    let opens = OpenService::of(service).is_some();
    if !opens && service != FORWARD_CLOSE {
        return None;
    }
    match why {
        Status::NotEnoughData | Status::TooMuchData if opens => Some(Tally::OpenFormat),
        Status::NotEnoughData | Status::TooMuchData => Some(Tally::CloseFormat),
        Status::Service if opens => Some(Tally::OpenOther),
        Status::Service => Some(Tally::CloseOther),
        _ => None,
    }
}

impl ManagerCounters {
    /// Nothing was counted.
    pub const NONE: ManagerCounters = ManagerCounters {
        opens: 0,
        open_formats: 0,
        open_resources: 0,
        open_others: 0,
        closes: 0,
        close_formats: 0,
        close_others: 0,
        time_outs: 0,
    };

    /// A request to open a connection is counted.
    fn opened(self) -> ManagerCounters
        ensures { result ≡ record self { opens = more 1 self.opens } }
    {
        ManagerCounters {
            opens: more(1, self.opens),
            ..self
        }
    }

    /// A request to close one is counted.
    fn closed(self) -> ManagerCounters
        ensures { result ≡ record self { closes = more 1 self.closes } }
    {
        ManagerCounters {
            closes: more(1, self.closes),
            ..self
        }
    }

    /// A request is counted. Takes no memory.
    pub fn counted(self, tally: Tally) -> ManagerCounters
        ensures { result ≡ counted tally self }
    {
        match tally {
            Tally::Opened => self.opened(),
            Tally::OpenFormat => ManagerCounters {
                open_formats: more(1, self.open_formats),
                ..self.opened()
            },
            Tally::OpenResource => ManagerCounters {
                open_resources: more(1, self.open_resources),
                ..self.opened()
            },
            Tally::OpenOther => ManagerCounters {
                open_others: more(1, self.open_others),
                ..self.opened()
            },
            Tally::Closed => self.closed(),
            Tally::CloseFormat => ManagerCounters {
                close_formats: more(1, self.close_formats),
                ..self.closed()
            },
            Tally::CloseOther => ManagerCounters {
                close_others: more(1, self.close_others),
                ..self.closed()
            },
        }
    }

    /// A request is counted, if it is one. Takes no memory.
    pub fn counted_if(self, tally: Option<Tally>) -> ManagerCounters
        ensures { result ≡ counted_if tally self }
    {
        match tally {
            Some(tally) => self.counted(tally),
            None => self,
        }
    }

    /// So many connections have timed out. Takes no memory.
    pub fn timed_out(self, count: usize) -> ManagerCounters
        ensures { result ≡ timed_out count self }
    {
        if count == 0 {
            return self;
        }
        ManagerCounters {
            time_outs: more(count, self.time_outs),
            ..self
        }
    }
}

impl DeviceCounters {
    /// Nothing was counted. Takes no memory.
    pub fn new(alloc: Global) -> DeviceCounters
        ensures { result ≡ no_counters }
    {
        DeviceCounters {
            manager: ManagerCounters::NONE,
            link: Items::new(alloc),
        }
    }

    /// A copy of the counters. `OutOfMemory` is the only error.
    pub fn copy(&self, alloc: Global) -> Result<DeviceCounters, OutOfMemory>
        ensures { IfOk result (λ copy. copy ≡ self.now) }
    {
        Ok(DeviceCounters {
            manager: self.manager,
            link: Items::copy_of(alloc, self.link.as_slice())?,
        })
    }
}
