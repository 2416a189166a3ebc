//! The fixed part of a Forward_Open's data.

ghost use Rattle.cip_types.specs.Fields.{Finds, fields_at};
ghost use Rattle.cip_fwdopen.specs.Services.{is_large_open};

use crate::open_service::OpenService;
use cip_types::fields::{u16_in, u32_in};

/// The fields before the path. The connection parameters are words, not yet decoded.
#[derive(Clone, Copy)]
pub struct OpenFront {
    pub priority_tick: u8,
    pub ticks: u8,
    pub o_t_id: u32,
    pub t_o_id: u32,
    pub serial: u16,
    pub vendor: u16,
    pub originator: u32,
    pub multiplier: u8,
    pub reserved: (u8, u8, u8),
    pub o_t_rpi: u32,
    pub o_t_word: u32,
    pub t_o_rpi: u32,
    pub t_o_word: u32,
    pub trigger: u8,
    pub path_words: u8,
}

impl OpenFront {
    ghost use Rattle.std.specs.Prelude.{true, false};
    ghost use Rattle.cip_fwdopen.specs.Numbers.{numbers_of};
    ghost use Rattle.cip_fwdopen.specs.Open.{open_widths};

    /// The fixed part of a Forward_Open's data at the front, and the bytes after it. None where there are fewer
    /// than its 36 bytes.
    fn short_at(bytes: &[u8]) -> Option<(OpenFront, &[u8])>
        ensures { Finds (λ x. (numbers_of x.0, x.1.now)) result (fields_at (open_widths false) bytes.now) }
    {
        if bytes.len() < 36 {
            return None;
        }
        let fixed = OpenFront {
            priority_tick: bytes[0],
            ticks: bytes[1],
            o_t_id: u32_in(bytes, 2),
            t_o_id: u32_in(bytes, 6),
            serial: u16_in(bytes, 10),
            vendor: u16_in(bytes, 12),
            originator: u32_in(bytes, 14),
            multiplier: bytes[18],
            reserved: (bytes[19], bytes[20], bytes[21]),
            o_t_rpi: u32_in(bytes, 22),
            o_t_word: u32::from(u16_in(bytes, 26)),
            t_o_rpi: u32_in(bytes, 28),
            t_o_word: u32::from(u16_in(bytes, 32)),
            trigger: bytes[34],
            path_words: bytes[35],
        };
        Some((fixed, &bytes[36..]))
    }

    /// The fixed part of a Large_Forward_Open's data at the front, and the bytes after it. None where there are
    /// fewer than its 40 bytes.
    fn large_at(bytes: &[u8]) -> Option<(OpenFront, &[u8])>
        ensures { Finds (λ x. (numbers_of x.0, x.1.now)) result (fields_at (open_widths true) bytes.now) }
    {
        if bytes.len() < 40 {
            return None;
        }
        let fixed = OpenFront {
            priority_tick: bytes[0],
            ticks: bytes[1],
            o_t_id: u32_in(bytes, 2),
            t_o_id: u32_in(bytes, 6),
            serial: u16_in(bytes, 10),
            vendor: u16_in(bytes, 12),
            originator: u32_in(bytes, 14),
            multiplier: bytes[18],
            reserved: (bytes[19], bytes[20], bytes[21]),
            o_t_rpi: u32_in(bytes, 22),
            o_t_word: u32_in(bytes, 26),
            t_o_rpi: u32_in(bytes, 30),
            t_o_word: u32_in(bytes, 34),
            trigger: bytes[38],
            path_words: bytes[39],
        };
        Some((fixed, &bytes[40..]))
    }

    /// The fixed part at the front, and the bytes after it. None where the bytes are fewer.
    pub fn at(service: OpenService, bytes: &[u8]) -> Option<(OpenFront, &[u8])>
        ensures { Finds (λ x. (numbers_of x.0, x.1.now)) result
            (fields_at (open_widths (is_large_open service)) bytes.now) }
    {
        let large = service.is_large();
        if large {
            OpenFront::large_at(bytes)
        } else {
            OpenFront::short_at(bytes)
        }
    }
}
