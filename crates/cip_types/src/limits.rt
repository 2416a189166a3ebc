//! The limits of this line, each once, with its unit. `docs/PROFILE.md` numbers those of devices.

/// The connections of an adapter, timed-out ones among them (limit 2.1).
pub const MOST_CONNECTIONS: usize = 64;

/// The slots of a scanner.
pub const MOST_SLOTS: usize = 64;

/// The open streams of a device (limit 2.2).
pub const MOST_STREAMS: usize = 16;

/// The inputs of an adapter, and its outputs (limit 2.3).
pub const MOST_POINTS: usize = 8;

/// The bytes of a point (limit 2.4).
pub const LONGEST_POINT: u64 = 1_400;

/// The bytes of a configuration (limit 2.4).
pub const LONGEST_CONFIG: u64 = 400;

/// The longest requested packet interval, in microseconds (limit 2.5).
pub const LONGEST_RPI_US: u32 = 10_000_000;

/// The connection ids of one incarnation of a device, and the distance from the first id of one incarnation
/// to the first of the next (limit 2.6). The counter of an id is below it.
pub const IDS_PER_INCARNATION: u32 = 1 << 24;

/// The blocks of connection ids that a device holds (limit 2.6).
pub const MOST_ID_BLOCKS: usize = 64;

/// The longest tick, in milliseconds (limit 2.7).
pub const LONGEST_TICK_MS: u32 = 60_000;

/// The end of a device's clock, in milliseconds (limit 2.7).
pub const CLOCK_END_MS: u64 = 1 << 48;

/// The data bytes of an encapsulation message of a stream (limit 2.8).
pub const LONGEST_MESSAGE: usize = 2_048;

/// The bytes of a trace (limit 2.9).
pub const LONGEST_TRACE: usize = 16_777_216;

/// The longest wait of a scanner for a connection, in milliseconds.
pub const LONGEST_WAIT_MS: u64 = 60_000;

/// The least time before the first datagram of a new connection is overdue, in milliseconds.
///
/// Volume 1, chapter 3, inactivity and watchdog timer.
pub const FIRST_WATCHDOG_MS: u64 = 10_000;

/// The UDP port of class 1 datagrams.
///
/// Volume 2, chapter 2.
pub const UDP_PORT: u16 = 2_222;

/// The TCP port of encapsulation messages.
///
/// Volume 2, chapter 2.
pub const TCP_PORT: u16 = 44_818;
