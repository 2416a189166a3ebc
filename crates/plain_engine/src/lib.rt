//! Devices over plain lists. Each of their steps is the table's.
#![tactic(auto)]

use adapter::Adapter;
use cip_tables::AnyDevice;
use indexed_connections::ConnectionList;
use scanner::Scanner;
use scanner_slots::NoHints;

/// An adapter over a plain list of connections, which contracts see as its table.
pub type PlainAdapter = Adapter<ConnectionList>;

/// A scanner that looks at all its slots at each event, which contracts see as its table.
pub type PlainScanner = Scanner<NoHints>;

/// A plain adapter or a plain scanner, as its configuration says.
pub type PlainDevice = AnyDevice<PlainAdapter, PlainScanner>;
