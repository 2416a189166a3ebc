//! A device of either kind.

use crate::copy::TableCopy;
use crate::device::Device;
use crate::streams::StreamReport;
use crate::table::Config;
use crate::totals::DeviceTotals;
use adapter_table::{AnyConnection, Class3Report, ConnectionReport, ConsumerCounts};
use cip_events::{Delivery, Event, NewFault, Outcome, StepFault};
use cip_types::{Ms, Node, OutOfMemory, Triad};
use scanner_table::SlotReport;
use std::alloc::Global;

/// An adapter of one type or a scanner of another, as its configuration says. Contracts see it as its table.
///
/// Of the configurations of adapters it accepts those that `A` accepts, and of the configurations of scanners those
/// that `S` accepts. So with an adapter and a scanner it accepts all.
#[derive(Drop)]
pub enum AnyDevice<A, S> {
    /// The device of an adapter's configuration.
    Adapter(A),
    /// The device of a scanner's configuration.
    Scanner(S),
}

impl<A: Device, S: Device> Device for AnyDevice<A, S> {
    ghost use Rattle.cip_tables.specs.AnyDevices.{table_by, accepted_by};

    ghost table = { table_by A.table S.table };

    ghost accepts = { accepted_by A.accepts S.accepts };

    fn is_accepted(config: &Config) -> bool {
        match config {
            Config::Adapter(_) => A::is_accepted(config),
            Config::Scanner(_) => S::is_accepted(config),
        }
    }

    fn new(alloc: Global, config: Config) -> Result<Self, NewFault> {
        match config {
            Config::Adapter(profile) => match A::new(alloc, Config::Adapter(profile)) {
                Ok(device) => Ok(AnyDevice::Adapter(device)),
                Err(fault) => Err(fault),
            },
            Config::Scanner(profile) => match S::new(alloc, Config::Scanner(profile)) {
                Ok(device) => Ok(AnyDevice::Scanner(device)),
                Err(fault) => Err(fault),
            },
        }
    }

    fn step(&mut self, event: &Event) -> Outcome {
        match self {
            AnyDevice::Adapter(device) => device.step(event),
            AnyDevice::Scanner(device) => device.step(event),
        }
    }

    fn deliver(&mut self, peer: Node, bytes: &[u8]) -> Delivery {
        match self {
            AnyDevice::Adapter(device) => device.deliver(peer, bytes),
            AnyDevice::Scanner(device) => device.deliver(peer, bytes),
        }
    }

    fn write_point(&mut self, point: u32, bytes: &[u8]) -> Outcome {
        match self {
            AnyDevice::Adapter(device) => device.write_point(point, bytes),
            AnyDevice::Scanner(device) => device.write_point(point, bytes),
        }
    }

    fn read_point(&self, point: u32) -> Result<&[u8], StepFault> {
        match self {
            AnyDevice::Adapter(device) => device.read_point(point),
            AnyDevice::Scanner(device) => device.read_point(point),
        }
    }

    fn copy(&self) -> Result<TableCopy, OutOfMemory> {
        match self {
            AnyDevice::Adapter(device) => device.copy(),
            AnyDevice::Scanner(device) => device.copy(),
        }
    }

    fn owner(&self, output: u32) -> Option<ConnectionReport> {
        match self {
            AnyDevice::Adapter(device) => device.owner(output),
            AnyDevice::Scanner(device) => device.owner(output),
        }
    }

    fn consumers(&self, input: u32) -> ConsumerCounts {
        match self {
            AnyDevice::Adapter(device) => device.consumers(input),
            AnyDevice::Scanner(device) => device.consumers(input),
        }
    }

    fn connection(&self, place: u32) -> Option<ConnectionReport> {
        match self {
            AnyDevice::Adapter(device) => device.connection(place),
            AnyDevice::Scanner(device) => device.connection(place),
        }
    }

    fn class3_connection(&self, place: u32) -> Option<Class3Report> {
        match self {
            AnyDevice::Adapter(device) => device.class3_connection(place),
            AnyDevice::Scanner(device) => device.class3_connection(place),
        }
    }

    fn connection_of(&self, triad: Triad) -> Option<AnyConnection> {
        match self {
            AnyDevice::Adapter(device) => device.connection_of(triad),
            AnyDevice::Scanner(device) => device.connection_of(triad),
        }
    }

    fn slot(&self, number: u32) -> Option<SlotReport> {
        match self {
            AnyDevice::Adapter(device) => device.slot(number),
            AnyDevice::Scanner(device) => device.slot(number),
        }
    }

    fn stream(&self, place: u32) -> Option<StreamReport> {
        match self {
            AnyDevice::Adapter(device) => device.stream(place),
            AnyDevice::Scanner(device) => device.stream(place),
        }
    }

    fn totals(&self) -> DeviceTotals {
        match self {
            AnyDevice::Adapter(device) => device.totals(),
            AnyDevice::Scanner(device) => device.totals(),
        }
    }

    fn next_wake(&self) -> Ms {
        match self {
            AnyDevice::Adapter(device) => device.next_wake(),
            AnyDevice::Scanner(device) => device.next_wake(),
        }
    }

    fn is_whole(&self) {
        match self {
            AnyDevice::Adapter(device) => device.is_whole(),
            AnyDevice::Scanner(device) => device.is_whole(),
        }
    }
}
