//! A device behind a pointer that C holds.

ghost use Rattle.std.specs.Prelude.{◌≡◌, Option, Some};
ghost use Rattle.eip_c.specs.declared.answered_device.AnsweredDevice.{AnsweredDevice};
ghost use Rattle.eip_c.specs.Calls.{Answers};

use crate::answered_device::AnsweredDevice;
use cip_events::Event;
use std::alloc::Global;
use std::marker::Model;

/// The cell of a handle in memory of C. In C it is the struct of a handle. A cell with a device owns what the box of
/// that device owns. A cell without a device owns nothing, and any pointer may stand there.
#[repr(C)]
#[derive(Drop)]
pub struct HandleCell {
    at: *mut u8,
    alloc: Global,
    ghost value: { Option AnsweredDevice },
    ghost last: { AnsweredDevice },
}

impl Model for HandleCell {
    ghost use Rattle.eip_c.specs.Cells.{cell_owns};

    ghost also_owns = { λ p. cell_owns p.alloc p.at p.value };
}

impl HandleCell {
    ghost use Rattle.eip_c.specs.Exchange.{MayExchange, Exchanges};

    /// Stores a device in the cell, whatever stood there; or takes the device that stands there.
    fn exchange(&mut self, new: Option<Box<AnsweredDevice>>) -> Option<Box<AnsweredDevice>>
        requires { MayExchange self.old new }
        ensures { Exchanges self.old new self.new result }
    {
        let at = self as *mut HandleCell as *mut Box<AnsweredDevice>;
        match new {
            Some(device) => unsafe {
                at.write(device);
                None
            },
            None => unsafe { Some(at.read()) },
        }
    }

    /// Stores a device in the cell.
    pub fn put(&mut self, device: Box<AnsweredDevice>)
        ensures value { self.new.value ≡ Some device.value }
        ensures last { self.new.last ≡ device.value }
    {
        let _ = self.exchange(Some(device));
    }

    /// Takes the device of the cell.
    pub fn take(&mut self) -> Box<AnsweredDevice>
        requires { self.old.value ≡ Some self.old.last }
        ensures { result.value ≡ self.old.last }
    {
        self.exchange(None).unwrap()
    }
}

/// A handle: a cell with a device. It owns the device, so C uses it by one thread at a time, frees it once, and never
/// uses it after that.
#[repr(C)]
pub struct Handle {
    pub cell: HandleCell,
}

impl Model for Handle {
    ghost use Rattle.std.specs.Prelude.{◌≡◌, Some};
    ghost use mathlib.Core.Path.{sym};
    ghost use Rattle.eip_c.specs.Exchange.{HandleFields};

    ghost Value = { HandleFields };

    ghost view = { λ h. record { at = h.cell.at; alloc = h.cell.alloc; value = h.cell.last } };

    ghost invariant = { λ h. h.cell.value ≡ Some h.cell.last };

    ghost inverse = { λ v. record { cell = record { at = v.at; alloc = v.alloc; value = Some v.value; last = v.value } } };

    ghost inverse_ok = { λ h full i. record { cell = record h.cell { value = sym full i } } };
}

impl Handle {
    /// The device, in its memory again.
    pub fn into_box(self) -> Box<AnsweredDevice>
        ensures { result.value ≡ self.value }
    {
        let Handle { mut cell } = self;
        cell.take()
    }

    /// Performs an event at the device, as `AnsweredDevice::perform` does.
    pub fn perform(&mut self, event: &Event, out: &mut [u8], size: &mut usize) -> u32
        ensures { Answers event.now self.old.value result self.new.value (out.old, size.old) (out.new, size.new) }
    {
        let mut taken = self.cell.take();
        let status = taken.perform(event, out, size);
        self.cell.put(taken);
        status
    }
}
