//! The connection points of an adapter and the bytes that they hold.

ghost use Rattle.std.specs.Prelude.{◌≡◌, ◌≤◌, IsTrue, IfSome, Some, None, IfOk, OnOk, OnErr, IfErr, find, length};
ghost use Rattle.std.specs.Option.{option_map};
ghost use Rattle.std.specs.Result.{result_ok, result_err};
ghost use Rattle.adapter_table.specs.Profiles.{profile_fault, is_at, is_output_at};
ghost use Rattle.adapter_table.specs.Productions.{input_of};
ghost use Rattle.adapter_table.specs.Points.{put_value, bytes_at, idle_values, lost_values};
ghost use Rattle.adapter_table.specs.Opening.{configured};
ghost use Rattle.assembly_set.specs.Assemblies.{opened, is_output, config_len, write_fault};
ghost use Rattle.adapter_table.specs.Shapes.{IsShaped, len_of};

use crate::fault::PointFault;
use crate::values::{act, copied, find_value, opening_values, put_value};
use adapter_table::{InputPoint, OutputPoint, PointValue, Profile};
use cip_productions::Producer;
use cip_types::{Items, OutOfMemory};
use std::alloc::Global;
use std::marker::Model;

/// The outputs, inputs and configuration of an adapter and the bytes that they hold.
///
/// Volume 1, chapter 5, Assembly object. A set keeps a copy of its profile. Only `new`, `holding` and
/// `copy_values` take memory.
#[derive(Drop)]
pub struct AssemblySet {
    profile: Profile,
    values: Vec<PointValue>,
}

impl Model for AssemblySet {
    ghost use Rattle.assembly_set.specs.Assemblies.{Assemblies};
    ghost use Rattle.adapter_table.specs.Shapes.{IsShaped};

    ghost Value = { Assemblies };

    ghost view = { λ s. record { profile = s.profile; values = s.values.items } };

    ghost invariant = { λ s. IsShaped s.profile s.values.items };
}

impl AssemblySet {
    /// The points of a profile that passes its check, each holding zeros. Out of memory is the only fault.
    ///
    /// No later call that changes the set takes memory.
    pub fn new(alloc: Global, profile: &Profile) -> Result<Self, OutOfMemory>
        requires { profile_fault profile.now ≡ None }
        ensures { IfOk result (λ set. set ≡ opened profile.now) }
    {
        let values = opening_values(alloc, profile)?;
        let profile = profile.copy(alloc)?;
        Ok(AssemblySet { profile, values })
    }

    /// The points of a profile that hold these bytes. Out of memory is the only fault.
    pub fn holding(
        alloc: Global,
        profile: &Profile,
        values: &[PointValue],
    ) -> Result<Self, OutOfMemory>
        requires { IsShaped profile.now values.now }
        ensures { IfOk result (λ set. set ≡ record { profile = profile.now; values = values.now }) }
    {
        let values = copied(alloc, values)?;
        let profile = profile.copy(alloc)?;
        Ok(AssemblySet { profile, values })
    }

    /// A copy of the bytes of the points. Out of memory is the only fault.
    pub fn copy_values(&self, alloc: Global) -> Result<Items<PointValue>, OutOfMemory>
        ensures { IfOk result (λ values. values ≡ self.now.values) }
    {
        Ok(Items::from_vec(copied(alloc, &self.values)?))
    }

    /// The profile of the set.
    pub fn profile(&self) -> &Profile
        ensures value { result.now ≡ self.now.profile }
        ensures sound { IsShaped self.now.profile self.now.values }
    {
        &self.profile
    }

    /// The points, each with the bytes that it holds. Takes no memory.
    pub fn values(&self) -> &[PointValue]
        ensures { result.now ≡ self.now.values }
    {
        &self.values
    }

    /// The output of an instance.
    ///
    /// Volume 1, chapter 3, connection points.
    pub fn output(&self, point: u32) -> Option<OutputPoint>
        ensures found { result ≡ find (is_output_at point) self.now.profile.outputs }
        ensures short { IfSome result (λ output. output.len ≤ 1400) }
    {
        self.profile.output(point)
    }

    /// The input of an instance.
    ///
    /// Volume 1, chapter 3, connection points.
    pub fn input(&self, point: u32) -> Option<InputPoint>
        ensures found { result ≡ find (is_at point) self.now.profile.inputs }
        ensures short { IfSome result (λ input. input.len ≤ 1400) }
    {
        self.profile.input(point)
    }

    /// The bytes that an output, an input or the configuration holds, at most 1,400.
    ///
    /// Refuses any other point (`NoSuchPoint`).
    pub fn read(&self, point: u32) -> Result<&[u8], PointFault>
        ensures value { option_map (λ lent. lent.now) (result_ok result) ≡ bytes_at self.now.values point }
        ensures length { option_map (λ lent. length lent.now) (result_ok result) ≡ len_of self.now.profile point }
        ensures short { IfOk result (λ bytes. length bytes.now ≤ 1400) }
        ensures fault { IfErr result (λ fault. fault ≡ PointFault.NoSuchPoint) }
    {
        find_value(&self.values, point).ok_or(PointFault::NoSuchPoint)
    }

    /// The bytes that the input of a producer holds, at most 1,400. Takes no memory.
    ///
    /// Volume 1, chapter 3, class 1 transport.
    #[inline(always)]
    pub fn input_of(&self, producer: &Producer) -> &[u8]
        ensures value { result.now ≡ input_of self.now.values producer.now }
        ensures short { length result.now ≤ 1400 }
    {
        match self.read(producer.point) {
            Ok(input) => input,
            Err(_) => &[],
        }
    }

    /// Puts an owner's run-mode data, as many bytes as the output has, at that output alone. Takes no memory.
    #[tactic(auto, using(crate::proofs::Shaping::sound_written, crate::proofs::Shaping::fits_lent, crate::proofs::Shaping::differ_lent))]
    pub fn apply(&mut self, point: u32, run_data: &[u8])
        requires output { IsTrue (is_output self.old.profile point) }
        requires right_length { len_of self.old.profile point ≡ Some (length run_data.now) }
        ensures { self.new ≡ record self.old { values = put_value point run_data.now self.old.values } }
    {
        put_value(&mut self.values, point, run_data);
    }

    /// Does the idle action of an output whose owner is in idle mode: under `Zero` it becomes zeros, under `Hold`
    /// it stays. A point that is no output stays.
    #[tactic(auto, using(crate::proofs::Shaping::sound_written))]
    pub fn idle(&mut self, point: u32)
        ensures { self.new ≡ record self.old { values = idle_values self.old.profile point self.old.values } }
    {
        if let Some(output) = self.output(point) {
            act(&mut self.values, output.idle, output.instance);
        }
    }

    /// Does the fault action of an output whose owner is lost: under `Zero` it becomes zeros, under `Hold` it
    /// stays. A point that is no output stays.
    #[tactic(auto, using(crate::proofs::Shaping::sound_written))]
    pub fn lose(&mut self, point: u32)
        ensures { self.new ≡ record self.old { values = lost_values self.old.profile point self.old.values } }
    {
        if let Some(output) = self.output(point) {
            act(&mut self.values, output.fault, output.instance);
        }
    }

    /// Puts other bytes at an input.
    ///
    /// Refuses a point that is no input (`NoSuchPoint`), then bytes that are more or fewer than the
    /// input's (`WrongLength`); the set stays.
    #[tactic(auto, using(crate::proofs::Shaping::sound_written, crate::proofs::Shaping::input_fits_lent, crate::proofs::Shaping::differ_lent))]
    pub fn write(&mut self, point: u32, bytes: &[u8]) -> Result<(), PointFault>
        ensures fault { result_err result ≡ write_fault self.old.profile point (length bytes.now) }
        ensures ok { OnOk result (self.new ≡ record self.old { values = put_value point bytes.now self.old.values }) }
        ensures err { OnErr result (self.new ≡ self.old) }
    {
        let Some(input) = self.input(point) else {
            return Err(PointFault::NoSuchPoint);
        };
        if bytes.len() as u64 != input.len {
            return Err(PointFault::WrongLength);
        }
        put_value(&mut self.values, point, bytes);
        Ok(())
    }

    /// Stores a data segment, as many bytes as the configuration has, at the configuration.
    #[tactic(auto, using(crate::proofs::Shaping::sound_written, crate::proofs::Shaping::config_fits_lent, crate::proofs::Shaping::differ_lent))]
    pub fn configure(&mut self, segment: &[u8])
        requires { config_len self.old.profile ≡ Some (length segment.now) }
        ensures { self.new
            ≡ record self.old { values = configured self.old.profile.config (Some segment.now) self.old.values } }
    {
        if let Some(config) = self.profile.config {
            put_value(&mut self.values, config.instance, segment);
        }
    }
}
