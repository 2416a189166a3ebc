//! Lists of the bytes that points hold.

ghost use Rattle.std.specs.Prelude.{◌≡◌, ◌++◌, true, map, length, OnOk, IfOk, option_to_list};
ghost use Rattle.std.specs.List.{position};
ghost use Rattle.std.specs.Option.{option_map};
ghost use Rattle.adapter_table.specs.Profiles.{as_point, are_distinct};
ghost use Rattle.adapter_table.specs.Points.{is_value_of, put_value, bytes_at, zeros, opening_values, zeroed_value, acted_values};
ghost use Rattle.adapter_table.specs.Shapes.{FitPoint, shape_of};

use adapter_table::{Action, InputPoint, OutputPoint, PointValue, Profile};
use cip_types::{Items, OutOfMemory};
use std::alloc::Global;

/// The bytes that a point holds.
pub fn find_value(values: &[PointValue], point: u32) -> Option<&[u8]>
    ensures { option_map (λ lent. lent.now) result ≡ bytes_at values.now point }
{
    for value in values {
        if value.point == point {
            return Some(value.bytes.as_slice());
        }
    }
    None
}

fn index_of(values: &[PointValue], point: u32) -> Option<usize>
    ensures { result ≡ position (is_value_of point) values.now }
{
    values.iter().position(|value| value.point == point)
}

/// Puts other bytes of the same length at a point. No two values are of one point. Takes no memory.
pub fn put_value(values: &mut [PointValue], point: u32, bytes: &[u8])
    requires fit { FitPoint point (length bytes.now) values.old }
    requires distinct { are_distinct (map shape_of values.old) ≡ true }
    ensures values { values.new ≡ put_value point bytes.now values.old }
    ensures shapes { map shape_of values.new ≡ map shape_of values.old }
{
    let Some(at) = index_of(values, point) else {
        return;
    };
    values[at].bytes.overwrite(bytes);
}

fn zero_value(value: &mut PointValue, point: u32)
    ensures { value.new ≡ zeroed_value point value.old }
{
    if value.point == point {
        value.bytes.zero();
    }
}

fn zero_point(values: &mut [PointValue], point: u32)
    ensures { values.new ≡ map (zeroed_value point) values.old }
{
    for value in values.iter_mut() {
        zero_value(value, point);
    }
}

/// Does an action on the bytes of a point. Takes no memory.
#[tactic(auto, using(adapter_table::specs::Fitting::zeroed_shapes))]
pub fn act(values: &mut [PointValue], action: Action, point: u32)
    ensures values { values.new ≡ acted_values action point values.old }
    ensures shapes { map shape_of values.new ≡ map shape_of values.old }
{
    match action {
        Action::Hold => {}
        Action::Zero => zero_point(values, point),
    }
}

fn zeros(alloc: Global, instance: u32, len: u64) -> Result<PointValue, OutOfMemory>
    ensures { IfOk result (λ value. value ≡ zeros (record { instance = instance; len = len })) }
{
    Ok(PointValue {
        point: instance,
        bytes: Items::zeros(alloc, len as usize)?,
    })
}

fn push_outputs(
    alloc: Global,
    values: &mut Vec<PointValue>,
    outputs: &[OutputPoint],
) -> Result<(), OutOfMemory>
    ensures { OnOk result (values.new.items ≡ values.old.items ++ map zeros (map as_point outputs.now)) }
{
    for output in outputs {
        values.push(zeros(alloc, output.instance, output.len)?)?;
    }
    Ok(())
}

fn push_inputs(
    alloc: Global,
    values: &mut Vec<PointValue>,
    inputs: &[InputPoint],
) -> Result<(), OutOfMemory>
    ensures { OnOk result (values.new.items ≡ values.old.items ++ map zeros inputs.now) }
{
    for input in inputs {
        values.push(zeros(alloc, input.instance, input.len)?)?;
    }
    Ok(())
}

fn push_config(
    alloc: Global,
    values: &mut Vec<PointValue>,
    config: Option<InputPoint>,
) -> Result<(), OutOfMemory>
    ensures { OnOk result (values.new.items ≡ values.old.items ++ map zeros (option_to_list config)) }
{
    let Some(config) = config else {
        return Ok(());
    };
    values.push(zeros(alloc, config.instance, config.len)?)?;
    Ok(())
}

/// The values of all points at the start: zeros.
pub fn opening_values(alloc: Global, profile: &Profile) -> Result<Vec<PointValue>, OutOfMemory>
    ensures { IfOk result (λ values. values.items ≡ opening_values profile.now) }
{
    let mut values = Vec::new(alloc);
    push_outputs(alloc, &mut values, profile.outputs.as_slice())?;
    push_inputs(alloc, &mut values, profile.inputs.as_slice())?;
    push_config(alloc, &mut values, profile.config)?;
    Ok(values)
}

/// A copy of the values of points.
pub fn copied(alloc: Global, values: &[PointValue]) -> Result<Vec<PointValue>, OutOfMemory>
    ensures { IfOk result (λ copy. copy.items ≡ values.now) }
{
    let mut copy = Vec::new(alloc);
    for value in values {
        let bytes = Items::copy_of(alloc, value.bytes.as_slice())?;
        copy.push(PointValue {
            point: value.point,
            bytes,
        })?;
    }
    Ok(copy)
}
