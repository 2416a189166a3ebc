//! Reading paths.

ghost use Rattle.std.specs.Prelude.{◌≡◌, Result};
ghost use Rattle.cip_epath.specs.declared.fault.PathFault.{PathFault};
ghost use Rattle.cip_epath.specs.declared.path.Target.{Target};
ghost use Rattle.cip_epath.specs.Path.{PathFields, view_path, IsPath, IsTarget, IsReading};
ghost use Rattle.cip_epath.specs.Reading.{Gives, seen, path_reading, target_reading};
ghost use Rattle.cip_epath.specs.PathBuilder.{view_path_builder, path_of, target_of};

use crate::builder::{Inhibits, PathBuilder, TargetBuilder};
use crate::fault::PathFault;
use crate::path::{ConnPath, Target};
use crate::reading::segment_of;

/// The path of a finished walk.
pub fn finished<'a>(builder: PathBuilder<'a>, inhibits: Inhibits) -> Result<ConnPath<'a>, PathFault>
    ensures { Gives view_path result (path_of inhibits (view_path_builder builder.entry)) }
{
    let inhibit = match inhibits {
        Inhibits::Nothing => None,
        Inhibits::One(ms) => Some(ms),
        Inhibits::Several => return Err(PathFault::Shape),
    };
    let (head, config, consumed, produced, segment) = match builder {
        PathBuilder::Two(head, consumed, produced) => (head, None, consumed, produced, None),
        PathBuilder::Three(head, config, consumed, produced) => {
            (head, Some(config), consumed, produced, None)
        }
        PathBuilder::Whole(head, config, consumed, produced, data) => {
            (head, config, consumed, produced, Some(data))
        }
        _ => return Err(PathFault::Shape),
    };
    Ok(ConnPath {
        key: head.key,
        inhibit,
        class: head.class,
        config,
        consumed,
        produced,
        segment,
    })
}

/// The path of the segments, from the front on.
fn walked_path(bytes: &[u8]) -> Result<ConnPath<'_>, PathFault>
    ensures { seen view_path result ≡ path_reading bytes.now }
{
    let mut rest = bytes;
    let mut builder = PathBuilder::Start;
    let mut inhibits = Inhibits::Nothing;
    while !rest.is_empty() {
        let (segment, after) = segment_of(rest)?;
        builder = builder.then(segment);
        inhibits = inhibits.then(segment);
        rest = after;
    }
    finished(builder, inhibits)
}

/// Reads a connection path. Its data segment borrows from the bytes.
///
/// The first unreadable segment decides the fault: `Segment` where its first byte is that of no segment,
/// `KeyFormat` where it is an electronic key of another format, otherwise `Truncated`. `Shape` where every
/// segment is readable and their arrangement is none of a path's, as for no bytes at all.
///
/// Volume 1, appendix C, segment types, and chapter 3, connection path.
pub fn read_path(bytes: &[u8]) -> Result<ConnPath<'_>, PathFault>
    // The result is a reading of the bytes.
    ensures reading { IsReading IsPath bytes.now (seen view_path result) }
    // The bytes have no other reading.
    ensures only { (other : Result PathFields PathFault) → IsReading IsPath bytes.now other
        → seen view_path result ≡ other }
    // The same as a function of the bytes.
    ensures value { seen view_path result ≡ path_reading bytes.now }
{
    walked_path(bytes)
}

/// The target of a finished walk.
fn finished_target(builder: TargetBuilder) -> Result<Target, PathFault>
    ensures { result ≡ target_of builder }
{
    match builder {
        TargetBuilder::Instanced(class, instance) => Ok(Target {
            class,
            instance,
            attribute: None,
        }),
        TargetBuilder::Whole(class, instance, attribute) => Ok(Target {
            class,
            instance,
            attribute: Some(attribute),
        }),
        _ => Err(PathFault::Shape),
    }
}

/// The target of the segments, from the front on.
fn walked_target(bytes: &[u8]) -> Result<Target, PathFault>
    ensures { result ≡ target_reading bytes.now }
{
    let mut rest = bytes;
    let mut builder = TargetBuilder::Start;
    while !rest.is_empty() {
        let (segment, after) = segment_of(rest)?;
        builder = builder.then(segment);
        rest = after;
    }
    finished_target(builder)
}

/// Reads a request path. The faults are those of `read_path`.
///
/// Volume 1, appendix C, segment types, and chapter 2, request path.
pub fn read_target(bytes: &[u8]) -> Result<Target, PathFault>
    // The result is a reading of the bytes.
    ensures reading { IsReading IsTarget bytes.now result }
    // The bytes have no other reading.
    ensures only { (other : Result Target PathFault) → IsReading IsTarget bytes.now other → result ≡ other }
    // The same as a function of the bytes.
    ensures value { result ≡ target_reading bytes.now }
{
    walked_target(bytes)
}
