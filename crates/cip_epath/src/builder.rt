//! The states of a walk over the segments of a path.

ghost use Rattle.std.specs.Prelude.{◌≡◌};
ghost use Rattle.cip_epath.specs.Segment.{view_segment};
ghost use Rattle.cip_epath.specs.Path.{role_of, inhibit_of};

use crate::key::ElectronicKey;
use crate::segment::{LogicalType, Segment};

/// The front of a path: an optional key, and the class.
#[derive(Clone, Copy)]
pub struct PathHead {
    pub key: Option<ElectronicKey>,
    pub class: u32,
}

/// The state of the walk over a connection path, without its inhibit segments.
#[derive(Clone, Copy)]
pub enum PathBuilder<'a> {
    Start,
    Keyed(ElectronicKey),
    Classed(PathHead),
    One(PathHead, u32),
    Two(PathHead, u32, u32),
    Three(PathHead, u32, u32, u32),
    /// The configuration, consumed and produced points, and the data after them.
    Whole(PathHead, Option<u32>, u32, u32, &'a [u8]),
    /// A segment was out of place.
    Misplaced,
}

/// The number of inhibit segments so far, and the value of a single one.
#[derive(Clone, Copy)]
pub enum Inhibits {
    Nothing,
    One(u8),
    Several,
}

/// The state of the walk over a request path.
#[derive(Clone, Copy)]
pub enum TargetBuilder {
    Start,
    Classed(u32),
    Instanced(u32, u32),
    Whole(u32, u32, u32),
    /// A segment was out of place.
    Misplaced,
}

impl<'a> PathBuilder<'a> {
    ghost use Rattle.cip_epath.specs.PathBuilder.{view_path_builder, next_if};

    /// The state after one more segment.
    pub fn then(self, segment: Segment<'a>) -> PathBuilder<'a>
        ensures { view_path_builder result
            ≡ next_if (role_of (view_segment segment.entry)) (view_path_builder self.entry) }
    {
        match segment {
            Segment::Inhibit(_) => self,
            Segment::ElectronicKey(key) => match self {
                PathBuilder::Start => PathBuilder::Keyed(key),
                _ => PathBuilder::Misplaced,
            },
            Segment::Logical(LogicalType::Class, class) => match self {
                PathBuilder::Start => PathBuilder::Classed(PathHead { key: None, class }),
                PathBuilder::Keyed(key) => PathBuilder::Classed(PathHead {
                    key: Some(key),
                    class,
                }),
                _ => PathBuilder::Misplaced,
            },
            Segment::Logical(LogicalType::Instance | LogicalType::ConnectionPoint, point) => {
                match self {
                    PathBuilder::Classed(head) => PathBuilder::One(head, point),
                    PathBuilder::One(head, first) => PathBuilder::Two(head, first, point),
                    PathBuilder::Two(head, first, second) => PathBuilder::Three(
                        head, first, second, point,
                    ),
                    _ => PathBuilder::Misplaced,
                }
            }
            Segment::Logical(LogicalType::Member | LogicalType::Attribute, _) =>
                PathBuilder::Misplaced,
            Segment::Data(data) => match self {
                PathBuilder::Two(head, consumed, produced) => {
                    PathBuilder::Whole(head, None, consumed, produced, data)
                }
                PathBuilder::Three(head, config, consumed, produced) => {
                    PathBuilder::Whole(head, Some(config), consumed, produced, data)
                }
                _ => PathBuilder::Misplaced,
            },
        }
    }
}

impl Inhibits {
    ghost use Rattle.cip_epath.specs.PathBuilder.{next_count};

    /// The count after one more segment.
    pub fn then(self, segment: Segment<'_>) -> Inhibits
        ensures { result ≡ next_count (inhibit_of (view_segment segment.entry)) self }
    {
        let Segment::Inhibit(ms) = segment else {
            return self;
        };
        match self {
            Inhibits::Nothing => Inhibits::One(ms),
            _ => Inhibits::Several,
        }
    }
}

impl TargetBuilder {
    ghost use Rattle.cip_epath.specs.PathBuilder.{next_target};

    /// The state after one more segment.
    pub fn then(self, segment: Segment<'_>) -> TargetBuilder
        ensures { result ≡ next_target (view_segment segment.entry) self }
    {
        match segment {
            Segment::Logical(LogicalType::Class, class) => match self {
                TargetBuilder::Start => TargetBuilder::Classed(class),
                _ => TargetBuilder::Misplaced,
            },
            Segment::Logical(LogicalType::Instance, instance) => match self {
                TargetBuilder::Classed(class) => TargetBuilder::Instanced(class, instance),
                _ => TargetBuilder::Misplaced,
            },
            Segment::Logical(LogicalType::Attribute, attribute) => match self {
                TargetBuilder::Instanced(class, instance) => {
                    TargetBuilder::Whole(class, instance, attribute)
                }
                _ => TargetBuilder::Misplaced,
            },
            _ => TargetBuilder::Misplaced,
        }
    }
}
