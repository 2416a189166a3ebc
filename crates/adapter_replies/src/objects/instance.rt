//! Instances of objects.

use crate::objects::value::Attribute;

/// An instance of an object: its attributes, and which services it has beside Get_Attribute_Single.
///
/// Volume 1, chapter 5, object library.
#[derive(Clone, Copy)]
pub struct Instance<'s, 'a> {
    pub attributes: &'s [Attribute<'a>],
    pub gets_all: bool,
    pub sets: bool,
    pub resets: bool,
}
