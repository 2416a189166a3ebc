//! The types of attributes.

/// How the value of an attribute is read and printed.
///
/// Volume 1, appendix C, data types.
#[derive(Clone, Copy, Debug, PartialEq, Eq)]
pub enum AttributeType {
    /// A number of one byte.
    Usint,
    /// A number of two bytes.
    Uint,
    /// A number of four bytes.
    Udint,
    /// 16 bits.
    Word,
    /// 32 bits.
    Dword,
    /// A major and a minor revision, of one byte each.
    Revision,
    /// A text behind one byte, which is its length.
    ShortString,
    /// A text behind two bytes, which are its length.
    CountedString,
    /// Five addresses and the name of a domain.
    Interface,
    /// The physical address of a link.
    PhysicalAddress,
    /// Bytes.
    Raw,
}
