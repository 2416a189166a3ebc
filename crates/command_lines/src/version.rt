//! The version of this line's programs.

/// The version that each program prints.
pub const VERSION: &str = "1.51.0";
