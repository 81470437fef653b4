//! How large a flat program may be.

/// The most instructions of a flat program.
pub const MAX_INSTRUCTIONS: usize = 4_096;
