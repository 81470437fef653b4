//! Where instructions are given, and whether a run has ended.

use flat_ir::ValueId;

/// Where instructions are given: in a block, and for a `repeat` or not.
#[derive(Clone, Copy)]
pub struct Place {
    pub block: u32,
    pub looped: bool,
}

/// Whether the run has ended.
#[derive(Clone, Copy)]
pub enum Ending {
    No,
    Yes,
    /// The run has ended where this value, of 1 bit, is 1.
    Maybe(ValueId),
}
