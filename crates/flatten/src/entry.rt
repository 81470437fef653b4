//! Assignments of locals.

use flat_ir::ValueId;

/// A local, and the value that it had before it was assigned.
#[derive(Clone, Copy)]
pub(crate) struct Entry {
    pub local: u32,
    pub before: Option<ValueId>,
}

/// A local that one side or the other has assigned, and its values on both.
#[derive(Clone, Copy)]
pub(crate) struct Change {
    pub local: u32,
    pub first: Option<ValueId>,
    pub second: Option<ValueId>,
}
