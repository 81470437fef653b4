//! Which elements wires lead to, as a table.

/// For each two elements, whether wires lead from the first to the second: the row of the first, then the next row.
#[derive(Drop)]
pub(crate) struct Reach {
    pub count: usize,
    pub rows: Vec<bool>,
}
