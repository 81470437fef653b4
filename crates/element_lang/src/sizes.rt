//! The sizes that a source keeps.
ghost use Rattle.std.specs.Prelude.{◌≡◌};
ghost use Rattle.element_lang.specs.Bounds as bounds;
ghost use Rattle.element_lang.specs.Rules as rules;

/// The most brackets, of any kind, that may be open at once in a source.
pub const MAX_DEPTH: usize = 64;

/// The most rows of an object, and the most rows that a map has room for.
pub const MAX_ROWS: usize = 1_048_576;

/// The most objects that a source declares.
pub const MAX_OBJECTS: usize = 64;

/// The most rows of its tables, capacities of its maps and lengths of its vectors together.
pub const MAX_ENTRIES: u64 = 1_048_576;

/// The most statements that store or remove a row, one in a repeat counted as often as it runs.
pub const MAX_WRITES: u64 = 64;

/// What there is too much of in a source.
#[derive(Clone, Copy, Debug, PartialEq, Eq)]
pub enum What {
    /// Brackets that are open at once.
    Depth,
    /// Declared objects.
    Objects,
    /// Rows of its tables, capacities of its maps and lengths of its vectors together.
    Entries,
    /// Statements that store or remove a row, one in a repeat counted as often as it runs.
    Writes,
}

impl What {
    /// The most that a source may have of it.
    pub fn bound(self) -> u64
        ensures { result ≡ bounds.limit_of self }
    {
        match self {
            What::Depth => MAX_DEPTH as u64,
            What::Objects => MAX_OBJECTS as u64,
            What::Entries => MAX_ENTRIES,
            What::Writes => MAX_WRITES,
        }
    }
}

/// Whether a map can have room for so many rows, or a vector so many.
pub fn is_size(size: u64) -> bool
    ensures { result ≡ rules.is_size size }
{
    1 <= size && size <= MAX_ROWS as u64
}
