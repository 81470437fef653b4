//! Which rule a source breaks, and where.

/// A declaration or a statement of a source that breaks a rule.
#[derive(Clone, Copy, PartialEq, Eq)]
pub struct Broken {
    /// The rule, from 1 to 14.
    pub rule: u8,
    /// How many tokens there are from its first one to the end of the source.
    pub at: usize,
}
