//! What is counted of statements.

/// What is counted of statements, those within others too.
#[derive(Clone, Copy, PartialEq, Eq)]
pub(crate) enum Gauge {
    /// The statements themselves.
    Statements,
    /// Statements that store or remove a row, as often as a `repeat` around them does it.
    Writes,
    /// The locals that statements declare.
    Locals,
    /// The places where statements name a local.
    Uses,
    /// The bytes of a printed text, each token with what stands after it, but for those of the names of locals.
    Bytes,
}
