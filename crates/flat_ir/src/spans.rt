//! For how long values are needed.
ghost use Rattle.std.specs.Prelude.{◌≡◌};
ghost use Rattle.flat_ir.specs.Spans.{last_step};

use gal_io::Items;

/// A value that is written at one step and last read at another. A step reads before it writes.
#[derive(Clone, Copy, PartialEq, Eq)]
pub struct Span {
    pub value: u32,
    /// The step that writes it.
    pub from: u32,
    /// The step that reads it last; `from` where none does.
    pub to: u32,
}

impl Span {
    /// The last step at which nothing else may be written to the value's register.
    pub(crate) fn last(&self) -> u32
        ensures { result ≡ last_step self.now }
    {
        if self.to > self.from {
            self.to - 1
        } else {
            self.from
        }
    }
}

/// For how long each of some values is needed.
pub type Spans = Items<Span>;
