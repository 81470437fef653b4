//! Statements of a chain's text, without the text that their names lie in.
ghost use Rattle.std.specs.Prelude.{◌≡◌, ◌<◌, ℕ, List, length};
ghost use Rattle.chain_text.specs.Grammar.{statement_tokens};
ghost use Rattle.chain_text.specs.Statements.{statement_of};

use crate::shape::{DECLARATION, WIRE};
use lexer::Span;

/// A statement.
#[derive(Clone, Copy)]
pub(crate) enum Statement {
    /// An element of a class.
    Declares {
        element: Span,
        class: Span,
    },
    /// A wire from an output of an element to an input of another one, or out.
    Wires {
        from: Span,
        output: u8,
        input: u8,
        to: Span,
    },
}

impl Statement {
    /// How many tokens it has.
    pub(crate) fn tokens(&self) -> usize
        ensures count { (text : List ℕ) → result ≡ length (statement_tokens (statement_of text self.now)) }
        ensures nonempty { 0 < result }
    {
        match self {
            Statement::Declares { .. } => DECLARATION.len(),
            Statement::Wires { .. } => WIRE.len(),
        }
    }
}
