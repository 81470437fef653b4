//! From tokens to statements.
ghost use Rattle.std.specs.Prelude.{◌≡◌, ◌++◌, ◌<◌, ◌≤◌, ℕ, List, length, drop, slice_get, IfOk, IfErr};
ghost use Rattle.chain_text.specs.Tokens.{tokens_of};
ghost use Rattle.chain_text.specs.Grammar.{statement_tokens, spelled, IsFirstWrong};
ghost use Rattle.chain_text.specs.Statements.{statement_of, statements_of, span_at, value_at};
ghost use Rattle.chain_text.specs.Refused.{IsGrammarError};

use crate::shape::{DECLARATION, WIRE, fit};
use crate::statement::Statement;
use crate::token::{Placed, Token};
use lexer::Span;
use std::alloc::{AllocFailed, Global};

/// Why tokens spell no statements.
#[derive(Clone, Copy)]
pub(crate) enum GrammarError {
    /// The token at this place, counted from 0, is the first wrong one; or, behind the last, more have to follow.
    Wrong(usize),
    NoMemory,
}

impl<T: Drop> From<AllocFailed<T>> for GrammarError {
    ghost use Rattle.std.specs.Prelude.{◌≡◌};
    ghost use Rattle.chain_text.specs.declared.grammar.GrammarError.TheVariants.{NoMemory};

    ghost from_gives = { λ _ e. e ≡ NoMemory };

    fn from(_: AllocFailed<T>) -> GrammarError {
        GrammarError::NoMemory
    }
}

// The name at a place. Where none is there, it has no bytes.
fn name_at(tokens: &[Placed], place: usize) -> Span
    ensures { result ≡ span_at tokens.now place }
{
    match tokens.get(place) {
        Some(
            Placed {
                token: Token::Name(span),
                ..
            },
        ) => *span,
        _ => Span { offset: 0, len: 0 },
    }
}

// The number at a place, and 0 where none is there.
fn number_at(tokens: &[Placed], place: usize) -> u8
    ensures { result ≡ value_at tokens.now place }
{
    match tokens.get(place) {
        Some(
            Placed {
                token: Token::Number(number),
                ..
            },
        ) => *number,
        _ => 0,
    }
}

// The statement in front, or how many tokens stand before the first wrong one.
fn in_front(tokens: &[Placed]) -> Result<Statement, usize>
    requires { 0 < length tokens.now }
    ensures ok { (text : List ℕ) → IfOk result (λ s. tokens_of text tokens.now ≡ statement_tokens (statement_of text s)
        ++ drop (length (statement_tokens (statement_of text s))) (tokens_of text tokens.now)) }
    ensures err { (text : List ℕ) → IfErr result (λ right. IsFirstWrong (tokens_of text tokens.now) right) }
{
    let declaration = fit(&DECLARATION, tokens);
    if declaration == DECLARATION.len() {
        return Ok(Statement::Declares {
            element: name_at(tokens, 0),
            class: name_at(tokens, 2),
        });
    }
    let wire = fit(&WIRE, tokens);
    if wire == WIRE.len() {
        return Ok(Statement::Wires {
            from: name_at(tokens, 0),
            output: number_at(tokens, 2),
            input: number_at(tokens, 6),
            to: name_at(tokens, 8),
        });
    }
    Err(declaration.max(wire))
}

/// The statements that tokens spell.
pub(crate) fn parse(alloc: Global, tokens: &[Placed]) -> Result<Vec<Statement>, GrammarError>
    ensures ok { (text : List ℕ)
        → IfOk result (λ ss. tokens_of text tokens.now ≡ spelled (statements_of text ss.items)) }
    ensures err { (text : List ℕ) → IfErr result (λ e. IsGrammarError (tokens_of text tokens.now) e) }
{
    let mut found = Vec::new(alloc);
    let mut place: usize = 0;
    while place < tokens.len() {
        match in_front(&tokens[place..]) {
            Ok(statement) => {
                place += statement.tokens();
                found.push(statement)?;
            }
            Err(right) => return Err(GrammarError::Wrong(place + right)),
        }
    }
    Ok(found)
}
