//! From a text to a chain.
ghost use Rattle.std.specs.Prelude.{◌≡◌, ◌≢◌, ◌⊎◌, ◌≤◌, ℕ, List, length, map, count_by, IfOk, IfErr, MatchResult};
ghost use Rattle.element_chain.specs.declared.chain.Chain.{Chain};
ghost use Rattle.chain_text.specs.Token as chain;
ghost use Rattle.chain_text.specs.Tokens.{placed_of};
ghost use Rattle.chain_text.specs.declared.error.ChainTextError.{ChainTextError};
ghost use Rattle.chain_text.specs.Reads.{elements_of, most_elements, told, offset_at, IsSpelling, IsChainText};
ghost use Rattle.chain_text.specs.Reads.{IsRefused, IsComposable};
ghost use Rattle.chain_text.specs.Statements.{statements_of, is_declaration};
ghost use Rattle.chain_text.specs.Taken.{IsTaken, IsTakeError};

use crate::builder::Builder;
use crate::error::ChainTextError;
use crate::grammar::{GrammarError, parse};
use crate::reach::has_cycle;
use crate::statement::Statement;
use crate::token::Placed;
use crate::tokenizer::tokens;
use element_chain::Chain;
use lexer::TokenError;
use std::alloc::Global;

/// The most elements of a chain.
const MAX_ELEMENTS: usize = 32;

// The offset of the token at a place. Behind the last one it is the length of the text.
fn offset_at(text: &[u8], found: &[Placed], place: usize) -> usize
    ensures { result ≡ offset_at text.now (map (placed_of text.now) found.now) place }
{
    match found.get(place) {
        Some(placed) => placed.offset,
        None => text.len(),
    }
}

// A count as it is told.
fn told(count: usize) -> u32
    ensures { result ≡ told count }
{
    u32::try_from(count).unwrap_or(u32::MAX)
}

// How many statements declare an element.
fn declarations(statements: &[Statement]) -> usize
    ensures { result ≡ count_by is_declaration statements.now }
{
    statements
        .iter()
        .filter(|statement| matches!(statement, Statement::Declares { .. }))
        .count()
}

// The elements and wires of statements.
fn take_all(alloc: Global, text: &[u8], statements: &[Statement]) -> Result<Chain, ChainTextError>
    requires { length (elements_of (statements_of text.now statements.now)) ≤ most_elements }
    ensures ok { IfOk result (λ chain. IsTaken (statements_of text.now statements.now) chain) }
    ensures err { IfErr result (λ e. IsTakeError (statements_of text.now statements.now) e) }
{
    let mut builder = Builder::new(alloc);
    for (place, statement) in statements.iter().enumerate() {
        if !builder.take(alloc, text, *statement)? {
            return Err(ChainTextError::Statement(told(place + 1)));
        }
    }
    Ok(builder.finish())
}

// The chain of the statements of a text.
fn read_statements(
    alloc: Global,
    text: &[u8],
    statements: &[Statement],
) -> Result<Chain, ChainTextError>
    requires { IsSpelling text.now (statements_of text.now statements.now) }
    ensures ok { IfOk result (λ chain. IsChainText text.now chain) }
    ensures composable { IfOk result (λ chain. IsComposable chain) }
    ensures err { IfErr result (λ e. IsRefused text.now e) }
{
    let count = declarations(statements);
    if count > MAX_ELEMENTS {
        return Err(ChainTextError::Elements(told(count)));
    }
    let chain = take_all(alloc, text, statements)?;
    let elements = chain.elements.len();
    if elements == 0 {
        return Err(ChainTextError::Empty);
    }
    if has_cycle(alloc, chain.wires.as_slice(), elements)? {
        return Err(ChainTextError::Cycle);
    }
    Ok(chain)
}

// The chain of the tokens of a text.
fn read_tokens(alloc: Global, text: &[u8], found: &[Placed]) -> Result<Chain, ChainTextError>
    requires { chain.AreTokens text.now (map (placed_of text.now) found.now) }
    ensures ok { IfOk result (λ chain. IsChainText text.now chain) }
    ensures composable { IfOk result (λ chain. IsComposable chain) }
    ensures err { IfErr result (λ e. IsRefused text.now e) }
{
    match parse(alloc, found) {
        Ok(statements) => read_statements(alloc, text, &statements),
        Err(GrammarError::Wrong(place)) => Err(ChainTextError::Syntax(offset_at(
            text, found, place,
        ))),
        Err(GrammarError::NoMemory) => Err(ChainTextError::NoMemory),
    }
}

// The chain of a text.
fn read_text(alloc: Global, text: &[u8]) -> Result<Chain, ChainTextError>
    ensures ok { IfOk result (λ chain. IsChainText text.now chain) }
    ensures composable { IfOk result (λ chain. IsComposable chain) }
    ensures err { IfErr result (λ e. IsRefused text.now e) }
{
    match tokens(alloc, text) {
        Ok(found) => read_tokens(alloc, text, &found),
        Err(TokenError::NoToken(offset)) => Err(ChainTextError::Syntax(offset)),
        Err(TokenError::NoMemory) => Err(ChainTextError::NoMemory),
    }
}

/// Reads a chain. Of several reasons to refuse a text, the first one in the order of `ChainTextError` is answered.
pub fn read_chain(alloc: Global, text: &[u8]) -> Result<Chain, ChainTextError>
    ensures ok { IfOk result (λ chain. IsChainText text.now chain) }
    ensures only { IfOk result (λ chain. (other : Chain) → IsChainText text.now other → other ≡ chain) }
    ensures composable { IfOk result (λ chain. IsComposable chain) }
    ensures refused { IfErr result (λ e. IsRefused text.now e) }
    ensures exact { (e : ChainTextError) → e ≢ ChainTextError.NoMemory → IsRefused text.now e
        → MatchResult result (λ _. ⊥) (λ found. (found ≡ e) ⊎ (found ≡ ChainTextError.NoMemory)) }
    ensures found { (chain : Chain) → IsChainText text.now chain
        → MatchResult result (λ found. found ≡ chain) (λ e. e ≡ ChainTextError.NoMemory) }
{
    read_text(alloc, text)
}
