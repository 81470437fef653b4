//! Declarations. Each function that reads gives what it read and the tokens that are left.
ghost use Rattle.std.specs.Prelude.{◌≡◌, ◌<◌, [], ◌∷◌, length, map, IfOk, IfErr};
ghost use Rattle.element_lang.specs.declared.mark.Mark.TheVariants.{Table as TableMark, Map as MapMark};
ghost use Rattle.element_lang.specs.declared.mark.Mark.TheVariants.{Vector as VectorMark, Int as IntMark};
ghost use Rattle.element_lang.specs.declared.mark.Mark.TheVariants.{Process as ProcessMark, Colon as ColonMark};
ghost use Rattle.element_lang.specs.Token.{fixed, number as number_token};
ghost use Rattle.element_lang.specs.Surface as tree;
ghost use Rattle.element_lang.specs.Grammar.{AreWidths, AreLiterals, AreRows, IsDecl};
ghost use Rattle.element_tokens.specs.Tokens.{span_text, tokens_of};
ghost use Rattle.element_grammar.specs.Surface.{surface_literal, surface_row, surface_decl, surface_object};
ghost use Rattle.element_grammar.specs.Machine.{mark, some_number, widths as widths_part, literals as literals_part};
ghost use Rattle.element_grammar.specs.Machine.{rows as rows_part, middlebox};
ghost use Rattle.element_grammar.specs.Refused.{NoMark, FoundHeader, FoundRow, FoundObjects, header_parts, row_parts};
ghost use Rattle.element_grammar.specs.Refused.{Misses};

use crate::cursor::{
    after_mark, after_marks, count, first, name_then, number, number_then, skip_mark, wrong,
};
use crate::error::ParseError;
use crate::surface::{At, Literal, SurfaceDecl, SurfaceRow};
use element_lang::Mark;
use element_tokens::{Placed, Span, Token};
use std::alloc::Global;

fn table_of(
    text: &[u8],
    name: Span,
    keys: Vec<u64>,
    values: Vec<u64>,
    rows: Vec<SurfaceRow>,
) -> SurfaceDecl
    ensures { surface_decl text.now result
        ≡ tree.table_decl (span_text text.now name) keys.items values.items (map surface_row rows.items) }
{
    SurfaceDecl::Table {
        name,
        keys,
        values,
        rows,
    }
}

fn map_of(text: &[u8], name: Span, keys: Vec<u64>, values: Vec<u64>, capacity: u64) -> SurfaceDecl
    ensures { surface_decl text.now result
        ≡ tree.map_decl (span_text text.now name) keys.items values.items capacity }
{
    SurfaceDecl::Map {
        name,
        keys,
        values,
        capacity,
    }
}

fn vector_of(text: &[u8], name: Span, length: u64, values: Vec<u64>) -> SurfaceDecl
    ensures { surface_decl text.now result
        ≡ tree.vector_decl (span_text text.now name) length values.items }
{
    SurfaceDecl::Vector {
        name,
        length,
        values,
    }
}

fn int_of(text: &[u8], name: Span, width: u64, start: u64) -> SurfaceDecl
    ensures { surface_decl text.now result ≡ tree.int_decl (span_text text.now name) width start }
{
    SurfaceDecl::Int { name, width, start }
}

// Reads widths with commas between them, and the bracket that closes them.
#[tactic(auto, using(crate::proofs::DeclarationPieces::lists_of_widths))]
fn widths<'t>(
    alloc: Global,
    text: &[u8],
    tokens: &'t [Placed],
) -> Result<(Vec<u64>, &'t [Placed]), ParseError>
    ensures ok { IfOk result (λ x. AreWidths x.0.items (tokens_of text.now tokens.now) (tokens_of text.now x.1.now)) }
    ensures shorter { IfOk result (λ x. length x.1.now < length tokens.now) }
    ensures err { IfErr result (λ e. Misses (widths_part ∷ []) (tokens_of text.now tokens.now) e) }
{
    let mut found = Vec::new(alloc);
    let mut left = tokens;
    'each: loop {
        let (width, rest) = number(text, left)?;
        found.push(width)?;
        if let Some(rest) = skip_mark(text, rest, Mark::RightParen) {
            return Ok((found, rest));
        }
        left = after_mark(text, rest, Mark::Comma)?;
    }
}

// Reads the literal in front.
fn one_literal<'t>(text: &[u8], tokens: &'t [Placed]) -> Result<(Literal, &'t [Placed]), ParseError>
    ensures ok { IfOk result (λ x. tokens_of text.now tokens.now
        ≡ number_token x.0.value ∷ fixed ColonMark ∷ number_token x.0.width ∷ tokens_of text.now x.1.now) }
    ensures shorter { IfOk result (λ x. length x.1.now < length tokens.now) }
    ensures err { IfErr result (λ e.
        Misses (some_number ∷ mark ColonMark ∷ some_number ∷ []) (tokens_of text.now tokens.now) e) }
{
    let (value, rest) = number_then(text, tokens, Mark::Colon)?;
    let (width, rest) = number(text, rest)?;
    Ok((Literal { value, width }, rest))
}

// Reads literals with commas between them, and the bracket that closes them.
#[tactic(auto, using(crate::proofs::DeclarationPieces::lists_of_literals))]
fn literals<'t>(
    alloc: Global,
    text: &[u8],
    tokens: &'t [Placed],
) -> Result<(Vec<Literal>, &'t [Placed]), ParseError>
    ensures ok { IfOk result (λ x. AreLiterals (map surface_literal x.0.items)
        (tokens_of text.now tokens.now) (tokens_of text.now x.1.now)) }
    ensures shorter { IfOk result (λ x. length x.1.now < length tokens.now) }
    ensures err { IfErr result (λ e. Misses (literals_part ∷ []) (tokens_of text.now tokens.now) e) }
{
    let mut found = Vec::new(alloc);
    let mut left = tokens;
    'each: loop {
        let (next, rest) = one_literal(text, left)?;
        found.push(next)?;
        if let Some(rest) = skip_mark(text, rest, Mark::RightParen) {
            return Ok((found, rest));
        }
        left = after_mark(text, rest, Mark::Comma)?;
    }
}

// Reads the row behind its opening bracket.
#[tactic(auto, using(crate::proofs::DeclarationPieces::single_rows))]
fn row<'t>(
    alloc: Global,
    text: &[u8],
    tokens: &'t [Placed],
) -> Result<(SurfaceRow, &'t [Placed]), ParseError>
    ensures ok { IfOk result (λ x. FoundRow (surface_row x.0)
        (tokens_of text.now tokens.now) (tokens_of text.now x.1.now)) }
    ensures shorter { IfOk result (λ x. length x.1.now < length tokens.now) }
    ensures err { IfErr result (λ e. Misses row_parts (tokens_of text.now tokens.now) e) }
{
    let (keys, rest) = literals(alloc, text, tokens)?;
    let rest = after_marks(text, rest, Mark::Arrow, Mark::LeftParen)?;
    let (values, rest) = literals(alloc, text, rest)?;
    let rest = after_mark(text, rest, Mark::Semicolon)?;
    Ok((SurfaceRow { keys, values }, rest))
}

// Reads rows, and the bracket that closes them.
#[tactic(auto, using(crate::proofs::DeclarationPieces::lists_of_rows))]
fn rows<'t>(
    alloc: Global,
    text: &[u8],
    tokens: &'t [Placed],
) -> Result<(Vec<SurfaceRow>, &'t [Placed]), ParseError>
    ensures ok { IfOk result (λ x. AreRows (map surface_row x.0.items)
        (tokens_of text.now tokens.now) (tokens_of text.now x.1.now)) }
    ensures shorter { IfOk result (λ x. length x.1.now < length tokens.now) }
    ensures err { IfErr result (λ e. Misses (rows_part ∷ []) (tokens_of text.now tokens.now) e) }
{
    let mut found = Vec::new(alloc);
    let mut left = tokens;
    'each: loop {
        if let Some(rest) = skip_mark(text, left, Mark::RightBrace) {
            return Ok((found, rest));
        }
        let rest = after_mark(text, left, Mark::LeftParen)?;
        let (next, rest) = row(alloc, text, rest)?;
        found.push(next)?;
        left = rest;
    }
}

// Reads the name of an object and the widths of its keys and values.
#[tactic(auto, using(crate::proofs::DeclarationPieces::headers))]
fn header<'t>(
    alloc: Global,
    text: &[u8],
    tokens: &'t [Placed],
) -> Result<(Span, Vec<u64>, Vec<u64>, &'t [Placed]), ParseError>
    ensures ok { IfOk result (λ x. FoundHeader (span_text text.now x.0) x.1.items x.2.items
        (tokens_of text.now tokens.now) (tokens_of text.now x.3.now)) }
    ensures shorter { IfOk result (λ x. length x.3.now < length tokens.now) }
    ensures err { IfErr result (λ e. Misses header_parts (tokens_of text.now tokens.now) e) }
{
    let (name, rest) = name_then(text, tokens, Mark::LeftParen)?;
    let (keys, rest) = widths(alloc, text, rest)?;
    let rest = after_marks(text, rest, Mark::Arrow, Mark::LeftParen)?;
    let (values, rest) = widths(alloc, text, rest)?;
    Ok((name, keys, values, rest))
}

// Reads the declaration behind `table`.
#[tactic(auto, using(crate::proofs::DeclarationPieces::with_headers))]
fn table_decl<'t>(
    alloc: Global,
    text: &[u8],
    tokens: &'t [Placed],
) -> Result<(SurfaceDecl, &'t [Placed]), ParseError>
    ensures ok { IfOk result (λ x. IsDecl (surface_decl text.now x.0)
        (fixed TableMark ∷ tokens_of text.now tokens.now) (tokens_of text.now x.1.now)) }
    ensures shorter { IfOk result (λ x. length x.1.now < length tokens.now) }
    ensures err { IfErr result (λ e.
        Misses (middlebox ∷ []) (fixed TableMark ∷ tokens_of text.now tokens.now) e) }
{
    let (name, keys, values, rest) = header(alloc, text, tokens)?;
    let rest = after_mark(text, rest, Mark::LeftBrace)?;
    let (rows, rest) = rows(alloc, text, rest)?;
    Ok((table_of(text, name, keys, values, rows), rest))
}

// Reads the declaration behind `map`.
#[tactic(auto, using(crate::proofs::DeclarationPieces::with_headers))]
fn map_decl<'t>(
    alloc: Global,
    text: &[u8],
    tokens: &'t [Placed],
) -> Result<(SurfaceDecl, &'t [Placed]), ParseError>
    ensures ok { IfOk result (λ x. IsDecl (surface_decl text.now x.0)
        (fixed MapMark ∷ tokens_of text.now tokens.now) (tokens_of text.now x.1.now)) }
    ensures shorter { IfOk result (λ x. length x.1.now < length tokens.now) }
    ensures err { IfErr result (λ e.
        Misses (middlebox ∷ []) (fixed MapMark ∷ tokens_of text.now tokens.now) e) }
{
    let (name, keys, values, rest) = header(alloc, text, tokens)?;
    let rest = after_mark(text, rest, Mark::Capacity)?;
    let (capacity, rest) = number_then(text, rest, Mark::Semicolon)?;
    Ok((map_of(text, name, keys, values, capacity), rest))
}

// Reads the declaration behind `vector`.
#[tactic(auto, using(crate::proofs::DeclarationPieces::without_headers))]
fn vector_decl<'t>(
    alloc: Global,
    text: &[u8],
    tokens: &'t [Placed],
) -> Result<(SurfaceDecl, &'t [Placed]), ParseError>
    ensures ok { IfOk result (λ x. IsDecl (surface_decl text.now x.0)
        (fixed VectorMark ∷ tokens_of text.now tokens.now) (tokens_of text.now x.1.now)) }
    ensures shorter { IfOk result (λ x. length x.1.now < length tokens.now) }
    ensures err { IfErr result (λ e.
        Misses (middlebox ∷ []) (fixed VectorMark ∷ tokens_of text.now tokens.now) e) }
{
    let (name, rest) = name_then(text, tokens, Mark::Length)?;
    let (length, rest) = number_then(text, rest, Mark::Arrow)?;
    let rest = after_mark(text, rest, Mark::LeftParen)?;
    let (values, rest) = widths(alloc, text, rest)?;
    let rest = after_mark(text, rest, Mark::Semicolon)?;
    Ok((vector_of(text, name, length, values), rest))
}

// Reads the declaration behind `int`.
#[tactic(auto, using(crate::proofs::DeclarationPieces::without_headers))]
fn int_decl<'t>(
    text: &[u8],
    tokens: &'t [Placed],
) -> Result<(SurfaceDecl, &'t [Placed]), ParseError>
    ensures ok { IfOk result (λ x. IsDecl (surface_decl text.now x.0)
        (fixed IntMark ∷ tokens_of text.now tokens.now) (tokens_of text.now x.1.now)) }
    ensures shorter { IfOk result (λ x. length x.1.now < length tokens.now) }
    ensures err { IfErr result (λ e.
        Misses (middlebox ∷ []) (fixed IntMark ∷ tokens_of text.now tokens.now) e) }
{
    let (name, rest) = name_then(text, tokens, Mark::Colon)?;
    let (width, rest) = number_then(text, rest, Mark::Assign)?;
    let (start, rest) = number_then(text, rest, Mark::Semicolon)?;
    Ok((int_of(text, name, width, start), rest))
}

// Reads the declaration in front.
#[tactic(auto, using(crate::proofs::DeclarationPieces::declared))]
fn declaration<'t>(
    alloc: Global,
    text: &[u8],
    tokens: &'t [Placed],
) -> Result<(SurfaceDecl, &'t [Placed]), ParseError>
    requires { NoMark ProcessMark (tokens_of text.now tokens.now) }
    ensures ok { IfOk result (λ x. IsDecl (surface_decl text.now x.0)
        (tokens_of text.now tokens.now) (tokens_of text.now x.1.now)) }
    ensures shorter { IfOk result (λ x. length x.1.now < length tokens.now) }
    ensures err { IfErr result (λ e. Misses (middlebox ∷ []) (tokens_of text.now tokens.now) e) }
{
    let (token, rest) = first(text, tokens)?;
    match token {
        Token::Fixed(Mark::Table) => table_decl(alloc, text, rest),
        Token::Fixed(Mark::Map) => map_decl(alloc, text, rest),
        Token::Fixed(Mark::Vector) => vector_decl(alloc, text, rest),
        Token::Fixed(Mark::Int) => int_decl(text, rest),
        _ => Err(wrong(text, tokens)),
    }
}

// Reads the declarations, and the `process` behind them.
#[tactic(auto, using(crate::proofs::DeclarationPieces::objects))]
pub(crate) fn declarations<'t>(
    alloc: Global,
    text: &[u8],
    tokens: &'t [Placed],
) -> Result<(Vec<At<SurfaceDecl>>, &'t [Placed]), ParseError>
    ensures ok { IfOk result (λ x. FoundObjects (map (surface_object text.now) x.0.items)
        (tokens_of text.now tokens.now) (fixed ProcessMark ∷ tokens_of text.now x.1.now)) }
    ensures err { IfErr result (λ e. Misses (middlebox ∷ []) (tokens_of text.now tokens.now) e) }
{
    let mut objects = Vec::new(alloc);
    let mut left = tokens;
    'objects: loop {
        if let Some(rest) = skip_mark(text, left, Mark::Process) {
            return Ok((objects, rest));
        }
        let at = count(text, left);
        let (item, rest) = declaration(alloc, text, left)?;
        objects.push(At { at, item })?;
        left = rest;
    }
}
