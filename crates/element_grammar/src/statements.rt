//! Statements and blocks. Each function that reads gives what it read and the tokens that are left.
ghost use Rattle.std.specs.Prelude.{◌≡◌, ◌<◌, ◌≤◌, [], ◌∷◌, length, map, IfOk, IfErr};
ghost use Rattle.element_lang.specs.declared.mark.Mark.TheVariants.{Let as LetMark, Look as LookMark, Put as PutMark};
ghost use Rattle.element_lang.specs.declared.mark.Mark.TheVariants.{Del as DelMark, If as IfMark, Repeat as RepeatMark};
ghost use Rattle.element_lang.specs.Token.{fixed, name as name_token, field as field_token};
ghost use Rattle.element_lang.specs.Surface as tree;
ghost use Rattle.element_lang.specs.Grammar.{AreNames, IsBody};
ghost use Rattle.element_tokens.specs.Tokens.{span_text, tokens_of};
ghost use Rattle.element_grammar.specs.Surface.{surface_expr, surface_exprs, surface_stmt, surface_body};
ghost use Rattle.element_grammar.specs.Machine.{names as names_part, stmt, otherwise as else_part, body as body_part};
ghost use Rattle.element_grammar.specs.Refused.{FoundEntry, FoundStmt, FoundElse, entry_parts, Misses};

use crate::cursor::{
    after_mark, after_marks, count, first, name, name_then, number_then, skip_mark, wrong,
};
use crate::error::ParseError;
use crate::expressions::{expression_between, expression_then, expressions, keys};
use crate::surface::{At, SurfaceExpr, SurfaceStmt};
use element_lang::Mark;
use element_tokens::{Placed, Span, Token};
use packet_fields::Field;
use std::alloc::Global;

fn let_of(text: &[u8], local: Span, value: SurfaceExpr) -> SurfaceStmt
    ensures { surface_stmt text.now result
        ≡ tree.let_local (span_text text.now local) (surface_expr text.now value) }
{
    SurfaceStmt::Let { local, value }
}

fn assign_of(text: &[u8], local: Span, value: SurfaceExpr) -> SurfaceStmt
    ensures { surface_stmt text.now result
        ≡ tree.assign (span_text text.now local) (surface_expr text.now value) }
{
    SurfaceStmt::Assign { local, value }
}

fn set_field_of(text: &[u8], field: Field, value: SurfaceExpr) -> SurfaceStmt
    ensures { surface_stmt text.now result ≡ tree.set_field field (surface_expr text.now value) }
{
    SurfaceStmt::SetField { field, value }
}

fn look_of(
    text: &[u8],
    found: Span,
    into: Vec<Span>,
    object: Span,
    keys: Vec<SurfaceExpr>,
) -> SurfaceStmt
    ensures { surface_stmt text.now result ≡ tree.look (span_text text.now found) (map (span_text text.now) into.items)
        (span_text text.now object) (surface_exprs text.now keys.items) }
{
    SurfaceStmt::Look {
        found,
        into,
        object,
        keys,
    }
}

fn put_of(
    text: &[u8],
    ok: Span,
    object: Span,
    keys: Vec<SurfaceExpr>,
    values: Vec<SurfaceExpr>,
) -> SurfaceStmt
    ensures { surface_stmt text.now result ≡ tree.put (span_text text.now ok) (span_text text.now object)
        (surface_exprs text.now keys.items) (surface_exprs text.now values.items) }
{
    SurfaceStmt::Put {
        ok,
        object,
        keys,
        values,
    }
}

fn del_of(text: &[u8], was: Span, object: Span, keys: Vec<SurfaceExpr>) -> SurfaceStmt
    ensures { surface_stmt text.now result
        ≡ tree.del (span_text text.now was) (span_text text.now object) (surface_exprs text.now keys.items) }
{
    SurfaceStmt::Del { was, object, keys }
}

fn if_of(
    text: &[u8],
    cond: SurfaceExpr,
    yes: Vec<At<SurfaceStmt>>,
    no: Vec<At<SurfaceStmt>>,
) -> SurfaceStmt
    ensures { surface_stmt text.now result ≡ tree.choose (surface_expr text.now cond)
        (surface_body text.now yes.items) (surface_body text.now no.items) }
{
    SurfaceStmt::If { cond, yes, no }
}

fn repeat_of(text: &[u8], index: Span, count: u64, body: Vec<At<SurfaceStmt>>) -> SurfaceStmt
    ensures { surface_stmt text.now result
        ≡ tree.repeat (span_text text.now index) count (surface_body text.now body.items) }
{
    SurfaceStmt::Repeat { index, count, body }
}

fn send_of(text: &[u8], port: SurfaceExpr) -> SurfaceStmt
    ensures { surface_stmt text.now result ≡ tree.send (surface_expr text.now port) }
{
    SurfaceStmt::Send { port }
}

fn drop_of(text: &[u8]) -> SurfaceStmt
    ensures { surface_stmt text.now result ≡ tree.drop }
{
    SurfaceStmt::Drop
}

// Reads names, each behind a comma, and the `=` behind them.
#[tactic(auto, using(crate::proofs::StatementPieces::lists_of_names))]
fn names<'t>(
    alloc: Global,
    text: &[u8],
    tokens: &'t [Placed],
) -> Result<(Vec<Span>, &'t [Placed]), ParseError>
    ensures ok { IfOk result (λ x. AreNames (map (span_text text.now) x.0.items)
        (tokens_of text.now tokens.now) (tokens_of text.now x.1.now)) }
    ensures shorter { IfOk result (λ x. length x.1.now < length tokens.now) }
    ensures err { IfErr result (λ e. Misses (names_part ∷ []) (tokens_of text.now tokens.now) e) }
{
    let mut found = Vec::new(alloc);
    let mut left = tokens;
    'each: loop {
        if let Some(rest) = skip_mark(text, left, Mark::Assign) {
            return Ok((found, rest));
        }
        let rest = after_mark(text, left, Mark::Comma)?;
        let (word, rest) = name(text, rest)?;
        found.push(word)?;
        left = rest;
    }
}

// Reads an object's name with its keys in square brackets.
#[tactic(auto, using(crate::proofs::StatementPieces::entries))]
fn entry<'t>(
    alloc: Global,
    text: &[u8],
    tokens: &'t [Placed],
) -> Result<(Span, Vec<SurfaceExpr>, &'t [Placed]), ParseError>
    ensures ok { IfOk result (λ x. FoundEntry (span_text text.now x.0) (surface_exprs text.now x.1.items)
        (tokens_of text.now tokens.now) (tokens_of text.now x.2.now)) }
    ensures shorter { IfOk result (λ x. length x.2.now < length tokens.now) }
    ensures err { IfErr result (λ e. Misses entry_parts (tokens_of text.now tokens.now) e) }
{
    let (object, rest) = name_then(text, tokens, Mark::LeftBracket)?;
    let (keys, rest) = keys(alloc, text, rest)?;
    Ok((object, keys, rest))
}

// Reads the statement behind `let`.
#[tactic(auto, using(crate::proofs::StatementPieces::simple))]
fn let_local<'t>(
    alloc: Global,
    text: &[u8],
    tokens: &'t [Placed],
) -> Result<(SurfaceStmt, &'t [Placed]), ParseError>
    ensures ok { IfOk result (λ x. FoundStmt (surface_stmt text.now x.0)
        (fixed LetMark ∷ tokens_of text.now tokens.now) (tokens_of text.now x.1.now)) }
    ensures shorter { IfOk result (λ x. length x.1.now < length tokens.now) }
    ensures err { IfErr result (λ e.
        Misses (stmt ∷ []) (fixed LetMark ∷ tokens_of text.now tokens.now) e) }
{
    let (local, rest) = name(text, tokens)?;
    let (value, rest) = expression_between(alloc, text, rest, Mark::Assign, Mark::Semicolon)?;
    Ok((let_of(text, local, value), rest))
}

// Reads what is left of an assignment to a local, which has been read.
#[tactic(auto, using(crate::proofs::StatementPieces::simple))]
fn assign<'t>(
    alloc: Global,
    text: &[u8],
    tokens: &'t [Placed],
    local: Span,
) -> Result<(SurfaceStmt, &'t [Placed]), ParseError>
    ensures ok { IfOk result (λ x. FoundStmt (surface_stmt text.now x.0)
        (name_token (span_text text.now local) ∷ tokens_of text.now tokens.now) (tokens_of text.now x.1.now)) }
    ensures shorter { IfOk result (λ x. length x.1.now < length tokens.now) }
    ensures err { IfErr result (λ e. Misses (stmt ∷ [])
        (name_token (span_text text.now local) ∷ tokens_of text.now tokens.now) e) }
{
    let (value, rest) = expression_between(alloc, text, tokens, Mark::Assign, Mark::Semicolon)?;
    Ok((assign_of(text, local, value), rest))
}

// Reads what is left of an assignment to a field, which has been read.
#[tactic(auto, using(crate::proofs::StatementPieces::simple))]
fn set_field<'t>(
    alloc: Global,
    text: &[u8],
    tokens: &'t [Placed],
    field: Field,
) -> Result<(SurfaceStmt, &'t [Placed]), ParseError>
    ensures ok { IfOk result (λ x. FoundStmt (surface_stmt text.now x.0)
        (field_token field ∷ tokens_of text.now tokens.now) (tokens_of text.now x.1.now)) }
    ensures shorter { IfOk result (λ x. length x.1.now < length tokens.now) }
    ensures err { IfErr result (λ e.
        Misses (stmt ∷ []) (field_token field ∷ tokens_of text.now tokens.now) e) }
{
    let (value, rest) = expression_between(alloc, text, tokens, Mark::Assign, Mark::Semicolon)?;
    Ok((set_field_of(text, field, value), rest))
}

// Reads the statement behind `look`.
#[tactic(auto, using(crate::proofs::StatementPieces::simple))]
fn look<'t>(
    alloc: Global,
    text: &[u8],
    tokens: &'t [Placed],
) -> Result<(SurfaceStmt, &'t [Placed]), ParseError>
    ensures ok { IfOk result (λ x. FoundStmt (surface_stmt text.now x.0)
        (fixed LookMark ∷ tokens_of text.now tokens.now) (tokens_of text.now x.1.now)) }
    ensures shorter { IfOk result (λ x. length x.1.now < length tokens.now) }
    ensures err { IfErr result (λ e.
        Misses (stmt ∷ []) (fixed LookMark ∷ tokens_of text.now tokens.now) e) }
{
    let (found, rest) = name(text, tokens)?;
    let (into, rest) = names(alloc, text, rest)?;
    let (object, keys, rest) = entry(alloc, text, rest)?;
    let rest = after_mark(text, rest, Mark::Semicolon)?;
    Ok((look_of(text, found, into, object, keys), rest))
}

// Reads the statement behind `put`.
#[tactic(auto, using(crate::proofs::StatementPieces::simple))]
fn put<'t>(
    alloc: Global,
    text: &[u8],
    tokens: &'t [Placed],
) -> Result<(SurfaceStmt, &'t [Placed]), ParseError>
    ensures ok { IfOk result (λ x. FoundStmt (surface_stmt text.now x.0)
        (fixed PutMark ∷ tokens_of text.now tokens.now) (tokens_of text.now x.1.now)) }
    ensures shorter { IfOk result (λ x. length x.1.now < length tokens.now) }
    ensures err { IfErr result (λ e.
        Misses (stmt ∷ []) (fixed PutMark ∷ tokens_of text.now tokens.now) e) }
{
    let (ok, rest) = name_then(text, tokens, Mark::Assign)?;
    let (object, keys, rest) = entry(alloc, text, rest)?;
    let rest = after_mark(text, rest, Mark::Arrow)?;
    let (values, rest) = expressions(alloc, text, rest, Mark::Semicolon)?;
    Ok((put_of(text, ok, object, keys, values), rest))
}

// Reads the statement behind `del`.
#[tactic(auto, using(crate::proofs::StatementPieces::simple))]
fn del<'t>(
    alloc: Global,
    text: &[u8],
    tokens: &'t [Placed],
) -> Result<(SurfaceStmt, &'t [Placed]), ParseError>
    ensures ok { IfOk result (λ x. FoundStmt (surface_stmt text.now x.0)
        (fixed DelMark ∷ tokens_of text.now tokens.now) (tokens_of text.now x.1.now)) }
    ensures shorter { IfOk result (λ x. length x.1.now < length tokens.now) }
    ensures err { IfErr result (λ e.
        Misses (stmt ∷ []) (fixed DelMark ∷ tokens_of text.now tokens.now) e) }
{
    let (was, rest) = name_then(text, tokens, Mark::Assign)?;
    let (object, keys, rest) = entry(alloc, text, rest)?;
    let rest = after_mark(text, rest, Mark::Semicolon)?;
    Ok((del_of(text, was, object, keys), rest))
}

// Reads the statement in front. The recursion goes as deep as blocks stand in one another.
#[cycle(stmt)]
#[tactic(auto, using(crate::proofs::StatementPieces::blocks))]
fn statement<'t>(
    alloc: Global,
    text: &[u8],
    tokens: &'t [Placed],
) -> Result<(SurfaceStmt, &'t [Placed]), ParseError>
    ensures ok { IfOk result (λ x. FoundStmt (surface_stmt text.now x.0)
        (tokens_of text.now tokens.now) (tokens_of text.now x.1.now)) }
    ensures shorter { IfOk result (λ x. length x.1.now < length tokens.now) }
    ensures err { IfErr result (λ e. Misses (stmt ∷ []) (tokens_of text.now tokens.now) e) }
{
    let (token, rest) = first(text, tokens)?;
    match token {
        Token::Name(local) => assign(alloc, text, rest, local),
        Token::Field(field) => set_field(alloc, text, rest, field),
        Token::Fixed(Mark::Let) => let_local(alloc, text, rest),
        Token::Fixed(Mark::Look) => look(alloc, text, rest),
        Token::Fixed(Mark::Put) => put(alloc, text, rest),
        Token::Fixed(Mark::Del) => del(alloc, text, rest),
        Token::Fixed(Mark::If) => choice(alloc, text, rest),
        Token::Fixed(Mark::Repeat) => repeat(alloc, text, rest),
        Token::Fixed(Mark::Send) => {
            let (port, rest) = expression_then(alloc, text, rest, Mark::Semicolon)?;
            Ok((send_of(text, port), rest))
        }
        Token::Fixed(Mark::Drop) => {
            let rest = after_mark(text, rest, Mark::Semicolon)?;
            Ok((drop_of(text), rest))
        }
        _ => Err(wrong(text, tokens)),
    }
}

// Reads the statement behind `if`.
#[cycle(stmt)]
#[tactic(auto, using(crate::proofs::StatementPieces::blocks))]
fn choice<'t>(
    alloc: Global,
    text: &[u8],
    tokens: &'t [Placed],
) -> Result<(SurfaceStmt, &'t [Placed]), ParseError>
    ensures ok { IfOk result (λ x. FoundStmt (surface_stmt text.now x.0)
        (fixed IfMark ∷ tokens_of text.now tokens.now) (tokens_of text.now x.1.now)) }
    ensures shorter { IfOk result (λ x. length x.1.now < length tokens.now) }
    ensures err { IfErr result (λ e.
        Misses (stmt ∷ []) (fixed IfMark ∷ tokens_of text.now tokens.now) e) }
{
    let (cond, rest) = expression_then(alloc, text, tokens, Mark::LeftBrace)?;
    let (yes, rest) = block(alloc, text, rest)?;
    let (no, rest) = otherwise(alloc, text, rest)?;
    Ok((if_of(text, cond, yes, no), rest))
}

// Reads the statement behind `repeat`.
#[cycle(stmt)]
#[tactic(auto, using(crate::proofs::StatementPieces::blocks))]
fn repeat<'t>(
    alloc: Global,
    text: &[u8],
    tokens: &'t [Placed],
) -> Result<(SurfaceStmt, &'t [Placed]), ParseError>
    ensures ok { IfOk result (λ x. FoundStmt (surface_stmt text.now x.0)
        (fixed RepeatMark ∷ tokens_of text.now tokens.now) (tokens_of text.now x.1.now)) }
    ensures shorter { IfOk result (λ x. length x.1.now < length tokens.now) }
    ensures err { IfErr result (λ e.
        Misses (stmt ∷ []) (fixed RepeatMark ∷ tokens_of text.now tokens.now) e) }
{
    let (index, rest) = name(text, tokens)?;
    let (count, rest) = number_then(text, rest, Mark::LeftBrace)?;
    let (body, rest) = block(alloc, text, rest)?;
    Ok((repeat_of(text, index, count, body), rest))
}

// Reads the block behind `else` where that stands in front, and else nothing, for an empty block.
#[cycle(stmt)]
#[tactic(auto, using(crate::proofs::StatementPieces::blocks))]
fn otherwise<'t>(
    alloc: Global,
    text: &[u8],
    tokens: &'t [Placed],
) -> Result<(Vec<At<SurfaceStmt>>, &'t [Placed]), ParseError>
    ensures ok { IfOk result (λ x. FoundElse (surface_body text.now x.0.items)
        (tokens_of text.now tokens.now) (tokens_of text.now x.1.now)) }
    ensures shorter { IfOk result (λ x. length x.1.now ≤ length tokens.now) }
    ensures err { IfErr result (λ e. Misses (else_part ∷ []) (tokens_of text.now tokens.now) e) }
{
    let Some(rest) = skip_mark(text, tokens, Mark::Else) else {
        return Ok((Vec::new(alloc), tokens));
    };
    let rest = after_mark(text, rest, Mark::LeftBrace)?;
    block(alloc, text, rest)
}

// Reads the statements of a block, and the bracket that closes it.
#[cycle(stmt)]
#[tactic(auto, using(crate::proofs::StatementPieces::blocks))]
pub(crate) fn block<'t>(
    alloc: Global,
    text: &[u8],
    tokens: &'t [Placed],
) -> Result<(Vec<At<SurfaceStmt>>, &'t [Placed]), ParseError>
    ensures ok { IfOk result (λ x. IsBody (surface_body text.now x.0.items)
        (tokens_of text.now tokens.now) (tokens_of text.now x.1.now)) }
    ensures shorter { IfOk result (λ x. length x.1.now < length tokens.now) }
    ensures err { IfErr result (λ e. Misses (body_part ∷ []) (tokens_of text.now tokens.now) e) }
{
    let mut body = Vec::new(alloc);
    let mut left = tokens;
    'statements: loop {
        if let Some(rest) = skip_mark(text, left, Mark::RightBrace) {
            return Ok((body, rest));
        }
        let at = count(text, left);
        let (item, rest) = statement(alloc, text, left)?;
        body.push(At { at, item })?;
        left = rest;
    }
}
