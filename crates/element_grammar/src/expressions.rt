//! Expressions, and lists of them. Each function that reads gives what it read and the tokens that are left.
ghost use Rattle.std.specs.Prelude.{◌≡◌, ◌<◌, ◌≤◌, [], ◌∷◌, length, IfOk, IfErr};
ghost use Rattle.element_lang.specs.declared.mark.Mark.TheVariants.{Byte as ByteMark, Cast as CastMark};
ghost use Rattle.element_lang.specs.Token.{fixed, number as number_token};
ghost use Rattle.element_lang.specs.Surface as tree;
ghost use Rattle.element_lang.specs.Grammar as grammar;
ghost use Rattle.element_lang.specs.Grammar.{IsPrim, IsUnary, AreExprs, AreKeys, one, two, three};
ghost use Rattle.element_tokens.specs.Tokens.{span_text, tokens_of};
ghost use Rattle.element_grammar.specs.Surface.{surface_expr, surface_exprs};
ghost use Rattle.element_grammar.specs.Machine.{mark, prim, unary as unary_part, operand, expr, exprs};
ghost use Rattle.element_grammar.specs.Machine.{keys as keys_part};
ghost use Rattle.element_grammar.specs.Refused.{FoundOperand, FoundExpr, FoundBetween, FoundThree, three_parts, Misses};

use crate::cursor::{after_mark, first, mark_in_front, number, number_then, skip_mark, wrong};
use crate::error::ParseError;
use crate::surface::SurfaceExpr;
use element_lang::Mark;
use element_tokens::{Placed, Span, Token};
use gal_bits::Op;
use packet_fields::Field;
use std::alloc::Global;

// The operator whose symbol stands between two operands.
fn infix_of(mark: Mark) -> Option<Op>
    ensures { result ≡ grammar.infix_of mark }
{
    match mark {
        Mark::Plus => Some(Op::Add),
        Mark::Minus => Some(Op::Sub),
        Mark::Star => Some(Op::Mul),
        Mark::Slash => Some(Op::Div),
        Mark::Percent => Some(Op::Rem),
        Mark::Ampersand => Some(Op::And),
        Mark::Bar => Some(Op::Or),
        Mark::Caret => Some(Op::Xor),
        Mark::Equal => Some(Op::Eq),
        Mark::NotEqual => Some(Op::Ne),
        Mark::Less => Some(Op::Lt),
        Mark::AtMost => Some(Op::Le),
        _ => None,
    }
}

// The operator whose symbol stands between an operand and a number of bits.
fn shift_of(mark: Mark) -> Option<Op>
    ensures { result ≡ grammar.shift_of mark }
{
    match mark {
        Mark::ShiftLeft => Some(Op::Shl),
        Mark::ShiftRight => Some(Op::Shr),
        _ => None,
    }
}

fn literal_of(text: &[u8], value: u64, width: u64) -> SurfaceExpr
    ensures { surface_expr text.now result ≡ tree.lit value width }
{
    SurfaceExpr::Literal { value, width }
}

fn local_of(text: &[u8], word: Span) -> SurfaceExpr
    ensures { surface_expr text.now result ≡ tree.name (span_text text.now word) }
{
    SurfaceExpr::Name(word)
}

fn field_of(text: &[u8], field: Field) -> SurfaceExpr
    ensures { surface_expr text.now result ≡ tree.field field }
{
    SurfaceExpr::Field(field)
}

fn byte_of(alloc: Global, text: &[u8], index: SurfaceExpr) -> Result<SurfaceExpr, ParseError>
    ensures ok { IfOk result (λ x.
        surface_expr text.now x ≡ tree.byte (surface_expr text.now index)) }
    ensures err { IfErr result (λ e. e ≡ ParseError.NoMemory) }
{
    Ok(SurfaceExpr::Byte(Box::new(alloc, index)?))
}

fn shift_by(
    alloc: Global,
    text: &[u8],
    op: Op,
    by: u64,
    arg: SurfaceExpr,
) -> Result<SurfaceExpr, ParseError>
    ensures ok { IfOk result (λ x.
        surface_expr text.now x ≡ tree.shift op by (surface_expr text.now arg)) }
    ensures err { IfErr result (λ e. e ≡ ParseError.NoMemory) }
{
    let arg = Box::new(alloc, arg)?;
    Ok(SurfaceExpr::Shift { op, by, arg })
}

fn of_one(
    alloc: Global,
    text: &[u8],
    op: Op,
    width: u64,
    a: SurfaceExpr,
) -> Result<SurfaceExpr, ParseError>
    ensures ok { IfOk result (λ x.
        surface_expr text.now x ≡ tree.apply op width (one (surface_expr text.now a))) }
    ensures err { IfErr result (λ e. e ≡ ParseError.NoMemory) }
{
    let args = vec![in alloc; a]?;
    Ok(SurfaceExpr::Apply { op, width, args })
}

fn of_two(
    alloc: Global,
    text: &[u8],
    op: Op,
    a: SurfaceExpr,
    b: SurfaceExpr,
) -> Result<SurfaceExpr, ParseError>
    ensures ok { IfOk result (λ x. surface_expr text.now x
        ≡ tree.apply op 0 (two (surface_expr text.now a) (surface_expr text.now b))) }
    ensures err { IfErr result (λ e. e ≡ ParseError.NoMemory) }
{
    let args = vec![in alloc; a, b]?;
    Ok(SurfaceExpr::Apply { op, width: 0, args })
}

fn of_three(
    alloc: Global,
    text: &[u8],
    op: Op,
    a: SurfaceExpr,
    b: SurfaceExpr,
    c: SurfaceExpr,
) -> Result<SurfaceExpr, ParseError>
    ensures ok { IfOk result (λ x. surface_expr text.now x
        ≡ tree.apply op 0 (three (surface_expr text.now a) (surface_expr text.now b) (surface_expr text.now c))) }
    ensures err { IfErr result (λ e. e ≡ ParseError.NoMemory) }
{
    let args = vec![in alloc; a, b, c]?;
    Ok(SurfaceExpr::Apply { op, width: 0, args })
}

// Reads what is left of a literal whose value has been read.
#[tactic(auto, using(crate::proofs::Operands::operands))]
fn literal<'t>(
    text: &[u8],
    tokens: &'t [Placed],
    value: u64,
) -> Result<(SurfaceExpr, &'t [Placed]), ParseError>
    ensures ok { IfOk result (λ x. IsPrim (surface_expr text.now x.0)
        (number_token value ∷ tokens_of text.now tokens.now) (tokens_of text.now x.1.now)) }
    ensures shorter { IfOk result (λ x. length x.1.now < length tokens.now) }
    ensures err { IfErr result (λ e.
        Misses (prim ∷ []) (number_token value ∷ tokens_of text.now tokens.now) e) }
{
    let rest = after_mark(text, tokens, Mark::Colon)?;
    let (width, rest) = number(text, rest)?;
    Ok((literal_of(text, value, width), rest))
}

// Reads the operand in front. The recursion goes as deep as brackets stand in one another.
#[cycle(expr)]
#[tactic(auto, using(crate::proofs::Operands::operands))]
fn primary<'t>(
    alloc: Global,
    text: &[u8],
    tokens: &'t [Placed],
) -> Result<(SurfaceExpr, &'t [Placed]), ParseError>
    ensures ok { IfOk result (λ x.
        IsPrim (surface_expr text.now x.0) (tokens_of text.now tokens.now) (tokens_of text.now x.1.now)) }
    ensures shorter { IfOk result (λ x. length x.1.now < length tokens.now) }
    ensures err { IfErr result (λ e. Misses (prim ∷ []) (tokens_of text.now tokens.now) e) }
{
    let (token, rest) = first(text, tokens)?;
    match token {
        Token::Number(value) => literal(text, rest, value),
        Token::Name(word) => Ok((local_of(text, word), rest)),
        Token::Field(field) => Ok((field_of(text, field), rest)),
        Token::Fixed(Mark::LeftParen) => expression_then(alloc, text, rest, Mark::RightParen),
        Token::Fixed(Mark::Byte) => byte(alloc, text, rest),
        Token::Fixed(Mark::Cast) => cast(alloc, text, rest),
        Token::Fixed(Mark::Select) => three_in_brackets(alloc, text, rest, Op::Select),
        Token::Fixed(Mark::Adjust) => three_in_brackets(alloc, text, rest, Op::Adjust),
        _ => Err(wrong(text, tokens)),
    }
}

// Reads the operand behind `byte`.
#[cycle(expr)]
#[tactic(auto, using(crate::proofs::Operands::operands))]
fn byte<'t>(
    alloc: Global,
    text: &[u8],
    tokens: &'t [Placed],
) -> Result<(SurfaceExpr, &'t [Placed]), ParseError>
    ensures ok { IfOk result (λ x. IsPrim (surface_expr text.now x.0)
        (fixed ByteMark ∷ tokens_of text.now tokens.now) (tokens_of text.now x.1.now)) }
    ensures shorter { IfOk result (λ x. length x.1.now < length tokens.now) }
    ensures err { IfErr result (λ e.
        Misses (prim ∷ []) (fixed ByteMark ∷ tokens_of text.now tokens.now) e) }
{
    let (index, rest) = expression_between(alloc, text, tokens, Mark::LeftParen, Mark::RightParen)?;
    Ok((byte_of(alloc, text, index)?, rest))
}

// Reads the operand behind `cast`.
#[cycle(expr)]
#[tactic(auto, using(crate::proofs::Operands::operands))]
fn cast<'t>(
    alloc: Global,
    text: &[u8],
    tokens: &'t [Placed],
) -> Result<(SurfaceExpr, &'t [Placed]), ParseError>
    ensures ok { IfOk result (λ x. IsPrim (surface_expr text.now x.0)
        (fixed CastMark ∷ tokens_of text.now tokens.now) (tokens_of text.now x.1.now)) }
    ensures shorter { IfOk result (λ x. length x.1.now < length tokens.now) }
    ensures err { IfErr result (λ e.
        Misses (prim ∷ []) (fixed CastMark ∷ tokens_of text.now tokens.now) e) }
{
    let rest = after_mark(text, tokens, Mark::LeftParen)?;
    let (width, rest) = number_then(text, rest, Mark::Comma)?;
    let (value, rest) = expression_then(alloc, text, rest, Mark::RightParen)?;
    Ok((of_one(alloc, text, Op::Cast, width, value)?, rest))
}

// Reads the three expressions in brackets in front, and makes an operator of them.
#[cycle(expr)]
#[tactic(auto, using(crate::proofs::Operands::operands))]
fn three_in_brackets<'t>(
    alloc: Global,
    text: &[u8],
    tokens: &'t [Placed],
    op: Op,
) -> Result<(SurfaceExpr, &'t [Placed]), ParseError>
    ensures ok { IfOk result (λ x. FoundThree op (surface_expr text.now x.0)
        (tokens_of text.now tokens.now) (tokens_of text.now x.1.now)) }
    ensures shorter { IfOk result (λ x. length x.1.now < length tokens.now) }
    ensures err { IfErr result (λ e. Misses three_parts (tokens_of text.now tokens.now) e) }
{
    let (a, rest) = expression_between(alloc, text, tokens, Mark::LeftParen, Mark::Comma)?;
    let (b, rest) = expression_then(alloc, text, rest, Mark::Comma)?;
    let (c, rest) = expression_then(alloc, text, rest, Mark::RightParen)?;
    Ok((of_three(alloc, text, op, a, b, c)?, rest))
}

// Reads the operand in front, which may be turned by `~`.
#[cycle(expr)]
#[tactic(auto, using(crate::proofs::Operands::operands))]
fn unary<'t>(
    alloc: Global,
    text: &[u8],
    tokens: &'t [Placed],
) -> Result<(SurfaceExpr, &'t [Placed]), ParseError>
    ensures ok { IfOk result (λ x.
        IsUnary (surface_expr text.now x.0) (tokens_of text.now tokens.now) (tokens_of text.now x.1.now)) }
    ensures shorter { IfOk result (λ x. length x.1.now < length tokens.now) }
    ensures err { IfErr result (λ e. Misses (unary_part ∷ []) (tokens_of text.now tokens.now) e) }
{
    let Some(rest) = skip_mark(text, tokens, Mark::Tilde) else {
        return primary(alloc, text, tokens);
    };
    let (arg, rest) = primary(alloc, text, rest)?;
    Ok((of_one(alloc, text, Op::Not, 0, arg)?, rest))
}

// Reads what is left of the expression that an operand begins, which has been read.
#[cycle(expr)]
#[tactic(auto, using(crate::proofs::Operands::operands))]
fn operated<'t>(
    alloc: Global,
    text: &[u8],
    left: SurfaceExpr,
    tokens: &'t [Placed],
) -> Result<(SurfaceExpr, &'t [Placed]), ParseError>
    ensures ok { IfOk result (λ x. FoundOperand (surface_expr text.now left) (surface_expr text.now x.0)
        (tokens_of text.now tokens.now) (tokens_of text.now x.1.now)) }
    ensures shorter { IfOk result (λ x. length x.1.now ≤ length tokens.now) }
    ensures err { IfErr result (λ e. Misses (operand ∷ []) (tokens_of text.now tokens.now) e) }
{
    let Some((mark, rest)) = mark_in_front(text, tokens) else {
        return Ok((left, tokens));
    };
    if let Some(op) = infix_of(mark) {
        let (right, rest) = unary(alloc, text, rest)?;
        return Ok((of_two(alloc, text, op, left, right)?, rest));
    }
    if let Some(op) = shift_of(mark) {
        let (by, rest) = number(text, rest)?;
        return Ok((shift_by(alloc, text, op, by, left)?, rest));
    }
    Ok((left, tokens))
}

// Reads the expression in front.
#[cycle(expr)]
#[tactic(auto, using(crate::proofs::Operands::operands))]
pub(crate) fn expression<'t>(
    alloc: Global,
    text: &[u8],
    tokens: &'t [Placed],
) -> Result<(SurfaceExpr, &'t [Placed]), ParseError>
    ensures ok { IfOk result (λ x. FoundExpr (surface_expr text.now x.0)
        (tokens_of text.now tokens.now) (tokens_of text.now x.1.now)) }
    ensures shorter { IfOk result (λ x. length x.1.now < length tokens.now) }
    ensures err { IfErr result (λ e. Misses (expr ∷ []) (tokens_of text.now tokens.now) e) }
{
    let (left, rest) = unary(alloc, text, tokens)?;
    operated(alloc, text, left, rest)
}

// Reads the expression in front and the mark behind it.
#[cycle(expr)]
#[tactic(auto, using(crate::proofs::Operands::operands))]
pub(crate) fn expression_then<'t>(
    alloc: Global,
    text: &[u8],
    tokens: &'t [Placed],
    want: Mark,
) -> Result<(SurfaceExpr, &'t [Placed]), ParseError>
    ensures ok { IfOk result (λ x. FoundExpr (surface_expr text.now x.0)
        (tokens_of text.now tokens.now) (fixed want ∷ tokens_of text.now x.1.now)) }
    ensures shorter { IfOk result (λ x. length x.1.now < length tokens.now) }
    ensures err { IfErr result (λ e.
        Misses (expr ∷ mark want ∷ []) (tokens_of text.now tokens.now) e) }
{
    let (found, rest) = expression(alloc, text, tokens)?;
    let rest = after_mark(text, rest, want)?;
    Ok((found, rest))
}

// Reads an expression that stands between two marks, and both marks.
#[cycle(expr)]
#[tactic(auto, using(crate::proofs::Operands::operands))]
pub(crate) fn expression_between<'t>(
    alloc: Global,
    text: &[u8],
    tokens: &'t [Placed],
    before: Mark,
    behind: Mark,
) -> Result<(SurfaceExpr, &'t [Placed]), ParseError>
    ensures ok { IfOk result (λ x. FoundBetween before behind (surface_expr text.now x.0)
        (tokens_of text.now tokens.now) (tokens_of text.now x.1.now)) }
    ensures shorter { IfOk result (λ x. length x.1.now < length tokens.now) }
    ensures err { IfErr result (λ e.
        Misses (mark before ∷ expr ∷ mark behind ∷ []) (tokens_of text.now tokens.now) e) }
{
    let rest = after_mark(text, tokens, before)?;
    expression_then(alloc, text, rest, behind)
}

// Reads expressions with commas between them, and the mark that ends them.
#[tactic(auto, using(crate::proofs::Operands::lists))]
pub(crate) fn expressions<'t>(
    alloc: Global,
    text: &[u8],
    tokens: &'t [Placed],
    close: Mark,
) -> Result<(Vec<SurfaceExpr>, &'t [Placed]), ParseError>
    ensures ok { IfOk result (λ x. AreExprs (surface_exprs text.now x.0.items) close
        (tokens_of text.now tokens.now) (tokens_of text.now x.1.now)) }
    ensures shorter { IfOk result (λ x. length x.1.now < length tokens.now) }
    ensures err { IfErr result (λ e. Misses (exprs close ∷ []) (tokens_of text.now tokens.now) e) }
{
    let mut found = Vec::new(alloc);
    let mut left = tokens;
    'each: loop {
        let (next, rest) = expression(alloc, text, left)?;
        found.push(next)?;
        if let Some(rest) = skip_mark(text, rest, close) {
            return Ok((found, rest));
        }
        left = after_mark(text, rest, Mark::Comma)?;
    }
}

// Reads the keys, and the bracket that closes them.
#[tactic(auto, using(crate::proofs::Operands::lists))]
pub(crate) fn keys<'t>(
    alloc: Global,
    text: &[u8],
    tokens: &'t [Placed],
) -> Result<(Vec<SurfaceExpr>, &'t [Placed]), ParseError>
    ensures ok { IfOk result (λ x. AreKeys (surface_exprs text.now x.0.items)
        (tokens_of text.now tokens.now) (tokens_of text.now x.1.now)) }
    ensures shorter { IfOk result (λ x. length x.1.now < length tokens.now) }
    ensures err { IfErr result (λ e. Misses (keys_part ∷ []) (tokens_of text.now tokens.now) e) }
{
    if let Some(rest) = skip_mark(text, tokens, Mark::RightBracket) {
        return Ok((Vec::new(alloc), rest));
    }
    expressions(alloc, text, tokens, Mark::RightBracket)
}
