//! The tokens of expressions.
ghost use Rattle.std.specs.Prelude.{◌≡◌, ◌++◌, ◌∷◌, OnOk};
ghost use Rattle.element_lang.specs.Surface.{apply, shift, named_expr, named_exprs, local_name};
ghost use Rattle.element_lang.specs.Token.{fixed};
ghost use Rattle.element_lang.specs.View.{tree, expr_tree, expr_trees};
ghost use Rattle.element_print.specs.Printed.{expr_tokens, parts, in_brackets, exprs_tokens, part};
ghost use Rattle.element_print.specs.Printed as printed;
ghost use Rattle.element_print.specs.Spaced.{spaced, separated};

use crate::place::{Place, mark_of, needs_brackets};
use crate::tokens::Tokens;
use element_lang::{Expr, Mark, Middlebox};
use gal_bits::{Op, Width};
use gal_io::NoMemory;

/// The name of a local, or no bytes where it isn't declared.
pub(crate) fn local_name(m: &Middlebox, x: u32) -> &[u8]
    ensures { result.now ≡ local_name (tree m.now) x }
{
    match m.locals.as_slice().get(x as usize) {
        Some(local) => local.name.as_slice(),
        None => b"",
    }
}

// Adds an expression, in brackets where it needs them.
#[cycle(expr)]
#[tactic(auto, using(crate::proofs::Spaces::bracketed))]
fn put_part(m: &Middlebox, place: Place, e: &Expr, out: &mut Tokens) -> Result<(), NoMemory>
    ensures { OnOk result (out.new ≡ out.old ++ spaced (part place (named_expr (tree m.now) (expr_tree e.now)))) }
{
    let brackets = needs_brackets(place, e);
    out.mark_if(brackets, Mark::LeftParen)?;
    put_expr(m, e, out)?;
    out.mark_if(brackets, Mark::RightParen)?;
    Ok(())
}

// Adds expressions, with a mark between two of them, and one before the first where that is asked for.
#[cycle(expr)]
#[tactic(auto, using(crate::proofs::Spaces::spaces, crate::proofs::Spaces::listed_more, std::proofs::lemmas::Grind::common_steps))]
fn put_listed(
    m: &Middlebox,
    place: Place,
    mark: Mark,
    before: bool,
    all: &[Expr],
    out: &mut Tokens,
) -> Result<(), NoMemory>
    ensures { OnOk result (out.new
        ≡ out.old ++ spaced (separated before mark (parts place (named_exprs (tree m.now) (expr_trees all.now))))) }
{
    let mut behind = before;
    for e in all {
        out.mark_if(behind, mark)?;
        put_part(m, place, e, out)?;
        behind = true;
    }
    Ok(())
}

#[cycle(expr)]
#[tactic(auto, using(crate::proofs::Spaces::spaces))]
fn put_byte(m: &Middlebox, index: &Expr, out: &mut Tokens) -> Result<(), NoMemory>
    ensures { OnOk result (out.new
        ≡ out.old ++ spaced (fixed Mark.Byte
        ∷ in_brackets (expr_tokens (named_expr (tree m.now) (expr_tree index.now))))) }
{
    out.mark(Mark::Byte)?;
    out.mark(Mark::LeftParen)?;
    put_expr(m, index, out)?;
    out.mark(Mark::RightParen)?;
    Ok(())
}

#[cycle(expr)]
#[tactic(auto, using(crate::proofs::Spaces::spaces))]
fn put_shift(m: &Middlebox, op: Op, by: u8, arg: &Expr, out: &mut Tokens) -> Result<(), NoMemory>
    ensures { OnOk result (out.new
        ≡ out.old ++ spaced (expr_tokens (shift op by (named_expr (tree m.now) (expr_tree arg.now))))) }
{
    put_part(m, Place::Operand, arg, out)?;
    out.mark(mark_of(op))?;
    out.number(u64::from(by))?;
    Ok(())
}

// Adds a keyword and its arguments.
#[cycle(expr)]
#[tactic(auto, using(crate::proofs::Spaces::spaces))]
fn put_call(m: &Middlebox, mark: Mark, args: &[Expr], out: &mut Tokens) -> Result<(), NoMemory>
    ensures { OnOk result (out.new
        ≡ out.old ++ spaced (fixed mark
        ∷ in_brackets (exprs_tokens (named_exprs (tree m.now) (expr_trees args.now))))) }
{
    out.mark(mark)?;
    out.mark(Mark::LeftParen)?;
    put_listed(m, Place::Whole, Mark::Comma, false, args, out)?;
    out.mark(Mark::RightParen)?;
    Ok(())
}

#[cycle(expr)]
#[tactic(auto, using(crate::proofs::Spaces::spaces))]
fn put_cast(m: &Middlebox, width: Width, args: &[Expr], out: &mut Tokens) -> Result<(), NoMemory>
    ensures { OnOk result (out.new
        ≡ out.old ++ spaced (expr_tokens (apply Op.Cast width (named_exprs (tree m.now) (expr_trees args.now))))) }
{
    out.mark(Mark::Cast)?;
    out.mark(Mark::LeftParen)?;
    out.number(u64::from(width.bits()))?;
    put_listed(m, Place::Whole, Mark::Comma, true, args, out)?;
    out.mark(Mark::RightParen)?;
    Ok(())
}

#[cycle(expr)]
#[tactic(auto, using(crate::proofs::Spaces::spaces))]
fn put_not(m: &Middlebox, args: &[Expr], out: &mut Tokens) -> Result<(), NoMemory>
    ensures { OnOk result (out.new
        ≡ out.old ++ spaced (expr_tokens (apply Op.Not 0 (named_exprs (tree m.now) (expr_trees args.now))))) }
{
    out.mark(Mark::Tilde)?;
    put_listed(m, Place::Turned, Mark::Comma, false, args, out)?;
    Ok(())
}

/// Adds an expression.
#[cycle(expr)]
pub(crate) fn put_expr(m: &Middlebox, e: &Expr, out: &mut Tokens) -> Result<(), NoMemory>
    ensures { OnOk result (out.new ≡ out.old ++ spaced (expr_tokens (named_expr (tree m.now) (expr_tree e.now)))) }
{
    match e {
        Expr::Lit(value, width) => out.literal(*value, u64::from(width.bits())),
        Expr::Local(x) => out.name(local_name(m, *x)),
        Expr::Field(field) => out.field(*field),
        Expr::Byte(index) => put_byte(m, index, out),
        Expr::Shift { op, by, arg } => put_shift(m, *op, *by, arg, out),
        Expr::Apply { op, width, args } => match op {
            Op::Not => put_not(m, args, out),
            Op::Cast => put_cast(m, *width, args, out),
            Op::Select => put_call(m, Mark::Select, args, out),
            Op::Adjust => put_call(m, Mark::Adjust, args, out),
            _ => put_listed(m, Place::Operand, mark_of(*op), false, args, out),
        },
    }
}

/// Adds expressions, with commas between them.
pub(crate) fn put_exprs(m: &Middlebox, all: &[Expr], out: &mut Tokens) -> Result<(), NoMemory>
    ensures { OnOk result (out.new ≡ out.old ++ spaced (exprs_tokens (named_exprs (tree m.now) (expr_trees all.now)))) }
{
    put_listed(m, Place::Whole, Mark::Comma, false, all, out)
}
