//! Expressions: names become numbers.
ghost use Rattle.std.specs.Prelude.{◌≡◌, ◌<◌, IfOk, IsSome, map, length, slice_index, true, Some};
ghost use Rattle.element_lang.specs.Rules as rules;
ghost use Rattle.element_lang.specs.Broken as broken;
ghost use Rattle.element_grammar.specs.Surface.{surface_expr, surface_exprs};
ghost use Rattle.element_text.specs.Resolve.{accepted_width, typed_expr, typed_exprs, typed_apply, typed_byte};
ghost use Rattle.element_text.specs.Resolve.{typed_shift};
ghost use Rattle.element_text.specs.Scopes.{known_of};
ghost use Rattle.element_text.specs.Typed.{typed_of, typed_list_of, literal_of};

use crate::scope::{KnownLocal, local_named};
use element_grammar::SurfaceExpr;
use element_lang::Expr;
use gal_bits::{Op, Width};
use gal_io::NoMemory;
use indexmap::IndexMap;
use packet_fields::width;
use std::alloc::Global;

/// An expression and the width of its value.
#[derive(Drop)]
pub(crate) struct TypedExpr {
    pub expr: Expr,
    pub width: Width,
}

/// Expressions and the widths of their values.
#[derive(Drop)]
pub(crate) struct TypedExprs {
    pub exprs: Vec<Expr>,
    pub widths: Vec<Width>,
}

/// The width that is written so.
pub(crate) fn width_of(bits: u64) -> Width
    requires { rules.is_width bits ≡ true }
    ensures { result ≡ bits }
{
    Width::new(bits as u32).unwrap()
}

// A number and the width that is written behind it.
fn literal(value: u64, bits: u64) -> TypedExpr
    requires { IsSome (literal_of value bits) }
    ensures { literal_of value bits ≡ Some (typed_of result) }
{
    let width = width_of(bits);
    TypedExpr {
        expr: Expr::Lit(value, width),
        width,
    }
}

// The width of an argument.
fn width_at(widths: &[Width], place: usize) -> Width
    requires { place < length widths.now }
    ensures { result ≡ slice_index widths.now place }
{
    widths[place]
}

// The width of an operator's result. It is written with a cast alone.
fn width_of_result(op: Op, written: u64, widths: &[Width]) -> Width
    requires { IsSome (accepted_width op written widths.now) }
    ensures { accepted_width op written widths.now ≡ Some result }
{
    match op {
        Op::Cast => width_of(written),
        Op::Eq | Op::Ne | Op::Lt | Op::Le => width_of(1),
        Op::Adjust => width_of(16),
        Op::Select => width_at(widths, 1),
        Op::Add | Op::Sub | Op::Mul | Op::Div | Op::Rem | Op::And | Op::Or | Op::Xor | Op::Not => {
            width_at(widths, 0)
        }
        Op::Shl | Op::Shr => unreachable!(),
    }
}

// An operator on these arguments.
fn apply(op: Op, written: u64, args: TypedExprs) -> TypedExpr
    requires { IsSome (typed_apply op written (typed_list_of args)) }
    ensures { typed_apply op written (typed_list_of args) ≡ Some (typed_of result) }
{
    let width = width_of_result(op, written, &args.widths);
    TypedExpr {
        expr: Expr::Apply {
            op,
            width,
            args: args.exprs,
        },
        width,
    }
}

// A byte of the packet.
fn byte(alloc: Global, index: TypedExpr) -> Result<TypedExpr, NoMemory>
    requires { IsSome (typed_byte (typed_of index)) }
    ensures { IfOk result (λ made. typed_byte (typed_of index) ≡ Some (typed_of made)) }
{
    Ok(TypedExpr {
        expr: Expr::Byte(Box::new(alloc, index.expr)?),
        width: width_of(8),
    })
}

// A shift.
fn shift(alloc: Global, op: Op, by: u64, arg: TypedExpr) -> Result<TypedExpr, NoMemory>
    requires { IsSome (typed_shift op by (typed_of arg)) }
    ensures { IfOk result (λ made. typed_shift op by (typed_of arg) ≡ Some (typed_of made)) }
{
    let width = arg.width;
    Ok(TypedExpr {
        expr: Expr::Shift {
            op,
            by: by as u8,
            arg: Box::new(alloc, arg.expr)?,
        },
        width,
    })
}

/// An expression over the locals in scope.
#[cycle(expression)]
pub(crate) fn expression(
    alloc: Global,
    text: &[u8],
    known: &IndexMap<Vec<u8>, KnownLocal>,
    source: &SurfaceExpr,
) -> Result<TypedExpr, NoMemory>
    requires { IsSome (typed_expr (map known_of known.now.entries) (surface_expr text.now source.now)) }
    ensures { IfOk result (λ made.
        typed_expr (map known_of known.now.entries) (surface_expr text.now source.now) ≡ Some (typed_of made)) }
{
    match source {
        SurfaceExpr::Literal { value, width } => Ok(literal(*value, *width)),
        SurfaceExpr::Name(name) => {
            let local = local_named(text, known, *name);
            Ok(TypedExpr {
                expr: Expr::Local(local.number),
                width: local.width,
            })
        }
        SurfaceExpr::Field(field) => Ok(TypedExpr {
            expr: Expr::Field(*field),
            width: width(*field),
        }),
        SurfaceExpr::Byte(index) => {
            let index = expression(alloc, text, known, index)?;
            byte(alloc, index)
        }
        SurfaceExpr::Shift { op, by, arg } => {
            let arg = expression(alloc, text, known, arg)?;
            shift(alloc, *op, *by, arg)
        }
        SurfaceExpr::Apply { op, width, args } => {
            let args = expressions(alloc, text, known, args)?;
            Ok(apply(*op, *width, args))
        }
    }
}

/// Expressions over the locals in scope.
#[cycle(expression)]
pub(crate) fn expressions(
    alloc: Global,
    text: &[u8],
    known: &IndexMap<Vec<u8>, KnownLocal>,
    source: &[SurfaceExpr],
) -> Result<TypedExprs, NoMemory>
    requires { IsSome (typed_exprs (map known_of known.now.entries) (surface_exprs text.now source.now)) }
    ensures { IfOk result (λ made.
        typed_exprs (map known_of known.now.entries) (surface_exprs text.now source.now) ≡ Some (typed_list_of made)) }
{
    let mut exprs = Vec::new(alloc);
    let mut widths = Vec::new(alloc);
    for next in source {
        let made = expression(alloc, text, known, next)?;
        exprs.push(made.expr)?;
        widths.push(made.width)?;
    }
    Ok(TypedExprs { exprs, widths })
}
