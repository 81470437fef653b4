//! How many bytes expressions have, each token with the one that stands after it.
ghost use Rattle.std.specs.Prelude.{◌≡◌, ◌+◌, ◌*◌};
ghost use Rattle.element_lang.specs.Rules.{count_of};
ghost use Rattle.element_lang.specs.Tree.ExprTree.{shift, apply};
ghost use Rattle.element_lang.specs.View.{expr_tree, expr_trees};
ghost use Rattle.element_print.specs.Lengths as lengths;
ghost use Rattle.element_print.specs.Lengths.{capped, lengths_by, nameless};
ghost use Rattle.element_print.specs.Printed as printed;

use crate::lengths::NameLengths;
use crate::place::{Place, mark_of, needs_brackets};
use crate::token_lengths::{
    between_length, brackets_length, field_length, literal_length, mark_length, marks_length,
    name_length, number_length, total,
};
use element_lang::{Expr, Mark};
use gal_bits::{Op, Width};
use packet_fields::Field;

// A reading of a field.
fn read_length(names: &NameLengths<'_>, field: Field) -> u64
    ensures { result ≡ capped (lengths.read_length (lengths_by names.now) field) }
{
    match field {
        Field::MetaPort => names.port,
        _ => field_length(field),
    }
}

// An expression, in brackets where it needs them.
#[cycle(expr_lengths)]
fn part_length(names: &NameLengths<'_>, place: Place, e: &Expr) -> u64
    ensures { result ≡ capped (lengths.brackets_length (printed.needs_brackets place (nameless (expr_tree e.now)))
        + lengths.expr_length (lengths_by names.now) (expr_tree e.now)) }
{
    total(&[
        brackets_length(needs_brackets(place, e)),
        expr_length(names, e),
    ])
}

// Expressions, without what stands between two of them.
#[cycle(expr_lengths)]
fn parts_length(names: &NameLengths<'_>, place: Place, all: &[Expr]) -> u64
    ensures { result ≡ capped (lengths.parts_length (lengths_by names.now) place (expr_trees all.now)) }
{
    let mut bytes: u64 = 0;
    for e in all {
        bytes = bytes.saturating_add(part_length(names, place, e));
    }
    bytes
}

// Expressions with a mark between two of them.
#[cycle(expr_lengths)]
#[tactic(auto, using(crate::proofs::Counted::counted_trees))]
fn listed_length(names: &NameLengths<'_>, place: Place, mark: Mark, all: &[Expr]) -> u64
    ensures { result ≡ capped (lengths.parts_length (lengths_by names.now) place (expr_trees all.now)
        + lengths.between_length mark (count_of (expr_trees all.now))) }
{
    total(&[
        parts_length(names, place, all),
        between_length(mark, all.len()),
    ])
}

// A keyword and its arguments.
#[cycle(expr_lengths)]
fn call_length(names: &NameLengths<'_>, mark: Mark, args: &[Expr]) -> u64
    ensures { result ≡ capped (lengths.call_length mark
        + lengths.exprs_length (lengths_by names.now) (expr_trees args.now)) }
{
    total(&[
        mark_length(mark),
        brackets_length(true),
        listed_length(names, Place::Whole, Mark::Comma, args),
    ])
}

#[cycle(expr_lengths)]
#[tactic(auto, using(crate::proofs::Counted::counted_trees))]
fn cast_length(names: &NameLengths<'_>, width: Width, args: &[Expr]) -> u64
    ensures { result ≡ capped (lengths.expr_length (lengths_by names.now)
        (apply Op.Cast width (expr_trees args.now))) }
{
    total(&[
        mark_length(Mark::Cast),
        brackets_length(true),
        number_length(u64::from(width.bits())),
        parts_length(names, Place::Whole, args),
        marks_length(Mark::Comma, args.len() as u64),
    ])
}

#[cycle(expr_lengths)]
fn shift_length(names: &NameLengths<'_>, op: Op, by: u8, arg: &Expr) -> u64
    ensures { result ≡ capped (lengths.expr_length (lengths_by names.now) (shift op by (expr_tree arg.now))) }
{
    total(&[
        part_length(names, Place::Operand, arg),
        mark_length(mark_of(op)),
        number_length(u64::from(by)),
    ])
}

#[cycle(expr_lengths)]
fn byte_length(names: &NameLengths<'_>, index: &Expr) -> u64
    ensures { result ≡ capped (lengths.call_length Mark.Byte
        + lengths.expr_length (lengths_by names.now) (expr_tree index.now)) }
{
    total(&[
        mark_length(Mark::Byte),
        brackets_length(true),
        expr_length(names, index),
    ])
}

#[cycle(expr_lengths)]
fn not_length(names: &NameLengths<'_>, args: &[Expr]) -> u64
    ensures { result ≡ capped (lengths.expr_length (lengths_by names.now) (apply Op.Not 0 (expr_trees args.now))) }
{
    total(&[
        mark_length(Mark::Tilde),
        listed_length(names, Place::Turned, Mark::Comma, args),
    ])
}

/// The bytes of an expression.
#[cycle(expr_lengths)]
pub(crate) fn expr_length(names: &NameLengths<'_>, e: &Expr) -> u64
    ensures { result ≡ capped (lengths.expr_length (lengths_by names.now) (expr_tree e.now)) }
{
    match e {
        Expr::Lit(value, width) => literal_length(*value, u64::from(width.bits())),
        Expr::Local(x) => name_length(names.locals, *x),
        Expr::Field(field) => read_length(names, *field),
        Expr::Byte(index) => byte_length(names, index),
        Expr::Shift { op, by, arg } => shift_length(names, *op, *by, arg),
        Expr::Apply { op, width, args } => match op {
            Op::Not => not_length(names, args),
            Op::Cast => cast_length(names, *width, args),
            Op::Select => call_length(names, Mark::Select, args),
            Op::Adjust => call_length(names, Mark::Adjust, args),
            _ => listed_length(names, Place::Operand, mark_of(*op), args),
        },
    }
}

/// The bytes of expressions with commas between them.
pub(crate) fn exprs_length(names: &NameLengths<'_>, all: &[Expr]) -> u64
    ensures { result ≡ capped (lengths.exprs_length (lengths_by names.now) (expr_trees all.now)) }
{
    listed_length(names, Place::Whole, Mark::Comma, all)
}
