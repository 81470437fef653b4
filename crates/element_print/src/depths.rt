//! How deep brackets stand in one another in a printed text, counted from the tree. Counts stop at 2^64 - 1.
ghost use Rattle.std.specs.Prelude.{◌≡◌, suc, max};
ghost use Rattle.element_lang.specs.View.{expr_tree, expr_trees, stmt_tree};
ghost use Rattle.element_print.specs.Depths as depths;
ghost use Rattle.element_print.specs.Depths.{within_if};
ghost use Rattle.element_print.specs.Lengths.{capped, nameless};
ghost use Rattle.element_print.specs.Printed as printed;

use crate::place::{Place, needs_brackets};
use element_lang::{Expr, Stmt};
use gal_bits::Op;
use state_store::{Kind, ObjectDecl};

// The greater of two depths.
fn deeper(first: u64, second: u64) -> u64
    ensures { result ≡ max first second }
{
    if first < second { second } else { first }
}

// An expression, in brackets where it needs them.
#[cycle(expr_depths)]
fn part_depth(place: Place, e: &Expr) -> u64
    ensures { result ≡ capped (within_if (printed.needs_brackets place (nameless (expr_tree e.now)))
        (depths.expr_depth (expr_tree e.now))) }
{
    let depth = expr_depth(e);
    if needs_brackets(place, e) {
        depth.saturating_add(1)
    } else {
        depth
    }
}

// The deepest of some expressions.
#[cycle(expr_depths)]
fn parts_depth(place: Place, all: &[Expr]) -> u64
    ensures { result ≡ capped (depths.parts_depth place (expr_trees all.now)) }
{
    let mut deepest = 0;
    for e in all {
        deepest = deeper(deepest, part_depth(place, e));
    }
    deepest
}

/// How deep the brackets of an expression stand.
#[cycle(expr_depths)]
pub fn expr_depth(e: &Expr) -> u64
    ensures { result ≡ capped (depths.expr_depth (expr_tree e.now)) }
{
    match e {
        Expr::Lit(_, _) => 0,
        Expr::Local(_) => 0,
        Expr::Field(_) => 0,
        Expr::Byte(index) => expr_depth(index).saturating_add(1),
        Expr::Shift { arg, .. } => part_depth(Place::Operand, arg),
        Expr::Apply { op, args, .. } => match op {
            Op::Not => parts_depth(Place::Turned, args),
            Op::Cast => parts_depth(Place::Whole, args).saturating_add(1),
            Op::Select => parts_depth(Place::Whole, args).saturating_add(1),
            Op::Adjust => parts_depth(Place::Whole, args).saturating_add(1),
            _ => parts_depth(Place::Operand, args),
        },
    }
}

// A key in square brackets.
fn keyed_depth(keys: &[Expr]) -> u64
    ensures { result ≡ capped (depths.keyed_depth (expr_trees keys.now)) }
{
    parts_depth(Place::Whole, keys).saturating_add(1)
}

/// How deep the brackets of a statement stand, but for its blocks.
pub fn head_depth(stmt: &Stmt) -> u64
    ensures { result ≡ capped (depths.head_depth (stmt_tree stmt.now)) }
{
    match stmt {
        Stmt::Let { value, .. } => expr_depth(value),
        Stmt::Assign { value, .. } => expr_depth(value),
        Stmt::SetField { value, .. } => expr_depth(value),
        Stmt::Look { keys, .. } => keyed_depth(keys),
        Stmt::Put { keys, values, .. } => {
            deeper(keyed_depth(keys), parts_depth(Place::Whole, values))
        }
        Stmt::Del { keys, .. } => keyed_depth(keys),
        Stmt::If { cond, .. } => expr_depth(cond),
        Stmt::Repeat { .. } => 0,
        Stmt::Send { port } => expr_depth(port),
        Stmt::Drop => 0,
    }
}

// A declaration.
fn decl_depth(o: &ObjectDecl) -> u64
    ensures { result ≡ depths.depth_as o.now.kind o.now }
{
    match o.kind {
        Kind::Table => { if o.rows.is_empty() { 1 } else { 2 } }
        Kind::Map => 1,
        Kind::Vector => 1,
        Kind::Int => 0,
    }
}

/// How deep the brackets of the declarations of these objects stand.
pub fn decls_depth(objects: &[ObjectDecl]) -> u64
    ensures { result ≡ capped (depths.decls_depth objects.now) }
{
    let mut deepest = 0;
    for o in objects {
        deepest = deeper(deepest, decl_depth(o));
    }
    deepest
}
