//! Expressions with two or three arguments.
ghost use Rattle.std.specs.Prelude.{◌≡◌, IfOk};
ghost use Rattle.element_lang.specs.Tree.ExprTree.{apply};
ghost use Rattle.element_lang.specs.View.{expr_tree, expr_trees};
ghost use Rattle.element_chain.specs.Compose.{two, three};

use element_lang::Expr;
use gal_bits::Op;
use gal_io::NoMemory;
use packet_fields::{Field, width};
use std::alloc::Global;

/// Two expressions.
pub(crate) fn two(alloc: Global, a: Expr, b: Expr) -> Result<Vec<Expr>, NoMemory>
    ensures { IfOk result (λ made. expr_trees made.items ≡ two (expr_tree a) (expr_tree b)) }
{
    let mut args = Vec::new(alloc);
    args.push(a)?;
    args.push(b)?;
    Ok(args)
}

/// Three expressions.
pub(crate) fn three(alloc: Global, a: Expr, b: Expr, c: Expr) -> Result<Vec<Expr>, NoMemory>
    ensures { IfOk result (λ made. expr_trees made.items ≡ three (expr_tree a) (expr_tree b) (expr_tree c)) }
{
    let mut args = Vec::new(alloc);
    args.push(a)?;
    args.push(b)?;
    args.push(c)?;
    Ok(args)
}

/// An operator with two arguments, whose result has 1 bit.
pub(crate) fn test(alloc: Global, op: Op, a: Expr, b: Expr) -> Result<Expr, NoMemory>
    ensures { IfOk result (λ made. expr_tree made ≡ apply op 1 (two (expr_tree a) (expr_tree b))) }
{
    Ok(Expr::Apply {
        op,
        width: width(Field::HasIp),
        args: two(alloc, a, b)?,
    })
}
