//! Where an expression stands, and how operators are written.
ghost use Rattle.std.specs.Prelude.{◌≡◌};
ghost use Rattle.element_lang.specs.Tree.{Tree};
ghost use Rattle.element_lang.specs.Surface.{named_expr};
ghost use Rattle.element_lang.specs.View.{expr_tree};
ghost use Rattle.element_print.specs.Printed as printed;

use element_lang::{Expr, Mark};
use gal_bits::Op;

/// Where an expression stands.
#[derive(Clone, Copy)]
pub enum Place {
    /// Between brackets, commas or other marks that can't be a part of it.
    Whole,
    /// Beside the symbol of an operator.
    Operand,
    /// Behind `~`.
    Turned,
}

/// The mark that an operator is written with.
pub(crate) fn mark_of(op: Op) -> Mark
    ensures { result ≡ printed.mark_of op }
{
    match op {
        Op::Add => Mark::Plus,
        Op::Sub => Mark::Minus,
        Op::Mul => Mark::Star,
        Op::Div => Mark::Slash,
        Op::Rem => Mark::Percent,
        Op::And => Mark::Ampersand,
        Op::Or => Mark::Bar,
        Op::Xor => Mark::Caret,
        Op::Not => Mark::Tilde,
        Op::Shl => Mark::ShiftLeft,
        Op::Shr => Mark::ShiftRight,
        Op::Eq => Mark::Equal,
        Op::Ne => Mark::NotEqual,
        Op::Lt => Mark::Less,
        Op::Le => Mark::AtMost,
        Op::Cast => Mark::Cast,
        Op::Select => Mark::Select,
        Op::Adjust => Mark::Adjust,
    }
}

fn is_infix(op: Op) -> bool
    ensures { result ≡ printed.is_infix op }
{
    !matches!(op, Op::Not | Op::Cast | Op::Select | Op::Adjust)
}

fn has_infix(e: &Expr) -> bool
    ensures { (m : Tree) → result ≡ printed.has_infix (named_expr m (expr_tree e.now)) }
{
    match e {
        Expr::Shift { .. } => true,
        Expr::Apply { op, .. } => is_infix(*op),
        _ => false,
    }
}

fn is_turned(e: &Expr) -> bool
    ensures { (m : Tree) → result ≡ printed.is_turned (named_expr m (expr_tree e.now)) }
{
    match e {
        Expr::Apply { op, .. } => matches!(op, Op::Not),
        _ => false,
    }
}

/// The grammar takes an expression there only in brackets.
pub(crate) fn needs_brackets(place: Place, e: &Expr) -> bool
    ensures { (m : Tree) → result ≡ printed.needs_brackets place (named_expr m (expr_tree e.now)) }
{
    match place {
        Place::Whole => false,
        Place::Operand => has_infix(e),
        Place::Turned => has_infix(e) || is_turned(e),
    }
}
