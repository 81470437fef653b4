//! The instructions of expressions.
ghost use Rattle.std.specs.Prelude.{◌≡◌, IfOk};
ghost use Rattle.element_lang.specs.View.{expr_tree, expr_trees};
ghost use Rattle.flat_ir.specs.Program.{work_of};
ghost use Rattle.flatten.specs.Flatten as pure;
ghost use Rattle.flatten.specs.Sized.{IsSizedExpr, AreSizedExprs};
ghost use Rattle.flatten.specs.Pending.{valued, listed};

use crate::frame::Frame;
use crate::output::Output;
use crate::place::Place;
use crate::state::State;
use element_lang::Expr;
use flat_ir::{InstrKind, ValueId};
use gal_bits::{Op, Width};
use gal_io::NoMemory;
use std::alloc::Global;

// What an operator other than a shift does.
fn operation(op: Op, width: Width, args: Vec<ValueId>) -> InstrKind
    ensures { work_of result ≡ pure.operation op width args.items }
{
    match (op, args.as_slice()) {
        (Op::Select, [cond, first, second]) => InstrKind::Select {
            width,
            cond: *cond,
            first: *first,
            second: *second,
        },
        _ => InstrKind::Apply { op, width, args },
    }
}

impl Output {
    /// Gives the instructions of an expression, and answers its value.
    #[cycle(value)]
    pub fn value(
        &mut self,
        alloc: Global,
        frame: &Frame,
        place: Place,
        w: &State,
        e: &Expr,
    ) -> Result<ValueId, NoMemory>
        requires { IsSizedExpr frame.now.locals.items (expr_tree e.now) }
        ensures { IfOk result (λ id.
            valued self.new id ≡ pure.flat_expr frame.now.locals.items place w.now (expr_tree e.now) self.old) }
    {
        match e {
            Expr::Lit(number, width) => self.give(place, InstrKind::Const(*width, *number)),
            Expr::Local(x) => Ok(w.local(*x)),
            Expr::Field(field) => Ok(w.field(*field)),
            Expr::Byte(index) => {
                let id = self.value(alloc, frame, place, w, index)?;
                self.give(place, InstrKind::Byte(id))
            }
            Expr::Shift { op, by, arg } => {
                let id = self.value(alloc, frame, place, w, arg)?;
                let kind = InstrKind::Shift {
                    op: *op,
                    width: frame.width_of(arg),
                    arg: id,
                    by: *by,
                };
                self.give(place, kind)
            }
            Expr::Apply { op, width, args } => {
                let ids = self.values(alloc, frame, place, w, args)?;
                self.give(place, operation(*op, *width, ids))
            }
        }
    }

    /// Gives the instructions of some expressions, one after the other, and answers their values.
    #[cycle(value)]
    pub fn values(
        &mut self,
        alloc: Global,
        frame: &Frame,
        place: Place,
        w: &State,
        all: &[Expr],
    ) -> Result<Vec<ValueId>, NoMemory>
        requires { AreSizedExprs frame.now.locals.items (expr_trees all.now) }
        ensures { IfOk result (λ ids.
            listed self.new ids.items
            ≡ pure.flat_exprs frame.now.locals.items place w.now (expr_trees all.now) self.old) }
    {
        let mut ids = Vec::new(alloc);
        for e in all {
            ids.push(self.value(alloc, frame, place, w, e)?)?;
        }
        Ok(ids)
    }
}
