//! How wide the variables of a run are.
ghost use Rattle.std.specs.Prelude.{◌≡◌, ◌≤◌, map, get_or, IfOk};
ghost use Rattle.packet_fields.specs.Table.{row};
ghost use Rattle.element_lang.specs.View.{expr_tree};
ghost use Rattle.element_lang.specs.Widths.{width_of};
ghost use Rattle.flatten.specs.Flatten.{field_widths};

use element_lang::{Expr, Local};
use gal_bits::Width;
use packet_fields::{fields, width};
use std::alloc::{AllocError, Global};

/// The widths of the locals, by number, and of the fields, in field order.
#[derive(Drop)]
pub(crate) struct Frame {
    pub locals: Vec<Width>,
    pub fields: Vec<Width>,
}

impl Frame {
    pub fn of(alloc: Global, declared: &[Local]) -> Result<Frame, AllocError>
        ensures locals { IfOk result (λ frame. frame.locals.items ≡ map (λ l. l.width) declared.now) }
        ensures fields { IfOk result (λ frame. frame.fields.items ≡ field_widths) }
    {
        let locals = local_widths(alloc, declared)?;
        let fields = widths_of_fields(alloc)?;
        Ok(Frame { locals, fields })
    }

    /// The width of a local, and 1 where there is none.
    pub fn width_at(&self, x: u32) -> Width
        ensures { result ≡ get_or self.now.locals.items x 1 }
    {
        match self.locals.get(x as usize) {
            Some(width) => *width,
            None => Width::new(1).unwrap(),
        }
    }

    /// The width of an expression.
    pub fn width_of(&self, e: &Expr) -> Width
        requires { 1 ≤ width_of self.now.locals.items (expr_tree e.now) }
        ensures { result ≡ width_of self.now.locals.items (expr_tree e.now) }
    {
        match e {
            Expr::Lit(_, width) => *width,
            Expr::Local(x) => self.locals[*x as usize],
            Expr::Field(field) => width(*field),
            Expr::Byte(_) => Width::new(8).unwrap(),
            Expr::Shift { arg, .. } => self.width_of(arg),
            Expr::Apply { width, .. } => *width,
        }
    }
}

fn local_widths(alloc: Global, declared: &[Local]) -> Result<Vec<Width>, AllocError>
    ensures { IfOk result (λ widths. widths.items ≡ map (λ l. l.width) declared.now) }
{
    let mut widths = Vec::with_capacity(alloc, declared.len())?;
    for local in declared {
        widths.push(local.width)?;
    }
    Ok(widths)
}

fn widths_of_fields(alloc: Global) -> Result<Vec<Width>, AllocError>
    ensures { IfOk result (λ widths. widths.items ≡ field_widths) }
{
    let mut widths = Vec::new(alloc);
    for field in fields() {
        widths.push(width(field))?;
    }
    Ok(widths)
}
