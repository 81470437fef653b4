//! Copies of syntax trees, in memory of their own.
ghost use Rattle.std.specs.Prelude.{◌≡◌, map, IfOk};
ghost use Rattle.element_lang.specs.View.{expr_tree, stmt_tree, tree};

use crate::tree::{Body, Expr, Middlebox, Stmt};
use gal_io::{CopyIn, NoMemory};
use std::alloc::Global;

impl Expr {
    /// The same expression again.
    #[cycle(copy_expr)]
    pub fn copy(&self, alloc: Global) -> Result<Expr, NoMemory>
        ensures { IfOk result (λ made. expr_tree made ≡ expr_tree self.now) }
    {
        match self {
            Expr::Lit(value, width) => Ok(Expr::Lit(*value, *width)),
            Expr::Local(local) => Ok(Expr::Local(*local)),
            Expr::Field(field) => Ok(Expr::Field(*field)),
            Expr::Byte(index) => Ok(Expr::Byte(Box::new(alloc, index.copy(alloc)?)?)),
            Expr::Shift { op, by, arg } => Ok(Expr::Shift {
                op: *op,
                by: *by,
                arg: Box::new(alloc, arg.copy(alloc)?)?,
            }),
            Expr::Apply { op, width, args } => Ok(Expr::Apply {
                op: *op,
                width: *width,
                args: copy_exprs(alloc, args)?,
            }),
        }
    }
}

#[cycle(copy_expr)]
fn copy_exprs(alloc: Global, exprs: &[Expr]) -> Result<Vec<Expr>, NoMemory>
    ensures { IfOk result (λ made. map expr_tree made.items ≡ map expr_tree exprs.now) }
{
    let mut copies = Vec::new(alloc);
    for expr in exprs {
        copies.push(expr.copy(alloc)?)?;
    }
    Ok(copies)
}

impl Stmt {
    /// The same statement again.
    #[cycle(copy_stmt)]
    pub fn copy(&self, alloc: Global) -> Result<Stmt, NoMemory>
        ensures { IfOk result (λ made. stmt_tree made ≡ stmt_tree self.now) }
    {
        match self {
            Stmt::Let { local, value } => Ok(Stmt::Let {
                local: *local,
                value: value.copy(alloc)?,
            }),
            Stmt::Assign { local, value } => Ok(Stmt::Assign {
                local: *local,
                value: value.copy(alloc)?,
            }),
            Stmt::SetField { field, value } => Ok(Stmt::SetField {
                field: *field,
                value: value.copy(alloc)?,
            }),
            Stmt::Look {
                found,
                into,
                object,
                keys,
            } => Ok(Stmt::Look {
                found: *found,
                into: into.to_vec(alloc)?,
                object: *object,
                keys: copy_exprs(alloc, keys)?,
            }),
            Stmt::Put {
                ok,
                object,
                keys,
                values,
            } => Ok(Stmt::Put {
                ok: *ok,
                object: *object,
                keys: copy_exprs(alloc, keys)?,
                values: copy_exprs(alloc, values)?,
            }),
            Stmt::Del { was, object, keys } => Ok(Stmt::Del {
                was: *was,
                object: *object,
                keys: copy_exprs(alloc, keys)?,
            }),
            Stmt::If { cond, yes, no } => Ok(Stmt::If {
                cond: cond.copy(alloc)?,
                yes: copy_body(alloc, yes)?,
                no: copy_body(alloc, no)?,
            }),
            Stmt::Repeat { index, count, body } => Ok(Stmt::Repeat {
                index: *index,
                count: *count,
                body: copy_body(alloc, body)?,
            }),
            Stmt::Send { port } => Ok(Stmt::Send {
                port: port.copy(alloc)?,
            }),
            Stmt::Drop => Ok(Stmt::Drop),
        }
    }
}

#[cycle(copy_stmt)]
fn copy_body(alloc: Global, body: &[Stmt]) -> Result<Body, NoMemory>
    ensures { IfOk result (λ made. map stmt_tree made.items ≡ map stmt_tree body.now) }
{
    let mut copies = Vec::new(alloc);
    for stmt in body {
        copies.push(stmt.copy(alloc)?)?;
    }
    Ok(copies)
}

impl Middlebox {
    /// The same middlebox again.
    pub fn copy(&self, alloc: Global) -> Result<Middlebox, NoMemory>
        ensures { IfOk result (λ made. tree made ≡ tree self.now) }
    {
        Ok(Middlebox {
            objects: self.objects.copy(alloc)?,
            locals: self.locals.copy(alloc)?,
            body: copy_body(alloc, &self.body)?,
        })
    }
}
