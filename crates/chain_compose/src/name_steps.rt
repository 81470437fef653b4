//! What the statements of an element do with locals, in order.
ghost use Rattle.std.specs.Prelude.{◌≡◌, ◌++◌, ◌∷◌, [], OnOk};
ghost use Rattle.element_lang.specs.View.{expr_tree, expr_trees, stmt_tree, body_tree};
ghost use Rattle.chain_compose.specs.Counts.{used_by_expr, used_by_exprs};
ghost use Rattle.chain_compose.specs.NamedFrom.{named, all_declared_steps, send_steps, stmt_steps, body_steps};
ghost use Rattle.chain_compose.specs.declared.name_steps.Step.TheVariants.{Declare};

use element_lang::{Expr, Stmt};
use gal_io::NoMemory;

/// What a statement does with locals of its element.
#[derive(Clone, Copy)]
pub(crate) enum Step {
    /// A local is named that is declared before.
    Name(u32),
    /// The next local is declared.
    Declare,
    /// The element sends, where it has a wire.
    Send,
}

// Puts the locals that an expression names.
#[cycle(names)]
fn put_expr(expr: &Expr, out: &mut Vec<Step>) -> Result<(), NoMemory>
    ensures { OnOk result (out.new.items ≡ out.old.items ++ named (used_by_expr (expr_tree expr.now))) }
{
    match expr {
        Expr::Lit(_, _) | Expr::Field(_) => Ok(()),
        Expr::Local(local) => put_name(*local, out),
        Expr::Byte(index) => put_expr(index, out),
        Expr::Shift { arg, .. } => put_expr(arg, out),
        Expr::Apply { args, .. } => put_exprs(args, out),
    }
}

// The same of several.
#[cycle(names)]
fn put_exprs(exprs: &[Expr], out: &mut Vec<Step>) -> Result<(), NoMemory>
    ensures { OnOk result (out.new.items ≡ out.old.items ++ named (used_by_exprs (expr_trees exprs.now))) }
{
    for expr in exprs {
        put_expr(expr, out)?;
    }
    Ok(())
}

fn put_name(local: u32, out: &mut Vec<Step>) -> Result<(), NoMemory>
    ensures { OnOk result (out.new.items ≡ out.old.items ++ named (local ∷ [])) }
{
    out.push(Step::Name(local))?;
    Ok(())
}

fn put_declare(out: &mut Vec<Step>) -> Result<(), NoMemory>
    ensures { OnOk result (out.new.items ≡ out.old.items ++ Declare ∷ []) }
{
    out.push(Step::Declare)?;
    Ok(())
}

// Puts a declaration for each of these locals.
fn put_declares(locals: &[u32], out: &mut Vec<Step>) -> Result<(), NoMemory>
    ensures { OnOk result (out.new.items ≡ out.old.items ++ all_declared_steps locals.now) }
{
    for _ in 0..locals.len() {
        put_declare(out)?;
    }
    Ok(())
}

// Puts the steps of a `send`: none, where the element has no wire.
fn put_send(wired: bool, port: &Expr, out: &mut Vec<Step>) -> Result<(), NoMemory>
    ensures { OnOk result (out.new.items ≡ out.old.items ++ send_steps wired (expr_tree port.now)) }
{
    if wired {
        put_expr(port, out)?;
        out.push(Step::Send)?;
    }
    Ok(())
}

// Puts the steps of a statement.
#[cycle(steps)]
fn put_stmt(wired: bool, stmt: &Stmt, out: &mut Vec<Step>) -> Result<(), NoMemory>
    ensures { OnOk result (out.new.items ≡ out.old.items ++ stmt_steps wired (stmt_tree stmt.now)) }
{
    match stmt {
        Stmt::Let { value, .. } => {
            put_expr(value, out)?;
            put_declare(out)
        }
        Stmt::Assign { local, value } => {
            put_name(*local, out)?;
            put_expr(value, out)
        }
        Stmt::SetField { value, .. } => put_expr(value, out),
        Stmt::Look { into, keys, .. } => {
            put_exprs(keys, out)?;
            put_declare(out)?;
            put_declares(into, out)
        }
        Stmt::Put { keys, values, .. } => {
            put_exprs(keys, out)?;
            put_exprs(values, out)?;
            put_declare(out)
        }
        Stmt::Del { keys, .. } => {
            put_exprs(keys, out)?;
            put_declare(out)
        }
        Stmt::If { cond, yes, no } => {
            put_expr(cond, out)?;
            put_body(wired, yes, out)?;
            put_body(wired, no, out)
        }
        Stmt::Repeat { body, .. } => {
            put_declare(out)?;
            put_body(wired, body, out)
        }
        Stmt::Send { port } => put_send(wired, port, out),
        Stmt::Drop => Ok(()),
    }
}

/// Puts the steps of statements, where their element has a wire or not.
#[cycle(steps)]
pub(crate) fn put_body(wired: bool, body: &[Stmt], out: &mut Vec<Step>) -> Result<(), NoMemory>
    ensures { OnOk result (out.new.items ≡ out.old.items ++ body_steps wired (body_tree body.now)) }
{
    for stmt in body {
        put_stmt(wired, stmt, out)?;
    }
    Ok(())
}
