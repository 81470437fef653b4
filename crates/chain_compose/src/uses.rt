//! What elements do: whether they read bytes, repeat or send, and which fields they write.
ghost use Rattle.std.specs.Prelude.{◌≡◌, map, IfOk};
ghost use Rattle.std.specs.List.{filter};
ghost use Rattle.packet_fields.specs.Table.{all_fields};
ghost use Rattle.element_lang.specs.Rules.{repeats, any_repeats};
ghost use Rattle.element_lang.specs.View.{expr_tree, expr_trees, stmt_tree, body_tree, tree};
ghost use Rattle.element_chain.specs.Compose.{sets, sets_in, is_set};
ghost use Rattle.element_chain.specs.Laws.{reads_bytes, any_reads_bytes, uses_bytes, any_uses_bytes};
ghost use Rattle.element_chain.specs.Laws.{sends_in, any_sends, sends_again, any_sends_again};

use element_lang::{Expr, Middlebox, Stmt};
use gal_io::NoMemory;
use packet_fields::{Field, field_index, fields};
use std::alloc::Global;

#[cycle(reads)]
fn reads_bytes(expr: &Expr) -> bool
    ensures { result ≡ reads_bytes (expr_tree expr.now) }
{
    match expr {
        Expr::Byte(_) => true,
        Expr::Shift { arg, .. } => reads_bytes(arg),
        Expr::Apply { args, .. } => any_reads_bytes(args),
        Expr::Lit(..) | Expr::Local(_) | Expr::Field(_) => false,
    }
}

#[cycle(reads)]
fn any_reads_bytes(exprs: &[Expr]) -> bool
    ensures { result ≡ any_reads_bytes (expr_trees exprs.now) }
{
    for expr in exprs {
        if reads_bytes(expr) {
            return true;
        }
    }
    false
}

#[cycle(uses)]
fn uses_bytes(stmt: &Stmt) -> bool
    ensures { result ≡ uses_bytes (stmt_tree stmt.now) }
{
    match stmt {
        Stmt::Let { value, .. } | Stmt::Assign { value, .. } | Stmt::SetField { value, .. } => {
            reads_bytes(value)
        }
        Stmt::Look { keys, .. } | Stmt::Del { keys, .. } => any_reads_bytes(keys),
        Stmt::Put { keys, values, .. } => any_reads_bytes(keys) || any_reads_bytes(values),
        Stmt::If { cond, yes, no } => {
            reads_bytes(cond) || any_uses_bytes(yes) || any_uses_bytes(no)
        }
        Stmt::Repeat { body, .. } => any_uses_bytes(body),
        Stmt::Send { port } => reads_bytes(port),
        Stmt::Drop => false,
    }
}

/// Whether statements read bytes of the packet as it arrived.
#[cycle(uses)]
pub(crate) fn any_uses_bytes(body: &[Stmt]) -> bool
    ensures { result ≡ any_uses_bytes (body_tree body.now) }
{
    for stmt in body {
        if uses_bytes(stmt) {
            return true;
        }
    }
    false
}

#[cycle(repeats)]
fn repeats(stmt: &Stmt) -> bool
    ensures { result ≡ repeats (stmt_tree stmt.now) }
{
    match stmt {
        Stmt::Repeat { .. } => true,
        Stmt::If { yes, no, .. } => any_repeats(yes) || any_repeats(no),
        _ => false,
    }
}

/// Whether a `repeat` stands in statements.
#[cycle(repeats)]
pub(crate) fn any_repeats(body: &[Stmt]) -> bool
    ensures { result ≡ any_repeats (body_tree body.now) }
{
    for stmt in body {
        if repeats(stmt) {
            return true;
        }
    }
    false
}

#[cycle(sends)]
fn sends_in(stmt: &Stmt) -> bool
    ensures { result ≡ sends_in (stmt_tree stmt.now) }
{
    match stmt {
        Stmt::Send { .. } => true,
        Stmt::If { yes, no, .. } => any_sends(yes) || any_sends(no),
        Stmt::Repeat { body, .. } => any_sends(body),
        _ => false,
    }
}

#[cycle(sends)]
fn any_sends(body: &[Stmt]) -> bool
    ensures { result ≡ any_sends (body_tree body.now) }
{
    for stmt in body {
        if sends_in(stmt) {
            return true;
        }
    }
    false
}

#[cycle(again)]
fn sends_again(stmt: &Stmt) -> bool
    ensures { result ≡ sends_again (stmt_tree stmt.now) }
{
    match stmt {
        Stmt::Repeat { body, .. } => any_sends(body),
        Stmt::If { yes, no, .. } => any_sends_again(yes) || any_sends_again(no),
        _ => false,
    }
}

/// Whether a `send` stands within a `repeat`.
#[cycle(again)]
pub(crate) fn any_sends_again(body: &[Stmt]) -> bool
    ensures { result ≡ any_sends_again (body_tree body.now) }
{
    for stmt in body {
        if sends_again(stmt) {
            return true;
        }
    }
    false
}

#[cycle(sets)]
fn sets(field: Field, stmt: &Stmt) -> bool
    ensures { result ≡ sets field (stmt_tree stmt.now) }
{
    match stmt {
        Stmt::SetField { field: other, .. } => field_index(field) == field_index(*other),
        Stmt::If { yes, no, .. } => sets_in(field, yes) || sets_in(field, no),
        Stmt::Repeat { body, .. } => sets_in(field, body),
        _ => false,
    }
}

#[cycle(sets)]
fn sets_in(field: Field, body: &[Stmt]) -> bool
    ensures { result ≡ sets_in field (body_tree body.now) }
{
    for stmt in body {
        if sets(field, stmt) {
            return true;
        }
    }
    false
}

// Whether some element sets a field.
fn is_set(field: Field, classes: &[Middlebox]) -> bool
    ensures { result ≡ is_set (map tree classes.now) field }
{
    for class in classes {
        if sets_in(field, &class.body) {
            return true;
        }
    }
    false
}

/// The fields that some element sets, in field order.
pub(crate) fn fields_set(alloc: Global, classes: &[Middlebox]) -> Result<Vec<Field>, NoMemory>
    ensures { IfOk result (λ found. found.items ≡ filter (is_set (map tree classes.now)) all_fields) }
{
    let all = fields();
    let mut found = Vec::new(alloc);
    for field in &all {
        if is_set(*field, classes) {
            found.push(*field)?;
        }
    }
    Ok(found)
}
