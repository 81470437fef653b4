//! How many bytes a printed text has, counted from the tree. Counts stop at 2^64 - 1.
ghost use Rattle.std.specs.Prelude.{◌≡◌, ◌+◌, length, map, IfOk};
ghost use Rattle.element_lang.specs.View.{tree, expr_tree, expr_trees, stmt_tree, body_tree};
ghost use Rattle.element_lang.specs.Tree.StmtTree.{look, put, del, choose, repeat};
ghost use Rattle.element_print.specs.Lengths as lengths;
ghost use Rattle.element_print.specs.Lengths.{capped, lengths_by};

use crate::decl_lengths::decls_length;
use crate::expr_lengths::{expr_length, exprs_length};
use crate::token_lengths::{
    braces_length, field_length, frame_length, mark_length, name_length, number_length, total,
};
use element_lang::{Expr, Local, Mark, Middlebox, Stmt};
use gal_io::NoMemory;
use packet_fields::Field;
use state_store::ObjectDecl;
use std::alloc::Global;

/// How many bytes the names have that statements use.
#[derive(Clone, Copy)]
pub struct NameLengths<'a> {
    /// The bytes of the name of each local, by its number. A local past the end has none.
    pub locals: &'a [u64],
    /// The bytes of the name of each object, by its number. An object past the end has none.
    pub objects: &'a [u64],
    /// The bytes of a reading of `meta.port`, with the one after it.
    pub port: u64,
}

// What a statement with a value ends with.
fn value_length(names: &NameLengths<'_>, value: &Expr) -> u64
    ensures { result ≡ capped (lengths.mark_length Mark.Assign
        + lengths.expr_length (lengths_by names.now) (expr_tree value.now) + lengths.mark_length Mark.Semicolon) }
{
    total(&[
        mark_length(Mark::Assign),
        expr_length(names, value),
        mark_length(Mark::Semicolon),
    ])
}

// An object and a key.
fn keyed_length(names: &NameLengths<'_>, object: u32, keys: &[Expr]) -> u64
    ensures { result ≡ capped (lengths.keyed_length (lengths_by names.now) object (expr_trees keys.now)) }
{
    total(&[
        name_length(names.objects, object),
        mark_length(Mark::LeftBracket),
        exprs_length(names, keys),
        mark_length(Mark::RightBracket),
    ])
}

// The names of locals, with a comma before each.
fn names_length(names: &NameLengths<'_>, locals: &[u32]) -> u64
    ensures { result ≡ capped (lengths.names_length (lengths_by names.now) locals.now) }
{
    let mut bytes: u64 = 0;
    for local in locals {
        bytes = total(&[
            bytes,
            mark_length(Mark::Comma),
            name_length(names.locals, *local),
        ]);
    }
    bytes
}

fn look_length(names: &NameLengths<'_>, found: u32, into: &[u32], object: u32, keys: &[Expr]) -> u64
    ensures { result ≡ capped (lengths.head_length (lengths_by names.now)
        (look found into.now object (expr_trees keys.now))) }
{
    total(&[
        mark_length(Mark::Look),
        name_length(names.locals, found),
        names_length(names, into),
        mark_length(Mark::Assign),
        keyed_length(names, object, keys),
        mark_length(Mark::Semicolon),
    ])
}

fn put_length(names: &NameLengths<'_>, ok: u32, object: u32, keys: &[Expr], values: &[Expr]) -> u64
    ensures { result ≡ capped (lengths.head_length (lengths_by names.now)
        (put ok object (expr_trees keys.now) (expr_trees values.now))) }
{
    total(&[
        mark_length(Mark::Put),
        name_length(names.locals, ok),
        mark_length(Mark::Assign),
        keyed_length(names, object, keys),
        mark_length(Mark::Arrow),
        exprs_length(names, values),
        mark_length(Mark::Semicolon),
    ])
}

fn del_length(names: &NameLengths<'_>, was: u32, object: u32, keys: &[Expr]) -> u64
    ensures { result ≡ capped (lengths.head_length (lengths_by names.now) (del was object (expr_trees keys.now))) }
{
    total(&[
        mark_length(Mark::Del),
        name_length(names.locals, was),
        mark_length(Mark::Assign),
        keyed_length(names, object, keys),
        mark_length(Mark::Semicolon),
    ])
}

// The mark and the braces of a second block, and nothing of an empty one.
fn else_length(empty: bool) -> u64
    ensures { result ≡ lengths.else_length empty }
{
    if empty {
        0
    } else {
        mark_length(Mark::Else) + braces_length()
    }
}

// An `if` without what stands in its blocks.
#[tactic(auto, using(crate::proofs::Counted::is_empty_body))]
fn choose_length(names: &NameLengths<'_>, cond: &Expr, yes: &[Stmt], no: &[Stmt]) -> u64
    ensures { result ≡ capped (lengths.head_length (lengths_by names.now)
        (choose (expr_tree cond.now) (body_tree yes.now) (body_tree no.now))) }
{
    total(&[
        mark_length(Mark::If),
        expr_length(names, cond),
        braces_length(),
        else_length(no.is_empty()),
    ])
}

// A `repeat` without what stands in its block.
fn repeat_length(names: &NameLengths<'_>, index: u32, count: u8, body: &[Stmt]) -> u64
    ensures { result ≡ capped (lengths.head_length (lengths_by names.now)
        (repeat index count (body_tree body.now))) }
{
    total(&[
        mark_length(Mark::Repeat),
        name_length(names.locals, index),
        number_length(u64::from(count)),
        braces_length(),
    ])
}

/// The bytes of a statement, each token with what stands after it, but for what stands in its blocks.
pub fn head_length(names: &NameLengths<'_>, stmt: &Stmt) -> u64
    ensures { result ≡ capped (lengths.head_length (lengths_by names.now) (stmt_tree stmt.now)) }
{
    match stmt {
        Stmt::Let { local, value } => total(&[
            mark_length(Mark::Let),
            name_length(names.locals, *local),
            value_length(names, value),
        ]),
        Stmt::Assign { local, value } => total(&[
            name_length(names.locals, *local),
            value_length(names, value),
        ]),
        Stmt::SetField { field, value } => {
            total(&[field_length(*field), value_length(names, value)])
        }
        Stmt::Look {
            found,
            into,
            object,
            keys,
        } => look_length(names, *found, into, *object, keys),
        Stmt::Put {
            ok,
            object,
            keys,
            values,
        } => put_length(names, *ok, *object, keys, values),
        Stmt::Del { was, object, keys } => del_length(names, *was, *object, keys),
        Stmt::If { cond, yes, no } => choose_length(names, cond, yes, no),
        Stmt::Repeat { index, count, body } => repeat_length(names, *index, *count, body),
        Stmt::Send { port } => total(&[
            mark_length(Mark::Send),
            expr_length(names, port),
            mark_length(Mark::Semicolon),
        ]),
        Stmt::Drop => mark_length(Mark::Drop) + mark_length(Mark::Semicolon),
    }
}

// A statement with what stands in its blocks.
#[cycle(stmt_lengths)]
fn stmt_length(names: &NameLengths<'_>, stmt: &Stmt) -> u64
    ensures { result ≡ capped (lengths.stmt_length (lengths_by names.now) (stmt_tree stmt.now)) }
{
    let head = head_length(names, stmt);
    match stmt {
        Stmt::If { yes, no, .. } => {
            total(&[head, body_length(names, yes), body_length(names, no)])
        }
        Stmt::Repeat { body, .. } => total(&[head, body_length(names, body)]),
        Stmt::Let { .. }
        | Stmt::Assign { .. }
        | Stmt::SetField { .. }
        | Stmt::Look { .. }
        | Stmt::Put { .. }
        | Stmt::Del { .. }
        | Stmt::Send { .. }
        | Stmt::Drop => head,
    }
}

#[cycle(stmt_lengths)]
fn body_length(names: &NameLengths<'_>, body: &[Stmt]) -> u64
    ensures { result ≡ capped (lengths.body_length (lengths_by names.now) (body_tree body.now)) }
{
    let mut bytes: u64 = 0;
    for stmt in body {
        bytes = bytes.saturating_add(stmt_length(names, stmt));
    }
    bytes
}

fn local_lengths(alloc: Global, locals: &[Local]) -> Result<Vec<u64>, NoMemory>
    ensures { IfOk result (λ lengths. lengths.items ≡ map (λ l. length l.name) locals.now) }
{
    let mut lengths = Vec::new(alloc);
    for local in locals {
        lengths.push(local.name.len() as u64)?;
    }
    Ok(lengths)
}

fn object_lengths(alloc: Global, objects: &[ObjectDecl]) -> Result<Vec<u64>, NoMemory>
    ensures { IfOk result (λ lengths. lengths.items ≡ map (λ o. length o.name) objects.now) }
{
    let mut lengths = Vec::new(alloc);
    for object in objects {
        lengths.push(object.name.len() as u64)?;
    }
    Ok(lengths)
}

/// The bytes of the text of a middlebox.
pub fn text_length(alloc: Global, m: &Middlebox) -> Result<u64, NoMemory>
    ensures { IfOk result (λ n. n ≡ capped (lengths.text_length (tree m.now))) }
{
    let locals = local_lengths(alloc, m.locals.as_slice())?;
    let objects = object_lengths(alloc, m.objects.as_slice())?;
    let names = NameLengths {
        locals: locals.as_slice(),
        objects: objects.as_slice(),
        port: field_length(Field::MetaPort),
    };
    Ok(total(&[
        decls_length(m.objects.as_slice()),
        frame_length(),
        body_length(&names, &m.body),
    ]))
}
