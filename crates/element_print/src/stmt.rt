//! The tokens of statements.
ghost use Rattle.std.specs.Prelude.{◌≡◌, ◌++◌, ◌∷◌, [], map, OnOk};
ghost use Rattle.element_lang.specs.Surface.{named_exprs, named_stmt, named_body, named_expr, local_name, object_name};
ghost use Rattle.element_lang.specs.Surface.{let_local, assign, set_field, look, put, del, repeat};
ghost use Rattle.element_lang.specs.Token.{fixed, name};
ghost use Rattle.element_lang.specs.View.{tree, expr_tree, expr_trees, stmt_tree, body_tree};
ghost use Rattle.element_print.specs.Printed.{expr_tokens, exprs_tokens, behind_each, keyed, else_tokens, in_braces};
ghost use Rattle.element_print.specs.Printed.{stmt_tokens, body_tokens};
ghost use Rattle.element_print.specs.Spaced.{spaced};

use crate::expr::{local_name, put_expr, put_exprs};
use crate::tokens::Tokens;
use element_lang::{Expr, Mark, Middlebox, Stmt};
use gal_io::NoMemory;
use packet_fields::Field;

// The name of an object, or no bytes where it isn't declared.
fn object_name(m: &Middlebox, x: u32) -> &[u8]
    ensures { result.now ≡ object_name (tree m.now) x }
{
    match m.objects.as_slice().get(x as usize) {
        Some(object) => object.name.as_slice(),
        None => b"",
    }
}

// Adds what a statement with a value ends with.
#[tactic(auto, using(crate::proofs::Spaces::spaces))]
fn put_value(m: &Middlebox, e: &Expr, out: &mut Tokens) -> Result<(), NoMemory>
    ensures { OnOk result (out.new
        ≡ out.old ++ spaced (expr_tokens (named_expr (tree m.now) (expr_tree e.now)) ++ fixed Mark.Semicolon ∷ [])) }
{
    put_expr(m, e, out)?;
    out.mark(Mark::Semicolon)?;
    Ok(())
}

#[tactic(auto, using(crate::proofs::Spaces::spaces))]
fn put_let(m: &Middlebox, local: u32, value: &Expr, out: &mut Tokens) -> Result<(), NoMemory>
    ensures { OnOk result (out.new
        ≡ out.old ++ spaced (stmt_tokens
        (let_local (local_name (tree m.now) local) (named_expr (tree m.now) (expr_tree value.now))))) }
{
    out.mark(Mark::Let)?;
    out.name(local_name(m, local))?;
    out.mark(Mark::Assign)?;
    put_value(m, value, out)?;
    Ok(())
}

#[tactic(auto, using(crate::proofs::Spaces::spaces))]
fn put_assign(m: &Middlebox, local: u32, value: &Expr, out: &mut Tokens) -> Result<(), NoMemory>
    ensures { OnOk result (out.new
        ≡ out.old ++ spaced (stmt_tokens
        (assign (local_name (tree m.now) local) (named_expr (tree m.now) (expr_tree value.now))))) }
{
    out.name(local_name(m, local))?;
    out.mark(Mark::Assign)?;
    put_value(m, value, out)?;
    Ok(())
}

#[tactic(auto, using(crate::proofs::Spaces::spaces))]
fn put_set_field(
    m: &Middlebox,
    field: Field,
    value: &Expr,
    out: &mut Tokens,
) -> Result<(), NoMemory>
    ensures { OnOk result (out.new
        ≡ out.old ++ spaced (stmt_tokens (set_field field (named_expr (tree m.now) (expr_tree value.now))))) }
{
    out.field(field)?;
    out.mark(Mark::Assign)?;
    put_value(m, value, out)?;
    Ok(())
}

// Adds an object and a key.
#[tactic(auto, using(crate::proofs::Spaces::spaces))]
fn put_keyed(m: &Middlebox, object: u32, keys: &[Expr], out: &mut Tokens) -> Result<(), NoMemory>
    ensures { OnOk result (out.new
        ≡ out.old ++ spaced (keyed (object_name (tree m.now) object)
        (named_exprs (tree m.now) (expr_trees keys.now)))) }
{
    out.name(object_name(m, object))?;
    out.mark(Mark::LeftBracket)?;
    put_exprs(m, keys, out)?;
    out.mark(Mark::RightBracket)?;
    Ok(())
}

// Adds the names of locals, with a comma before each.
#[tactic(auto, using(crate::proofs::Spaces::spaces, std::proofs::lemmas::Grind::common_steps))]
fn put_names(m: &Middlebox, locals: &[u32], out: &mut Tokens) -> Result<(), NoMemory>
    ensures { OnOk result (out.new
        ≡ out.old ++ spaced (behind_each Mark.Comma
        (map (λ word. name word ∷ []) (map (local_name (tree m.now)) locals.now)))) }
{
    for local in locals {
        out.mark(Mark::Comma)?;
        out.name(local_name(m, *local))?;
    }
    Ok(())
}

// Adds what a statement ends with that reads an object or removes a row of one.
#[tactic(auto, using(crate::proofs::Spaces::spaces))]
fn put_from(m: &Middlebox, object: u32, keys: &[Expr], out: &mut Tokens) -> Result<(), NoMemory>
    ensures { OnOk result (out.new
        ≡ out.old ++ spaced (fixed Mark.Assign
        ∷ (keyed (object_name (tree m.now) object) (named_exprs (tree m.now) (expr_trees keys.now))
        ++ fixed Mark.Semicolon ∷ []))) }
{
    out.mark(Mark::Assign)?;
    put_keyed(m, object, keys, out)?;
    out.mark(Mark::Semicolon)?;
    Ok(())
}

// Adds what a statement ends with that stores a row.
#[tactic(auto, using(crate::proofs::Spaces::spaces))]
fn put_stored(m: &Middlebox, values: &[Expr], out: &mut Tokens) -> Result<(), NoMemory>
    ensures { OnOk result (out.new
        ≡ out.old ++ spaced (fixed Mark.Arrow
        ∷ (exprs_tokens (named_exprs (tree m.now) (expr_trees values.now)) ++ fixed Mark.Semicolon ∷ []))) }
{
    out.mark(Mark::Arrow)?;
    put_exprs(m, values, out)?;
    out.mark(Mark::Semicolon)?;
    Ok(())
}

#[tactic(auto, using(crate::proofs::Spaces::spaces))]
fn put_look(
    m: &Middlebox,
    found: u32,
    into: &[u32],
    object: u32,
    keys: &[Expr],
    out: &mut Tokens,
) -> Result<(), NoMemory>
    ensures { OnOk result (out.new
        ≡ out.old ++ spaced (stmt_tokens
        (look (local_name (tree m.now) found) (map (local_name (tree m.now)) into.now) (object_name (tree m.now) object)
        (named_exprs (tree m.now) (expr_trees keys.now))))) }
{
    out.mark(Mark::Look)?;
    out.name(local_name(m, found))?;
    put_names(m, into, out)?;
    put_from(m, object, keys, out)?;
    Ok(())
}

#[tactic(auto, using(crate::proofs::Spaces::spaces))]
fn put_put(
    m: &Middlebox,
    ok: u32,
    object: u32,
    keys: &[Expr],
    values: &[Expr],
    out: &mut Tokens,
) -> Result<(), NoMemory>
    ensures { OnOk result (out.new
        ≡ out.old ++ spaced (stmt_tokens
        (put (local_name (tree m.now) ok) (object_name (tree m.now) object)
        (named_exprs (tree m.now) (expr_trees keys.now)) (named_exprs (tree m.now) (expr_trees values.now))))) }
{
    out.mark(Mark::Put)?;
    out.name(local_name(m, ok))?;
    out.mark(Mark::Assign)?;
    put_keyed(m, object, keys, out)?;
    put_stored(m, values, out)?;
    Ok(())
}

#[tactic(auto, using(crate::proofs::Spaces::spaces))]
fn put_del(
    m: &Middlebox,
    was: u32,
    object: u32,
    keys: &[Expr],
    out: &mut Tokens,
) -> Result<(), NoMemory>
    ensures { OnOk result (out.new
        ≡ out.old ++ spaced (stmt_tokens
        (del (local_name (tree m.now) was) (object_name (tree m.now) object)
        (named_exprs (tree m.now) (expr_trees keys.now))))) }
{
    out.mark(Mark::Del)?;
    out.name(local_name(m, was))?;
    put_from(m, object, keys, out)?;
    Ok(())
}

#[tactic(auto, using(crate::proofs::Spaces::spaces))]
fn put_drop(out: &mut Tokens) -> Result<(), NoMemory>
    ensures { OnOk result (out.new ≡ out.old ++ spaced (fixed Mark.Drop ∷ fixed Mark.Semicolon ∷ [])) }
{
    out.mark(Mark::Drop)?;
    out.mark(Mark::Semicolon)?;
    Ok(())
}

#[tactic(auto, using(crate::proofs::Spaces::spaces))]
fn put_send(m: &Middlebox, port: &Expr, out: &mut Tokens) -> Result<(), NoMemory>
    ensures { OnOk result (out.new
        ≡ out.old ++ spaced (fixed Mark.Send
        ∷ (expr_tokens (named_expr (tree m.now) (expr_tree port.now)) ++ fixed Mark.Semicolon ∷ []))) }
{
    out.mark(Mark::Send)?;
    put_value(m, port, out)?;
    Ok(())
}

#[cycle(stmt)]
#[tactic(auto, using(crate::proofs::Spaces::spaces))]
fn put_block(m: &Middlebox, body: &[Stmt], out: &mut Tokens) -> Result<(), NoMemory>
    ensures { OnOk result (out.new
        ≡ out.old ++ spaced (in_braces (body_tokens (named_body (tree m.now) (body_tree body.now))))) }
{
    out.mark(Mark::LeftBrace)?;
    put_body(m, body, out)?;
    out.mark(Mark::RightBrace)?;
    Ok(())
}

// Adds the second block of an `if`, where it isn't empty.
#[cycle(stmt)]
#[tactic(auto, using(crate::proofs::Spaces::spaces))]
fn put_else(m: &Middlebox, body: &[Stmt], out: &mut Tokens) -> Result<(), NoMemory>
    ensures { OnOk result (out.new
        ≡ out.old ++ spaced (else_tokens (named_body (tree m.now) (body_tree body.now))
        (body_tokens (named_body (tree m.now) (body_tree body.now))))) }
{
    if body.is_empty() {
        return Ok(());
    }
    out.mark(Mark::Else)?;
    put_block(m, body, out)?;
    Ok(())
}

#[cycle(stmt)]
#[tactic(auto, using(crate::proofs::Spaces::spaces))]
fn put_repeat(
    m: &Middlebox,
    index: u32,
    count: u8,
    body: &[Stmt],
    out: &mut Tokens,
) -> Result<(), NoMemory>
    ensures { OnOk result (out.new
        ≡ out.old ++ spaced (stmt_tokens
        (repeat (local_name (tree m.now) index) count (named_body (tree m.now) (body_tree body.now))))) }
{
    out.mark(Mark::Repeat)?;
    out.name(local_name(m, index))?;
    out.number(u64::from(count))?;
    put_block(m, body, out)?;
    Ok(())
}

#[cycle(stmt)]
#[tactic(auto, using(crate::proofs::Spaces::spaces))]
fn put_stmt(m: &Middlebox, s: &Stmt, out: &mut Tokens) -> Result<(), NoMemory>
    ensures { OnOk result (out.new ≡ out.old ++ spaced (stmt_tokens (named_stmt (tree m.now) (stmt_tree s.now)))) }
{
    match s {
        Stmt::Let { local, value } => put_let(m, *local, value, out),
        Stmt::Assign { local, value } => put_assign(m, *local, value, out),
        Stmt::SetField { field, value } => put_set_field(m, *field, value, out),
        Stmt::Look {
            found,
            into,
            object,
            keys,
        } => put_look(m, *found, into, *object, keys, out),
        Stmt::Put {
            ok,
            object,
            keys,
            values,
        } => put_put(m, *ok, *object, keys, values, out),
        Stmt::Del { was, object, keys } => put_del(m, *was, *object, keys, out),
        Stmt::If { cond, yes, no } => {
            out.mark(Mark::If)?;
            put_expr(m, cond, out)?;
            put_block(m, yes, out)?;
            put_else(m, no, out)?;
            Ok(())
        }
        Stmt::Repeat { index, count, body } => put_repeat(m, *index, *count, body, out),
        Stmt::Send { port } => put_send(m, port, out),
        Stmt::Drop => put_drop(out),
    }
}

/// Adds statements.
#[cycle(stmt)]
#[tactic(auto, using(crate::proofs::Spaces::spaces, std::proofs::lemmas::Grind::common_steps))]
pub(crate) fn put_body(m: &Middlebox, body: &[Stmt], out: &mut Tokens) -> Result<(), NoMemory>
    ensures { OnOk result (out.new ≡ out.old ++ spaced (body_tokens (named_body (tree m.now) (body_tree body.now)))) }
{
    for s in body {
        put_stmt(m, s, out)?;
    }
    Ok(())
}
