//! From a source's tree to a middlebox: names become numbers.
ghost use Rattle.std.specs.Prelude.{◌≡◌, ◌≤◌, IsTrue, IfOk, IsSome, map, length, true, Some};
ghost use Rattle.element_lang.specs.Tree.{Tree};
ghost use Rattle.element_lang.specs.Tree as trees;
ghost use Rattle.element_lang.specs.Rules.{is_count, is_good};
ghost use Rattle.element_lang.specs.Surface.{named, unplaced};
ghost use Rattle.element_lang.specs.Surface as surface;
ghost use Rattle.element_lang.specs.View.{expr_tree, stmt_tree, body_tree, tree};
ghost use Rattle.element_lang.specs.Accepted.{HasNames};
ghost use Rattle.element_tokens.specs.Tokens.{span_text};
ghost use Rattle.element_grammar.specs.Surface.{surface_expr, surface_exprs, surface_stmt, surface_body, surface_tree};
ghost use Rattle.element_text.specs.Names.{HasSurfaceNames};
ghost use Rattle.element_text.specs.Reads.{IsUnbroken};
ghost use Rattle.element_text.specs.Resolve.{all_declared, numbers_from, made_condition, made_stmt, made_body};
ghost use Rattle.element_text.specs.Resolve.{with_locals};
ghost use Rattle.element_text.specs.Scopes.{env_of};
ghost use Rattle.element_text.specs.Statements.{some_stmt, some_body};

use crate::expressions::{expression, expressions, width_of};
use crate::objects::objects;
use crate::scope::{Scope, declaration, local_named, object_named};
use element_grammar::{At, SurfaceExpr, SurfaceStmt, SurfaceTree};
use element_lang::{Body, Expr, Locals, Middlebox, Stmt};
use element_tokens::Span;
use gal_io::NoMemory;
use indexmap::IndexMap;
use packet_fields::Field;
use std::alloc::Global;

// Gives a field another value.
fn set_field(
    alloc: Global,
    text: &[u8],
    scope: &Scope,
    field: Field,
    value: &SurfaceExpr,
) -> Result<Stmt, NoMemory>
    requires { IsSome (made_stmt (env_of scope.now) (surface.set_field field (surface_expr text.now value.now))) }
    ensures { IfOk result (λ made.
        made_stmt (env_of scope.now) (surface.set_field field (surface_expr text.now value.now))
        ≡ some_stmt made scope.now) }
{
    let value = expression(alloc, text, &scope.known, value)?;
    Ok(Stmt::SetField {
        field,
        value: value.expr,
    })
}

// Declares a local with a value.
fn let_local(
    alloc: Global,
    text: &[u8],
    scope: &mut Scope,
    local: Span,
    value: &SurfaceExpr,
) -> Result<Stmt, NoMemory>
    requires { IsSome (made_stmt (env_of scope.old)
        (surface.let_local (span_text text.now local) (surface_expr text.now value.now))) }
    ensures { IfOk result (λ made.
        made_stmt (env_of scope.old) (surface.let_local (span_text text.now local) (surface_expr text.now value.now))
        ≡ some_stmt made scope.new) }
{
    let value = expression(alloc, text, &scope.known, value)?;
    let local = scope.declare(alloc, text, local, value.width)?;
    Ok(Stmt::Let {
        local,
        value: value.expr,
    })
}

// Gives a local another value.
fn assign(
    alloc: Global,
    text: &[u8],
    scope: &Scope,
    local: Span,
    value: &SurfaceExpr,
) -> Result<Stmt, NoMemory>
    requires { IsSome (made_stmt (env_of scope.now)
        (surface.assign (span_text text.now local) (surface_expr text.now value.now))) }
    ensures { IfOk result (λ made.
        made_stmt (env_of scope.now) (surface.assign (span_text text.now local) (surface_expr text.now value.now))
        ≡ some_stmt made scope.now) }
{
    let value = expression(alloc, text, &scope.known, value)?;
    let local = local_named(text, &scope.known, local);
    Ok(Stmt::Assign {
        local: local.number,
        value: value.expr,
    })
}

// Sends the packet by a port.
fn send(alloc: Global, text: &[u8], scope: &Scope, port: &SurfaceExpr) -> Result<Stmt, NoMemory>
    requires { IsSome (made_stmt (env_of scope.now) (surface.send (surface_expr text.now port.now))) }
    ensures { IfOk result (λ made.
        made_stmt (env_of scope.now) (surface.send (surface_expr text.now port.now)) ≡ some_stmt made scope.now) }
{
    let port = expression(alloc, text, &scope.known, port)?;
    Ok(Stmt::Send { port: port.expr })
}

// Declares a local for each name, with the width at its place.
fn declare_all(
    alloc: Global,
    text: &[u8],
    scope: &mut Scope,
    names: &[Span],
    widths: &[u64],
) -> Result<Vec<u32>, NoMemory>
    requires { IsSome (all_declared (env_of scope.old) (map (span_text text.now) names.now) widths.now) }
    ensures declared { IfOk result (λ _.
        all_declared (env_of scope.old) (map (span_text text.now) names.now) widths.now ≡ Some (env_of scope.new)) }
    ensures numbers { IfOk result (λ numbers.
        numbers.items ≡ numbers_from (length scope.old.locals) (map (span_text text.now) names.now)) }
{
    let mut numbers = Vec::new(alloc);
    for (i, name) in names.iter().enumerate() {
        let number = scope.declare(alloc, text, *name, width_of(widths[i]))?;
        numbers.push(number)?;
    }
    Ok(numbers)
}

// Looks a key up.
fn look(
    alloc: Global,
    text: &[u8],
    scope: &mut Scope,
    found: Span,
    into: &[Span],
    object: Span,
    keys: &[SurfaceExpr],
) -> Result<Stmt, NoMemory>
    requires { IsSome (made_stmt (env_of scope.old) (surface.look (span_text text.now found)
        (map (span_text text.now) into.now) (span_text text.now object) (surface_exprs text.now keys.now))) }
    ensures { IfOk result (λ made.
        made_stmt (env_of scope.old) (surface.look (span_text text.now found)
        (map (span_text text.now) into.now) (span_text text.now object) (surface_exprs text.now keys.now))
        ≡ some_stmt made scope.new) }
{
    let object = object_named(text, scope.objects.as_slice(), object)?;
    let keys = expressions(alloc, text, &scope.known, keys)?;
    let values = declaration(scope.objects.as_slice(), object).values;
    let found = scope.declare(alloc, text, found, width_of(1))?;
    let into = declare_all(alloc, text, scope, into, values.as_slice())?;
    Ok(Stmt::Look {
        found,
        into,
        object,
        keys: keys.exprs,
    })
}

// Stores a row.
fn put(
    alloc: Global,
    text: &[u8],
    scope: &mut Scope,
    ok: Span,
    object: Span,
    keys: &[SurfaceExpr],
    values: &[SurfaceExpr],
) -> Result<Stmt, NoMemory>
    requires { IsSome (made_stmt (env_of scope.old) (surface.put (span_text text.now ok) (span_text text.now object)
        (surface_exprs text.now keys.now) (surface_exprs text.now values.now))) }
    ensures { IfOk result (λ made.
        made_stmt (env_of scope.old) (surface.put (span_text text.now ok) (span_text text.now object)
        (surface_exprs text.now keys.now) (surface_exprs text.now values.now))
        ≡ some_stmt made scope.new) }
{
    let object = object_named(text, scope.objects.as_slice(), object)?;
    let keys = expressions(alloc, text, &scope.known, keys)?;
    let values = expressions(alloc, text, &scope.known, values)?;
    let ok = scope.declare(alloc, text, ok, width_of(1))?;
    Ok(Stmt::Put {
        ok,
        object,
        keys: keys.exprs,
        values: values.exprs,
    })
}

// Removes a row.
fn del(
    alloc: Global,
    text: &[u8],
    scope: &mut Scope,
    was: Span,
    object: Span,
    keys: &[SurfaceExpr],
) -> Result<Stmt, NoMemory>
    requires { IsSome (made_stmt (env_of scope.old) (surface.del (span_text text.now was) (span_text text.now object)
        (surface_exprs text.now keys.now))) }
    ensures { IfOk result (λ made.
        made_stmt (env_of scope.old) (surface.del (span_text text.now was) (span_text text.now object)
        (surface_exprs text.now keys.now))
        ≡ some_stmt made scope.new) }
{
    let object = object_named(text, scope.objects.as_slice(), object)?;
    let keys = expressions(alloc, text, &scope.known, keys)?;
    let was = scope.declare(alloc, text, was, width_of(1))?;
    Ok(Stmt::Del {
        was,
        object,
        keys: keys.exprs,
    })
}

// A condition.
fn condition(
    alloc: Global,
    text: &[u8],
    scope: &Scope,
    source: &SurfaceExpr,
) -> Result<Expr, NoMemory>
    requires { IsSome (made_condition (env_of scope.now) (surface_expr text.now source.now)) }
    ensures { IfOk result (λ made.
        made_condition (env_of scope.now) (surface_expr text.now source.now) ≡ Some (expr_tree made)) }
{
    let source = expression(alloc, text, &scope.known, source)?;
    Ok(source.expr)
}

// A choice between two bodies.
fn choice(cond: Expr, yes: Body, no: Body) -> Stmt
    ensures { stmt_tree result ≡ trees.choose (expr_tree cond) (body_tree yes.items) (body_tree no.items) }
{
    Stmt::If { cond, yes, no }
}

// A body that is done several times.
fn repeated(index: u32, count: u64, body: Body) -> Stmt
    requires { is_count count ≡ true }
    ensures { stmt_tree result ≡ trees.repeat index count (body_tree body.items) }
{
    Stmt::Repeat {
        index,
        count: count as u8,
        body,
    }
}

// A statement.
#[cycle(statement)]
fn statement(
    alloc: Global,
    text: &[u8],
    scope: &mut Scope,
    source: &SurfaceStmt,
) -> Result<Stmt, NoMemory>
    requires { IsSome (made_stmt (env_of scope.old) (surface_stmt text.now source.now)) }
    ensures { IfOk result (λ made.
        made_stmt (env_of scope.old) (surface_stmt text.now source.now) ≡ some_stmt made scope.new) }
{
    match source {
        SurfaceStmt::Let { local, value } => let_local(alloc, text, scope, *local, value),
        SurfaceStmt::Assign { local, value } => assign(alloc, text, scope, *local, value),
        SurfaceStmt::SetField { field, value } => set_field(alloc, text, scope, *field, value),
        SurfaceStmt::Look {
            found,
            into,
            object,
            keys,
        } => look(alloc, text, scope, *found, into, *object, keys),
        SurfaceStmt::Put {
            ok,
            object,
            keys,
            values,
        } => put(alloc, text, scope, *ok, *object, keys, values),
        SurfaceStmt::Del { was, object, keys } => del(alloc, text, scope, *was, *object, keys),
        SurfaceStmt::If { cond, yes, no } => {
            let cond = condition(alloc, text, scope, cond)?;
            let yes = block(alloc, text, scope, yes)?;
            let no = block(alloc, text, scope, no)?;
            Ok(choice(cond, yes, no))
        }
        SurfaceStmt::Repeat { index, count, body } => {
            repeat(alloc, text, scope, *index, *count, body)
        }
        SurfaceStmt::Send { port } => send(alloc, text, scope, port),
        SurfaceStmt::Drop => Ok(Stmt::Drop),
    }
}

// A body that is done several times, with a local that counts them.
#[cycle(statement)]
fn repeat(
    alloc: Global,
    text: &[u8],
    scope: &mut Scope,
    index: Span,
    count: u64,
    source: &[At<SurfaceStmt>],
) -> Result<Stmt, NoMemory>
    requires { IsSome (made_stmt (env_of scope.old)
        (surface.repeat (span_text text.now index) count (surface_body text.now source.now))) }
    ensures { IfOk result (λ made.
        made_stmt (env_of scope.old)
        (surface.repeat (span_text text.now index) count (surface_body text.now source.now))
        ≡ some_stmt made scope.new) }
{
    let before = scope.known.len();
    let index = scope.declare(alloc, text, index, width_of(32))?;
    let body = block(alloc, text, scope, source)?;
    scope.known.truncate(before);
    Ok(repeated(index, count, body))
}

// Statements. The locals that they declare go out of scope.
#[cycle(statement)]
fn block(
    alloc: Global,
    text: &[u8],
    scope: &mut Scope,
    source: &[At<SurfaceStmt>],
) -> Result<Body, NoMemory>
    requires { IsSome (made_body (env_of scope.old) (surface_body text.now source.now)) }
    ensures body { IfOk result (λ made.
        made_body (env_of scope.old) (surface_body text.now source.now) ≡ some_body made.items scope.new) }
    ensures env { IfOk result (λ _.
        env_of scope.new ≡ with_locals (env_of scope.old) scope.new.locals) }
{
    let outer = scope.known.len();
    let mut body = Vec::new(alloc);
    for next in source {
        let made = statement(alloc, text, scope, &next.item)?;
        body.push(made)?;
    }
    scope.known.truncate(outer);
    Ok(body)
}

/// The middlebox of a surface tree that breaks no rule.
pub(crate) fn resolve(
    alloc: Global,
    text: &[u8],
    source: &SurfaceTree,
) -> Result<Middlebox, NoMemory>
    requires { IsUnbroken (surface_tree text.now source.now) }
    ensures named { IfOk result (λ made. unplaced (surface_tree text.now source.now) ≡ named (tree made)) }
    ensures good { IfOk result (λ made. IsTrue (is_good (tree made))) }
    ensures names { IfOk result (λ made.
        HasSurfaceNames (surface_tree text.now source.now) → HasNames (tree made)) }
    ensures only { IfOk result (λ made. (m : Tree)
        → unplaced (surface_tree text.now source.now) ≡ named m → IsTrue (is_good m) → m ≡ tree made) }
{
    let mut scope = Scope {
        objects: objects(alloc, text, &source.objects)?,
        locals: Locals::new(alloc),
        known: IndexMap::new(alloc),
    };
    let body = block(alloc, text, &mut scope, &source.body)?;
    Ok(Middlebox {
        objects: scope.objects,
        locals: scope.locals,
        body,
    })
}
