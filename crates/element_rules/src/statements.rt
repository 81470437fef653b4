//! Which rules a statement breaks by its own parts.
ghost use Rattle.std.specs.Prelude.{◌≡◌, IfOk, map, not, ◌&&◌, false};
ghost use Rattle.std.specs.Option.{is_none};
ghost use Rattle.element_lang.specs.Rules as rules;
ghost use Rattle.element_lang.specs.Surface as surface;
ghost use Rattle.element_lang.specs.Broken as broken;
ghost use Rattle.element_tokens.specs.Tokens.{span_text};
ghost use Rattle.element_grammar.specs.Surface.{surface_expr, surface_exprs, surface_stmt, surface_body};
ghost use Rattle.element_rules.specs.Seen.{local_of, sight_of};
ghost use Rattle.element_rules.specs.Tested.{list_faults};
ghost use Rattle.element_rules.specs.Faulty.{stmt_faults, only_exprs, sight_behind, alone};

use crate::ends::ends_always;
use crate::expressions::{Faults, Tested, TestedList, expression, expressions};
use crate::names::{Sight, declare, declare_all, is_free, object_named, width_named};
use crate::objects::{declare_values, is_map, is_table, keys_fit, value_count, values_fit};
use element_grammar::{At, SurfaceDecl, SurfaceExpr, SurfaceStmt};
use element_tokens::Span;
use gal_io::NoMemory;
use packet_fields::{Field, width, writable};
use std::alloc::Global;

// The bits of a port.
const PORT_BITS: u64 = 8;

// The most turns of a repeat.
const MAX_TURNS: u64 = 64;

/// What is wrong in a statement, apart from the statements inside it.
#[derive(Clone, Copy)]
pub(crate) struct StmtFaults {
    /// What is wrong in its expressions.
    pub exprs: Faults,
    /// A local that it declares has the name of an object, of a local in scope, or of another that it declares.
    pub taken: bool,
    /// A name that it uses is that of no local in scope or of no object.
    pub unknown: bool,
    /// An expression has another width than is wanted there.
    pub misfit: bool,
    /// A field is set that can't be written.
    pub fixed_field: bool,
    /// Keys, values or locals don't fit the object in count or width.
    pub object_misfit: bool,
    /// A row is put to a table, or deleted from anything but a map.
    pub fixed_object: bool,
    /// A repeat runs not at all or too often, or stands within a repeat.
    pub bad_repeat: bool,
    /// A repeat has statements behind which a run never goes on.
    pub repeats_an_end: bool,
}

impl StmtFaults {
    /// Nothing is wrong but in its expressions.
    fn only(exprs: Faults) -> StmtFaults
        ensures { result ≡ only_exprs exprs }
    {
        StmtFaults {
            exprs,
            taken: false,
            unknown: false,
            misfit: false,
            fixed_field: false,
            object_misfit: false,
            fixed_object: false,
            bad_repeat: false,
            repeats_an_end: false,
        }
    }
}

// The expression of a statement that has one alone.
fn only_expression(
    alloc: Global,
    text: &[u8],
    sight: &Sight,
    source: &SurfaceExpr,
) -> Result<Tested, NoMemory>
    ensures width { IfOk result (λ made. made.width
        ≡ broken.width_in (map local_of sight.now.locals.entries) (surface_expr text.now source.now)) }
    ensures faults { IfOk result (λ made. made.faults
        ≡ list_faults (map local_of sight.now.locals.entries) (alone (surface_expr text.now source.now))) }
{
    let made = expression(alloc, text, &sight.locals, source)?;
    Ok(made)
}

// Declares a local with a value.
fn let_local(
    alloc: Global,
    text: &[u8],
    objects: &[At<SurfaceDecl>],
    sight: &mut Sight,
    local: Span,
    value: &SurfaceExpr,
) -> Result<StmtFaults, NoMemory>
    ensures faults { IfOk result (λ faults. faults ≡ stmt_faults (sight_of text.now objects.now sight.old)
        (surface.let_local (span_text text.now local) (surface_expr text.now value.now))) }
    ensures sight { IfOk result
        (λ faults. faults.taken ≡ false
        → sight_of text.now objects.now sight.new ≡ sight_behind (sight_of text.now objects.now sight.old)
        (surface.let_local (span_text text.now local) (surface_expr text.now value.now))) }
{
    let value = only_expression(alloc, text, sight, value)?;
    let free = declare(alloc, text, objects, &mut sight.locals, local, value.width)?;
    Ok(StmtFaults {
        taken: !free,
        ..StmtFaults::only(value.faults)
    })
}

// Gives a local another value.
fn assign(
    alloc: Global,
    text: &[u8],
    objects: &[At<SurfaceDecl>],
    sight: &Sight,
    local: Span,
    value: &SurfaceExpr,
) -> Result<StmtFaults, NoMemory>
    ensures { IfOk result (λ faults. faults ≡ stmt_faults (sight_of text.now objects.now sight.now)
        (surface.assign (span_text text.now local) (surface_expr text.now value.now))) }
{
    let value = only_expression(alloc, text, sight, value)?;
    let width = width_named(text, &sight.locals, local);
    Ok(StmtFaults {
        unknown: width.is_none(),
        misfit: width.unwrap_or(0) != value.width,
        ..StmtFaults::only(value.faults)
    })
}

// Gives a field another value.
fn set_field(
    alloc: Global,
    text: &[u8],
    objects: &[At<SurfaceDecl>],
    sight: &Sight,
    field: Field,
    value: &SurfaceExpr,
) -> Result<StmtFaults, NoMemory>
    ensures { IfOk result (λ faults. faults ≡ stmt_faults (sight_of text.now objects.now sight.now)
        (surface.set_field field (surface_expr text.now value.now))) }
{
    let value = only_expression(alloc, text, sight, value)?;
    Ok(StmtFaults {
        misfit: u64::from(width(field).bits()) != value.width,
        fixed_field: !writable(field),
        ..StmtFaults::only(value.faults)
    })
}

// Chooses between two blocks.
fn choose(
    alloc: Global,
    text: &[u8],
    objects: &[At<SurfaceDecl>],
    sight: &Sight,
    cond: &SurfaceExpr,
    yes: &[At<SurfaceStmt>],
    no: &[At<SurfaceStmt>],
) -> Result<StmtFaults, NoMemory>
    ensures { IfOk result (λ faults. faults ≡ stmt_faults (sight_of text.now objects.now sight.now)
        (surface.choose (surface_expr text.now cond.now) (surface_body text.now yes.now)
        (surface_body text.now no.now))) }
{
    let cond = only_expression(alloc, text, sight, cond)?;
    Ok(StmtFaults {
        misfit: cond.width != 1,
        ..StmtFaults::only(cond.faults)
    })
}

// Sends the packet by a port.
fn send(
    alloc: Global,
    text: &[u8],
    objects: &[At<SurfaceDecl>],
    sight: &Sight,
    port: &SurfaceExpr,
) -> Result<StmtFaults, NoMemory>
    ensures { IfOk result (λ faults. faults ≡ stmt_faults (sight_of text.now objects.now sight.now)
        (surface.send (surface_expr text.now port.now))) }
{
    let port = only_expression(alloc, text, sight, port)?;
    Ok(StmtFaults {
        misfit: port.width != PORT_BITS,
        ..StmtFaults::only(port.faults)
    })
}

// The expressions of a key or a value.
fn own_expressions(
    alloc: Global,
    text: &[u8],
    sight: &Sight,
    source: &[SurfaceExpr],
) -> Result<TestedList, NoMemory>
    ensures widths { IfOk result (λ made. made.widths.items
        ≡ broken.widths_in (map local_of sight.now.locals.entries) (surface_exprs text.now source.now)) }
    ensures faults { IfOk result (λ made. made.faults
        ≡ list_faults (map local_of sight.now.locals.entries) (surface_exprs text.now source.now)) }
{
    let made = expressions(alloc, text, &sight.locals, source)?;
    Ok(made)
}

// The widths of a key and of a value, and what is wrong in either.
#[derive(Drop)]
struct TestedRow {
    keys: Vec<u64>,
    values: Vec<u64>,
    faults: Faults,
}

// The expressions of a row.
fn own_row(
    alloc: Global,
    text: &[u8],
    sight: &Sight,
    keys: &[SurfaceExpr],
    values: &[SurfaceExpr],
) -> Result<TestedRow, NoMemory>
    ensures keys { IfOk result (λ made. made.keys.items
        ≡ broken.widths_in (map local_of sight.now.locals.entries) (surface_exprs text.now keys.now)) }
    ensures values { IfOk result (λ made. made.values.items
        ≡ broken.widths_in (map local_of sight.now.locals.entries) (surface_exprs text.now values.now)) }
    ensures faults { IfOk result (λ made. made.faults
        ≡ list_faults (map local_of sight.now.locals.entries)
        (broken.appended (surface_exprs text.now keys.now) (surface_exprs text.now values.now))) }
{
    let keys = own_expressions(alloc, text, sight, keys)?;
    let values = own_expressions(alloc, text, sight, values)?;
    Ok(TestedRow {
        keys: keys.widths,
        values: values.widths,
        faults: keys.faults.and(values.faults),
    })
}

// Looks a key up.
fn look(
    alloc: Global,
    text: &[u8],
    objects: &[At<SurfaceDecl>],
    sight: &mut Sight,
    found: Span,
    into: &[Span],
    object: Span,
    keys: &[SurfaceExpr],
) -> Result<StmtFaults, NoMemory>
    ensures faults { IfOk result (λ faults. faults ≡ stmt_faults (sight_of text.now objects.now sight.old)
        (surface.look (span_text text.now found) (map (span_text text.now) into.now) (span_text text.now object)
        (surface_exprs text.now keys.now))) }
    ensures sight { IfOk result
        (λ faults. faults.taken ≡ false
        → sight_of text.now objects.now sight.new ≡ sight_behind (sight_of text.now objects.now sight.old)
        (surface.look (span_text text.now found) (map (span_text text.now) into.now) (span_text text.now object)
        (surface_exprs text.now keys.now))) }
{
    let keys = own_expressions(alloc, text, sight, keys)?;
    let Some(object) = object_named(text, objects, object) else {
        let free = declare(alloc, text, objects, &mut sight.locals, found, 1)?
            && declare_all(alloc, text, objects, &mut sight.locals, into, &[])?;
        return Ok(StmtFaults {
            taken: !free,
            unknown: true,
            object_misfit: true,
            ..StmtFaults::only(keys.faults)
        });
    };
    let free = declare(alloc, text, objects, &mut sight.locals, found, 1)?
        && declare_values(alloc, text, objects, &mut sight.locals, into, object)?;
    Ok(StmtFaults {
        taken: !free,
        object_misfit: !keys_fit(object, &keys.widths) || into.len() != value_count(object),
        ..StmtFaults::only(keys.faults)
    })
}

// Stores a row.
fn put(
    alloc: Global,
    text: &[u8],
    objects: &[At<SurfaceDecl>],
    sight: &mut Sight,
    ok: Span,
    object: Span,
    keys: &[SurfaceExpr],
    values: &[SurfaceExpr],
) -> Result<StmtFaults, NoMemory>
    ensures faults { IfOk result (λ faults. faults ≡ stmt_faults (sight_of text.now objects.now sight.old)
        (surface.put (span_text text.now ok) (span_text text.now object) (surface_exprs text.now keys.now)
        (surface_exprs text.now values.now))) }
    ensures sight { IfOk result
        (λ faults. faults.taken ≡ false
        → sight_of text.now objects.now sight.new ≡ sight_behind (sight_of text.now objects.now sight.old)
        (surface.put (span_text text.now ok) (span_text text.now object) (surface_exprs text.now keys.now)
        (surface_exprs text.now values.now))) }
{
    let row = own_row(alloc, text, sight, keys, values)?;
    let free = declare(alloc, text, objects, &mut sight.locals, ok, 1)?;
    let own = StmtFaults {
        taken: !free,
        ..StmtFaults::only(row.faults)
    };
    let Some(object) = object_named(text, objects, object) else {
        return Ok(StmtFaults {
            unknown: true,
            object_misfit: true,
            fixed_object: true,
            ..own
        });
    };
    Ok(StmtFaults {
        object_misfit: !keys_fit(object, &row.keys) || !values_fit(object, &row.values),
        fixed_object: is_table(object),
        ..own
    })
}

// Removes a row.
fn del(
    alloc: Global,
    text: &[u8],
    objects: &[At<SurfaceDecl>],
    sight: &mut Sight,
    was: Span,
    object: Span,
    keys: &[SurfaceExpr],
) -> Result<StmtFaults, NoMemory>
    ensures faults { IfOk result (λ faults. faults ≡ stmt_faults (sight_of text.now objects.now sight.old)
        (surface.del (span_text text.now was) (span_text text.now object) (surface_exprs text.now keys.now))) }
    ensures sight { IfOk result
        (λ faults. faults.taken ≡ false
        → sight_of text.now objects.now sight.new ≡ sight_behind (sight_of text.now objects.now sight.old)
        (surface.del (span_text text.now was) (span_text text.now object) (surface_exprs text.now keys.now))) }
{
    let keys = own_expressions(alloc, text, sight, keys)?;
    let free = declare(alloc, text, objects, &mut sight.locals, was, 1)?;
    let own = StmtFaults {
        taken: !free,
        ..StmtFaults::only(keys.faults)
    };
    let Some(object) = object_named(text, objects, object) else {
        return Ok(StmtFaults {
            unknown: true,
            object_misfit: true,
            fixed_object: true,
            ..own
        });
    };
    Ok(StmtFaults {
        object_misfit: !keys_fit(object, &keys.widths),
        fixed_object: !is_map(object),
        ..own
    })
}

// Whether statements may be repeated so many times.
fn is_count(count: u64) -> bool
    ensures { result ≡ rules.is_count count }
{
    1 <= count && count <= MAX_TURNS
}

// Repeats statements. The local that counts the turns is in scope in them alone.
fn repeat(
    text: &[u8],
    objects: &[At<SurfaceDecl>],
    sight: &Sight,
    index: Span,
    count: u64,
    body: &[At<SurfaceStmt>],
) -> StmtFaults
    ensures { result ≡ stmt_faults (sight_of text.now objects.now sight.now)
        (surface.repeat (span_text text.now index) count (surface_body text.now body.now)) }
{
    StmtFaults {
        taken: !is_free(text, objects, &sight.locals, index),
        bad_repeat: !is_count(count) || sight.repeated,
        repeats_an_end: ends_always(body),
        ..StmtFaults::only(Faults::none())
    }
}

/// What is wrong in a statement. The locals that it declares come into scope where their names are free, but for the
/// one that counts the turns of a repeat.
pub(crate) fn statement(
    alloc: Global,
    text: &[u8],
    objects: &[At<SurfaceDecl>],
    sight: &mut Sight,
    source: &SurfaceStmt,
) -> Result<StmtFaults, NoMemory>
    ensures faults { IfOk result (λ faults. faults
        ≡ stmt_faults (sight_of text.now objects.now sight.old) (surface_stmt text.now source.now)) }
    ensures sight { IfOk result (λ faults. faults.taken ≡ false → sight_of text.now objects.now sight.new
        ≡ sight_behind (sight_of text.now objects.now sight.old) (surface_stmt text.now source.now)) }
{
    match source {
        SurfaceStmt::Let { local, value } => let_local(alloc, text, objects, sight, *local, value),
        SurfaceStmt::Assign { local, value } => assign(alloc, text, objects, sight, *local, value),
        SurfaceStmt::SetField { field, value } => {
            set_field(alloc, text, objects, sight, *field, value)
        }
        SurfaceStmt::Look {
            found,
            into,
            object,
            keys,
        } => look(alloc, text, objects, sight, *found, into, *object, keys),
        SurfaceStmt::Put {
            ok,
            object,
            keys,
            values,
        } => put(alloc, text, objects, sight, *ok, *object, keys, values),
        SurfaceStmt::Del { was, object, keys } => {
            del(alloc, text, objects, sight, *was, *object, keys)
        }
        SurfaceStmt::If { cond, yes, no } => choose(alloc, text, objects, sight, cond, yes, no),
        SurfaceStmt::Repeat { index, count, body } => {
            Ok(repeat(text, objects, sight, *index, *count, body))
        }
        SurfaceStmt::Send { port } => send(alloc, text, objects, sight, port),
        SurfaceStmt::Drop => Ok(StmtFaults::only(Faults::none())),
    }
}
