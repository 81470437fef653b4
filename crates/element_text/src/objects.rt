//! The declared objects.
ghost use Rattle.std.specs.Prelude.{◌≡◌, ◌≤◌, IfOk, map, length, true, []};
ghost use Rattle.std.specs.List.{list_all};
ghost use Rattle.element_lang.specs.Surface.{table_decl, map_decl, vector_decl, int_decl, object_of, value_row};
ghost use Rattle.element_grammar.specs.Surface.{surface_decl, surface_object, surface_literal, surface_row};
ghost use Rattle.element_text.specs.Resolve.{is_good_decl, decls_of, are_written};

use crate::scope::number_of;
use element_grammar::{At, Literal, SurfaceDecl, SurfaceRow};
use element_rules::word_at;
use gal_bits::{Values, Widths};
use gal_io::{Bytes, NoMemory};
use state_store::{Kind, ObjectDecl, Objects, Row, Rows};
use std::alloc::Global;

// A list of at most eight widths as a value of its own.
fn widths_of(source: &[u64]) -> Widths
    requires { length source.now ≤ 8 }
    ensures { result ≡ source.now }
{
    let mut widths = Widths::new();
    for bits in source {
        widths.push(*bits);
    }
    widths
}

// The numbers of a key or a value of a table's row.
fn numbers_of(literals: &[Literal]) -> Values
    requires { length literals.now ≤ 8 }
    ensures { result ≡ map (λ l. l.value) (map surface_literal literals.now) }
{
    let mut numbers = Values::new();
    for literal in literals {
        numbers.push(literal.value);
    }
    numbers
}

// The rows of a table, whose keys and values have these widths.
fn rows_of(
    alloc: Global,
    source: &[SurfaceRow],
    keys: &[u64],
    values: &[u64],
) -> Result<Rows, NoMemory>
    requires keys { length keys.now ≤ 8 }
    requires values { length values.now ≤ 8 }
    requires written { are_written keys.now values.now (map surface_row source.now) ≡ true }
    ensures { IfOk result (λ rows. rows ≡ map value_row (map surface_row source.now)) }
{
    let mut rows = Rows::new(alloc);
    for next in source {
        rows.push(Row {
            keys: numbers_of(&next.keys),
            values: numbers_of(&next.values),
        })?;
    }
    Ok(rows)
}

// A declaration of a kind, with no start and no rows.
fn declaration_of(
    alloc: Global,
    name: &[u8],
    kind: Kind,
    keys: Widths,
    values: Widths,
    size: u32,
) -> Result<ObjectDecl, NoMemory>
    ensures { IfOk result (λ made. made
        ≡ record { name = name.now; kind = kind; keys = keys; values = values; size = size; start = 0; rows = [] }) }
{
    Ok(ObjectDecl {
        name: Bytes::from_slice(alloc, name)?,
        kind,
        keys,
        values,
        size,
        start: 0,
        rows: Rows::new(alloc),
    })
}

// A table.
fn table(
    alloc: Global,
    name: &[u8],
    keys: &[u64],
    values: &[u64],
    rows: &[SurfaceRow],
) -> Result<ObjectDecl, NoMemory>
    requires { is_good_decl (table_decl name.now keys.now values.now (map surface_row rows.now)) ≡ true }
    ensures { IfOk result (λ made. made
        ≡ object_of (table_decl name.now keys.now values.now (map surface_row rows.now))) }
{
    let rows = rows_of(alloc, rows, keys, values)?;
    let size = number_of(rows.len())?;
    let mut made = declaration_of(
        alloc,
        name,
        Kind::Table,
        widths_of(keys),
        widths_of(values),
        size,
    )?;
    made.rows = rows;
    Ok(made)
}

// A map.
fn map(
    alloc: Global,
    name: &[u8],
    keys: &[u64],
    values: &[u64],
    capacity: u64,
) -> Result<ObjectDecl, NoMemory>
    requires { is_good_decl (map_decl name.now keys.now values.now capacity) ≡ true }
    ensures { IfOk result (λ made. made ≡ object_of (map_decl name.now keys.now values.now capacity)) }
{
    declaration_of(
        alloc,
        name,
        Kind::Map,
        widths_of(keys),
        widths_of(values),
        capacity as u32,
    )
}

// A vector. Its keys are indices of 32 bits.
fn vector(alloc: Global, name: &[u8], length: u64, values: &[u64]) -> Result<ObjectDecl, NoMemory>
    requires { is_good_decl (vector_decl name.now length values.now) ≡ true }
    ensures { IfOk result (λ made. made ≡ object_of (vector_decl name.now length values.now)) }
{
    declaration_of(
        alloc,
        name,
        Kind::Vector,
        widths_of(&[32]),
        widths_of(values),
        length as u32,
    )
}

// An integer. It has one value, and no key.
fn int(alloc: Global, name: &[u8], bits: u64, start: u64) -> Result<ObjectDecl, NoMemory>
    ensures { IfOk result (λ made. made ≡ object_of (int_decl name.now bits start)) }
{
    let mut made = declaration_of(alloc, name, Kind::Int, Widths::new(), widths_of(&[bits]), 1)?;
    made.start = start;
    Ok(made)
}

// The declaration of an object.
fn object(alloc: Global, text: &[u8], source: &SurfaceDecl) -> Result<ObjectDecl, NoMemory>
    requires { is_good_decl (surface_decl text.now source.now) ≡ true }
    ensures { IfOk result (λ made. made ≡ object_of (surface_decl text.now source.now)) }
{
    match source {
        SurfaceDecl::Table {
            name,
            keys,
            values,
            rows,
        } => table(alloc, word_at(text, *name), keys, values, rows),
        SurfaceDecl::Map {
            name,
            keys,
            values,
            capacity,
        } => map(alloc, word_at(text, *name), keys, values, *capacity),
        SurfaceDecl::Vector {
            name,
            length,
            values,
        } => vector(alloc, word_at(text, *name), *length, values),
        SurfaceDecl::Int { name, width, start } => {
            int(alloc, word_at(text, *name), *width, *start)
        }
    }
}

/// The declared objects.
pub(crate) fn objects(
    alloc: Global,
    text: &[u8],
    source: &[At<SurfaceDecl>],
) -> Result<Objects, NoMemory>
    requires { list_all is_good_decl (decls_of (map (surface_object text.now) source.now)) ≡ true }
    ensures { IfOk result (λ made. made ≡ map object_of (decls_of (map (surface_object text.now) source.now))) }
{
    let mut objects = Objects::new(alloc);
    for next in source {
        objects.push(object(alloc, text, &next.item)?)?;
    }
    Ok(objects)
}
