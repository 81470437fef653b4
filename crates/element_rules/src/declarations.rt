//! The first declaration that breaks a rule.
ghost use Rattle.std.specs.Prelude.{◌≡◌, ◌||◌, ℕ, List, [], ◌++◌, map, IfOk};
ghost use Rattle.std.specs.List.{list_any, list_all};
ghost use Rattle.element_lang.specs.Rules as rules;
ghost use Rattle.element_lang.specs.Surface.{object_of};
ghost use Rattle.element_lang.specs.Broken as broken;
ghost use Rattle.element_lang.specs.Broken.{lowest_broken, decl_tests, literal_widths, surface_rows, is_too_large_row};
ghost use Rattle.element_grammar.specs.Surface.{surface_decl, surface_object};
ghost use Rattle.element_rules.specs.Seen.{objects_of};

use crate::blocks::lowest;
use crate::names::{name_of, object_named};
use crate::rows::{any_row_too_large, has_bad_row, rows_have_good_widths};
use crate::widths::{fits, is_list_of_numbers, is_width};
use element_grammar::{At, SurfaceDecl};
use element_lang::{Broken, is_size};
use gal_io::NoMemory;
use std::alloc::Global;

fn are_widths(widths: &[u64]) -> bool
    ensures { result ≡ list_all rules.is_width widths.now }
{
    widths.iter().all(|bits| is_width(*bits))
}

// Whether values may have the widths that are written in a declaration, and in its rows.
fn has_good_widths(declaration: &SurfaceDecl) -> bool
    ensures { (text : List ℕ) → let d = surface_decl text declaration.now in
        result ≡ list_all rules.is_width
        ((object_of d).keys ++ ((object_of d).values ++ literal_widths (surface_rows d))) }
{
    match declaration {
        SurfaceDecl::Table {
            keys,
            values,
            rows,
            ..
        } => are_widths(keys) && are_widths(values) && rows_have_good_widths(rows),
        SurfaceDecl::Map { keys, values, .. } => are_widths(keys) && are_widths(values),
        SurfaceDecl::Vector { values, .. } => are_widths(values),
        SurfaceDecl::Int { width, .. } => is_width(*width),
    }
}

// Whether a key or a value has too many numbers, or too many bits.
fn has_long_lists(declaration: &SurfaceDecl) -> bool
    ensures { (text : List ℕ) → result ≡ broken.has_long_lists (surface_decl text declaration.now) }
{
    match declaration {
        SurfaceDecl::Table { keys, values, .. } | SurfaceDecl::Map { keys, values, .. } => {
            !is_list_of_numbers(keys) || !is_list_of_numbers(values)
        }
        SurfaceDecl::Vector { values, .. } => !is_list_of_numbers(values),
        SurfaceDecl::Int { .. } => false,
    }
}

// Whether a number in its rows, or the number that it starts with, needs more bits than it has.
fn has_large_numbers(declaration: &SurfaceDecl) -> bool
    ensures { (text : List ℕ) → let d = surface_decl text declaration.now in
        result ≡ (list_any is_too_large_row (surface_rows d) || broken.starts_too_large d) }
{
    match declaration {
        SurfaceDecl::Table { rows, .. } => any_row_too_large(rows),
        SurfaceDecl::Int { width, start, .. } => !fits(*start, *width),
        SurfaceDecl::Map { .. } | SurfaceDecl::Vector { .. } => false,
    }
}

// Whether a map has room for no rows or for too many, or a vector has none or too many.
fn has_bad_size(declaration: &SurfaceDecl) -> bool
    ensures { (text : List ℕ) → result ≡ broken.has_bad_size (surface_decl text declaration.now) }
{
    match declaration {
        SurfaceDecl::Map { capacity, .. } => !is_size(*capacity),
        SurfaceDecl::Vector { length, .. } => !is_size(*length),
        SurfaceDecl::Table { .. } | SurfaceDecl::Int { .. } => false,
    }
}

// Whether a row has other widths than declared, or the key of an earlier one.
fn has_bad_rows(alloc: Global, declaration: &SurfaceDecl) -> Result<bool, NoMemory>
    ensures { IfOk result (λ bad. (text : List ℕ) → bad ≡ broken.has_bad_row (surface_decl text declaration.now)) }
{
    match declaration {
        SurfaceDecl::Table {
            keys,
            values,
            rows,
            ..
        } => has_bad_row(alloc, keys, values, rows),
        SurfaceDecl::Map { .. } | SurfaceDecl::Vector { .. } | SurfaceDecl::Int { .. } => Ok(false),
    }
}

// The lowest rule that a declaration behind others breaks.
fn broken_decl(
    alloc: Global,
    text: &[u8],
    before: &[At<SurfaceDecl>],
    declaration: &At<SurfaceDecl>,
) -> Result<Option<Broken>, NoMemory>
    ensures { IfOk result (λ found. found ≡ lowest_broken declaration.now.at
        (decl_tests (objects_of text.now before.now) (surface_decl text.now declaration.now.item))) }
{
    let item = &declaration.item;
    let bad_rows = has_bad_rows(alloc, item)?;
    Ok(lowest(
        declaration.at,
        &[
            (1, object_named(text, before, name_of(item)).is_some()),
            (2, !has_good_widths(item)),
            (3, has_long_lists(item)),
            (4, has_large_numbers(item)),
            (5, has_bad_size(item)),
            (6, bad_rows),
        ],
    ))
}

/// The first declaration that breaks a rule.
pub(crate) fn broken_in_declarations(
    alloc: Global,
    text: &[u8],
    source: &[At<SurfaceDecl>],
) -> Result<Option<Broken>, NoMemory>
    ensures { IfOk result (λ found. found ≡ broken.broken_decl [] (map (surface_object text.now) source.now)) }
{
    for (i, next) in source.iter().enumerate() {
        let found = broken_decl(alloc, text, &source[..i], next)?;
        if found.is_some() {
            return Ok(found);
        }
    }
    Ok(None)
}
