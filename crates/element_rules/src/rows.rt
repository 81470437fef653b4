//! The rows of a table.
ghost use Rattle.std.specs.Prelude.{◌≡◌, ◌&&◌, [], map, IfOk};
ghost use Rattle.std.specs.List.{list_any, list_all};
ghost use Rattle.element_lang.specs.Rules as rules;
ghost use Rattle.element_lang.specs.Rules.{same_widths};
ghost use Rattle.element_lang.specs.Surface as surface;
ghost use Rattle.element_lang.specs.Broken as broken;
ghost use Rattle.element_lang.specs.Broken.{literal_widths, is_too_large_literal, is_too_large_row};
ghost use Rattle.element_grammar.specs.Surface.{surface_literal, surface_row};

use crate::widths::{fits, is_width};
use element_grammar::{Literal, SurfaceRow};
use gal_io::NoMemory;
use std::alloc::Global;
use std::collections::BTreeSet;

// Whether a number needs more bits than are written behind it.
fn is_too_large(literal: &Literal) -> bool
    ensures { result ≡ is_too_large_literal (surface_literal literal.now) }
{
    !fits(literal.value, literal.width)
}

// Whether one of these does.
fn any_too_large(literals: &[Literal]) -> bool
    ensures { result ≡ list_any is_too_large_literal (map surface_literal literals.now) }
{
    for literal in literals {
        if is_too_large(literal) {
            return true;
        }
    }
    false
}

/// Whether a number in a row needs more bits than are written behind it.
pub(crate) fn any_row_too_large(rows: &[SurfaceRow]) -> bool
    ensures { result ≡ list_any is_too_large_row (map surface_row rows.now) }
{
    for row in rows {
        if any_too_large(&row.keys) || any_too_large(&row.values) {
            return true;
        }
    }
    false
}

// Whether values may have the widths that are written behind these numbers.
fn have_good_widths(literals: &[Literal]) -> bool
    ensures { result ≡ list_all rules.is_width (map (λ l. l.width) (map surface_literal literals.now)) }
{
    for literal in literals {
        if !is_width(literal.width) {
            return false;
        }
    }
    true
}

/// Whether values may have the widths that are written in rows.
pub(crate) fn rows_have_good_widths(rows: &[SurfaceRow]) -> bool
    ensures { result ≡ list_all rules.is_width (literal_widths (map surface_row rows.now)) }
{
    for row in rows {
        if !have_good_widths(&row.keys) || !have_good_widths(&row.values) {
            return false;
        }
    }
    true
}

// Whether the widths that are written behind these numbers are the declared ones.
fn have_widths(literals: &[Literal], widths: &[u64]) -> bool
    ensures { result ≡ same_widths (map (λ l. l.width) (map surface_literal literals.now)) widths.now }
{
    if literals.len() != widths.len() {
        return false;
    }
    for (i, literal) in literals.iter().enumerate() {
        if literal.width != widths[i] {
            return false;
        }
    }
    true
}

// Whether the widths that are written in a row are the declared ones.
fn row_fits(row: &SurfaceRow, keys: &[u64], values: &[u64]) -> bool
    ensures { result ≡ (same_widths (map (λ l. l.width) (surface_row row.now).keys) keys.now
        && same_widths (map (λ l. l.width) (surface_row row.now).values) values.now) }
{
    have_widths(&row.keys, keys) && have_widths(&row.values, values)
}

// The numbers of literals, without their widths.
fn numbers_of(alloc: Global, literals: &[Literal]) -> Result<Vec<u64>, NoMemory>
    ensures { IfOk result (λ numbers. numbers.items ≡ map (λ l. l.value) (map surface_literal literals.now)) }
{
    let mut numbers = Vec::new(alloc);
    for literal in literals {
        numbers.push(literal.value)?;
    }
    Ok(numbers)
}

/// Whether a row has other widths than declared, or the key of an earlier one.
pub(crate) fn has_bad_row(
    alloc: Global,
    keys: &[u64],
    values: &[u64],
    rows: &[SurfaceRow],
) -> Result<bool, NoMemory>
    ensures { IfOk result (λ bad. bad ≡ broken.has_bad_rows keys.now values.now [] (map surface_row rows.now)) }
{
    let mut seen: BTreeSet<Vec<u64>> = BTreeSet::new(alloc);
    for row in rows {
        if !row_fits(row, keys, values) {
            return Ok(true);
        }
        let key = numbers_of(alloc, &row.keys)?;
        if !seen.insert(key)? {
            return Ok(true);
        }
    }
    Ok(false)
}
