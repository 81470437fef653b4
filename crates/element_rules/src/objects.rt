//! What fits a declared object.
ghost use Rattle.std.specs.Prelude.{◌≡◌, ◌++◌, List, ℕ, map, length, IfOk, true};
ghost use Rattle.element_lang.specs.Surface.{object_of};
ghost use Rattle.state_store.specs.Kinds.{is_table, is_map};
ghost use Rattle.element_lang.specs.Rules.{same_widths};
ghost use Rattle.element_lang.specs.Broken.{are_free, locals_of};
ghost use Rattle.element_tokens.specs.Tokens.{span_text};
ghost use Rattle.element_grammar.specs.Surface.{surface_decl};
ghost use Rattle.element_rules.specs.Seen.{local_of, objects_of};

use crate::names::declare_all;
use crate::widths::same_widths;
use element_grammar::{At, SurfaceDecl};
use element_tokens::Span;
use gal_io::NoMemory;
use indexmap::IndexMap;
use std::alloc::Global;

// The bits of an index of a vector.
const INDEX_BITS: u64 = 32;

/// Whether the numbers of a key may have these widths.
pub(crate) fn keys_fit(object: &SurfaceDecl, widths: &[u64]) -> bool
    ensures { (text : List ℕ) → result ≡ same_widths widths.now (object_of (surface_decl text object.now)).keys }
{
    match object {
        SurfaceDecl::Table { keys, .. } | SurfaceDecl::Map { keys, .. } => {
            same_widths(widths, keys)
        }
        SurfaceDecl::Vector { .. } => same_widths(widths, &[INDEX_BITS]),
        SurfaceDecl::Int { .. } => same_widths(widths, &[]),
    }
}

/// Whether the numbers of a value may have these widths.
pub(crate) fn values_fit(object: &SurfaceDecl, widths: &[u64]) -> bool
    ensures { (text : List ℕ) → result ≡ same_widths widths.now (object_of (surface_decl text object.now)).values }
{
    match object {
        SurfaceDecl::Table { values, .. }
        | SurfaceDecl::Map { values, .. }
        | SurfaceDecl::Vector { values, .. } => same_widths(widths, values),
        SurfaceDecl::Int { width, .. } => same_widths(widths, &[*width]),
    }
}

/// How many numbers a value has.
pub(crate) fn value_count(object: &SurfaceDecl) -> usize
    ensures { (text : List ℕ) → result ≡ length (object_of (surface_decl text object.now)).values }
{
    match object {
        SurfaceDecl::Table { values, .. }
        | SurfaceDecl::Map { values, .. }
        | SurfaceDecl::Vector { values, .. } => values.len(),
        SurfaceDecl::Int { .. } => 1,
    }
}

/// Declares a local for each number of a value.
pub(crate) fn declare_values(
    alloc: Global,
    text: &[u8],
    objects: &[At<SurfaceDecl>],
    locals: &mut IndexMap<Vec<u8>, u64>,
    names: &[Span],
    object: &SurfaceDecl,
) -> Result<bool, NoMemory>
    ensures free { IfOk result (λ free. free
        ≡ are_free (objects_of text.now objects.now) (map local_of locals.old.entries)
        (locals_of (map (span_text text.now) names.now) (object_of (surface_decl text.now object.now)).values)) }
    ensures locals { IfOk result (λ free. free ≡ true → map local_of locals.new.entries
        ≡ map local_of locals.old.entries
        ++ locals_of (map (span_text text.now) names.now) (object_of (surface_decl text.now object.now)).values) }
{
    match object {
        SurfaceDecl::Table { values, .. }
        | SurfaceDecl::Map { values, .. }
        | SurfaceDecl::Vector { values, .. } => declare_all(
            alloc, text, objects, locals, names, values,
        ),
        SurfaceDecl::Int { width, .. } => declare_all(
            alloc,
            text,
            objects,
            locals,
            names,
            &[*width],
        ),
    }
}

/// Whether it is a table.
pub(crate) fn is_table(object: &SurfaceDecl) -> bool
    ensures { (text : List ℕ) → result ≡ is_table (object_of (surface_decl text object.now)).kind }
{
    matches!(object, SurfaceDecl::Table { .. })
}

/// Whether it is a map.
pub(crate) fn is_map(object: &SurfaceDecl) -> bool
    ensures { (text : List ℕ) → result ≡ is_map (object_of (surface_decl text object.now)).kind }
{
    matches!(object, SurfaceDecl::Map { .. })
}
