//! What the names in a source stand for.
ghost use Rattle.std.specs.Prelude.{◌≡◌, ℕ, ◌&&◌, ◌++◌, ◌∷◌, [], List, map, IfOk, true};
ghost use Rattle.std.specs.Option.{option_map, is_none};
ghost use Rattle.element_lang.specs.Surface.{object_of};
ghost use Rattle.element_lang.specs.Broken as broken;
ghost use Rattle.element_lang.specs.Broken.{are_free, locals_of};
ghost use Rattle.element_tokens.specs.Tokens.{span_text};
ghost use Rattle.element_grammar.specs.Surface.{surface_decl};
ghost use Rattle.element_rules.specs.Seen.{local_of, objects_of};

use element_grammar::{At, SurfaceDecl};
use element_tokens::Span;
use gal_io::NoMemory;
use indexmap::IndexMap;
use std::alloc::Global;

/// What a statement sees besides the objects that are declared.
#[derive(Drop)]
pub(crate) struct Sight {
    /// How many bits each local in scope has, by its name, the oldest first.
    pub locals: IndexMap<Vec<u8>, u64>,
    /// Whether what is read stands within a repeat.
    pub repeated: bool,
}

/// The bytes of a span, as far as the text has them.
pub fn word_at(text: &[u8], span: Span) -> &[u8]
    ensures { result.now ≡ span_text text.now span }
{
    if span.offset >= text.len() {
        return &[];
    }
    let rest = &text[span.offset..];
    if span.len >= rest.len() {
        return rest;
    }
    &rest[..span.len]
}

/// A copy of the bytes of a span.
pub fn word_of(alloc: Global, text: &[u8], span: Span) -> Result<Vec<u8>, NoMemory>
    ensures { IfOk result (λ word. word.items ≡ span_text text.now span) }
{
    Ok(word_at(text, span).to_vec(alloc)?)
}

/// How many bits the local in scope has that has a name.
pub(crate) fn width_named(text: &[u8], locals: &IndexMap<Vec<u8>, u64>, name: Span) -> Option<u64>
    ensures { result ≡ option_map (λ l. l.width)
        (broken.local_named (map local_of locals.now.entries) (span_text text.now name)) }
{
    locals.get(word_at(text, name)).copied()
}

/// The name of an object that is declared.
pub(crate) fn name_of(declaration: &SurfaceDecl) -> Span
    ensures { (text : List ℕ) → span_text text result ≡ (object_of (surface_decl text declaration.now)).name }
{
    match declaration {
        SurfaceDecl::Table { name, .. }
        | SurfaceDecl::Map { name, .. }
        | SurfaceDecl::Vector { name, .. }
        | SurfaceDecl::Int { name, .. } => *name,
    }
}

/// The declaration of the object that has a name.
pub(crate) fn object_named<'a>(
    text: &[u8],
    objects: &'a [At<SurfaceDecl>],
    name: Span,
) -> Option<&'a SurfaceDecl>
    ensures { option_map (λ d. object_of (surface_decl text.now d.now)) result
        ≡ broken.object_named (objects_of text.now objects.now) (span_text text.now name) }
{
    let word = word_at(text, name);
    for object in objects {
        if word == word_at(text, name_of(&object.item)) {
            return Some(&object.item);
        }
    }
    None
}

/// Whether a name is that of no object and of no local in scope.
pub(crate) fn is_free(
    text: &[u8],
    objects: &[At<SurfaceDecl>],
    locals: &IndexMap<Vec<u8>, u64>,
    name: Span,
) -> bool
    ensures { result ≡ (is_none (broken.object_named (objects_of text.now objects.now) (span_text text.now name))
        && is_none (broken.local_named (map local_of locals.now.entries) (span_text text.now name))) }
{
    object_named(text, objects, name).is_none() && width_named(text, locals, name).is_none()
}

/// Brings a local into scope where its name is free, and tells whether it is.
pub(crate) fn declare(
    alloc: Global,
    text: &[u8],
    objects: &[At<SurfaceDecl>],
    locals: &mut IndexMap<Vec<u8>, u64>,
    name: Span,
    width: u64,
) -> Result<bool, NoMemory>
    ensures free { IfOk result (λ free. free
        ≡ (is_none (broken.object_named (objects_of text.now objects.now) (span_text text.now name))
        && is_none (broken.local_named (map local_of locals.old.entries) (span_text text.now name)))) }
    ensures locals { IfOk result (λ free. free ≡ true → map local_of locals.new.entries
        ≡ map local_of locals.old.entries ++ record { name = span_text text.now name; width = width } ∷ []) }
{
    if !is_free(text, objects, locals, name) {
        return Ok(false);
    }
    let word = word_of(alloc, text, name)?;
    locals.insert(word, width)?;
    Ok(true)
}

/// The same of several with the widths at their places, in order, up to the first whose name isn't free.
pub(crate) fn declare_all(
    alloc: Global,
    text: &[u8],
    objects: &[At<SurfaceDecl>],
    locals: &mut IndexMap<Vec<u8>, u64>,
    names: &[Span],
    widths: &[u64],
) -> Result<bool, NoMemory>
    ensures free { IfOk result (λ free. free
        ≡ are_free (objects_of text.now objects.now) (map local_of locals.old.entries)
        (locals_of (map (span_text text.now) names.now) widths.now)) }
    ensures locals { IfOk result (λ free. free ≡ true → map local_of locals.new.entries
        ≡ map local_of locals.old.entries ++ locals_of (map (span_text text.now) names.now) widths.now) }
{
    for (i, name) in names.iter().enumerate() {
        let width = if i < widths.len() { widths[i] } else { 0 };
        if !declare(alloc, text, objects, locals, *name, width)? {
            return Ok(false);
        }
    }
    Ok(true)
}
