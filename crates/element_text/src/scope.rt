//! What is declared so far in a source, and which locals are in scope.
ghost use Rattle.std.specs.Prelude.{◌≡◌, ◌+◌, ◌<◌, IfOk, IsSome, map, length, Some, slice_get};
ghost use Rattle.element_tokens.specs.Tokens.{span_text};
ghost use Rattle.element_text.specs.Resolve.{local_in, object_from, declared};
ghost use Rattle.element_text.specs.Scopes.{known_as, known_of, env_of};

use element_lang::{Local, Locals};
use element_rules::word_at;
use element_tokens::Span;
use gal_bits::Width;
use gal_io::{Bytes, NoMemory};
use indexmap::IndexMap;
use state_store::{ObjectDecl, Objects};
use std::alloc::Global;

/// A local in scope.
#[derive(Clone, Copy)]
pub(crate) struct KnownLocal {
    pub number: u32,
    pub width: Width,
}

/// What is declared so far, and which locals are in scope by their names, the oldest first.
#[derive(Drop)]
pub(crate) struct Scope {
    pub objects: Objects,
    pub locals: Locals,
    pub known: IndexMap<Vec<u8>, KnownLocal>,
}

/// The local in scope that has a name.
pub(crate) fn local_named(
    text: &[u8],
    known: &IndexMap<Vec<u8>, KnownLocal>,
    name: Span,
) -> KnownLocal
    requires { IsSome (local_in (map known_of known.now.entries) (span_text text.now name)) }
    ensures { local_in (map known_of known.now.entries) (span_text text.now name)
        ≡ Some (known_as (span_text text.now name) result) }
{
    *known.get(word_at(text, name)).unwrap()
}

/// A place as a number. There is no memory for more than these.
pub(crate) fn number_of(place: usize) -> Result<u32, NoMemory>
    ensures { IfOk result (λ number. number ≡ place) }
{
    if place > u32::MAX as usize {
        return Err(NoMemory);
    }
    Ok(place as u32)
}

/// The number of the object that has a name.
pub(crate) fn object_named(text: &[u8], objects: &[ObjectDecl], name: Span) -> Result<u32, NoMemory>
    requires { IsSome (object_from 0 objects.now (span_text text.now name)) }
    ensures number { IfOk result (λ number. object_from 0 objects.now (span_text text.now name) ≡ Some number) }
    ensures within { IfOk result (λ number. number < length objects.now) }
{
    let word = word_at(text, name);
    for (i, object) in objects.iter().enumerate() {
        if word == object.name.as_slice() {
            return number_of(i);
        }
    }
    unreachable!()
}

/// The declaration of an object.
pub(crate) fn declaration(objects: &[ObjectDecl], number: u32) -> &ObjectDecl
    requires { number < length objects.now }
    ensures { slice_get objects.now number ≡ Some result.now }
{
    &objects[number as usize]
}

impl Scope {
    /// Declares a local and brings it into scope.
    pub fn declare(
        &mut self,
        alloc: Global,
        text: &[u8],
        name: Span,
        width: Width,
    ) -> Result<u32, NoMemory>
        requires { IsSome (declared (env_of self.old) (span_text text.now name) width) }
        ensures declared { IfOk result (λ _.
            declared (env_of self.old) (span_text text.now name) width ≡ Some (env_of self.new)) }
        ensures number { IfOk result (λ number. number ≡ length self.old.locals) }
        ensures count { IfOk result (λ _. length self.new.locals ≡ length self.old.locals + 1) }
    {
        let word = word_at(text, name);
        let number = number_of(self.locals.len())?;
        let bytes = Bytes::from_slice(alloc, word)?;
        self.locals.push(Local { name: bytes, width })?;
        self.known
            .insert(word.to_vec(alloc)?, KnownLocal { number, width })?;
        Ok(number)
    }
}
