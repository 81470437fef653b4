//! How much the objects of all elements are, told before the whole is made. Counts stop at the greatest that 64 bits
//! can hold.
ghost use Rattle.std.specs.Prelude.{◌≡◌, ◌+◌, ◌++◌, ◌≤◌, ℕ, List, length, map, IfOk, OnOk};
ghost use Rattle.element_lang.specs.Sizes.{entries_in};
ghost use Rattle.element_lang.specs.View.{tree};
ghost use Rattle.element_chain.specs.Compose.{prefixed, named_objects, objects_from};
ghost use Rattle.element_print.specs.Lengths as lengths;
ghost use Rattle.element_print.specs.Lengths.{capped};

use element_lang::Middlebox;
use element_print::{decls_length, number_length};
use element_rules::entries;
use gal_io::NoMemory;
use state_store::ObjectDecl;
use std::alloc::Global;

// The bytes in front of the names of an element's objects.
fn prefix_length(element: u64) -> u64
    ensures { (name : List ℕ) → length (prefixed element name) ≡ result + length name }
{
    number_length(element) + 1
}

// The bytes of a name behind so many. Where 64 bits can't hold them, there is no memory for it either.
fn whole_length(prefix: u64, object: &ObjectDecl) -> Result<u64, NoMemory>
    ensures { IfOk result (λ n. n ≡ prefix + length object.now.name) }
{
    match prefix.checked_add(object.name.len() as u64) {
        Some(bytes) => Ok(bytes),
        None => Err(NoMemory),
    }
}

fn put_name_lengths(element: u64, own: &[ObjectDecl], names: &mut Vec<u64>) -> Result<(), NoMemory>
    ensures { OnOk result (names.new.items
        ≡ names.old.items ++ map (λ o. length o.name) (named_objects element own.now)) }
{
    let prefix = prefix_length(element);
    for object in own {
        names.push(whole_length(prefix, object)?)?;
    }
    Ok(())
}

/// The bytes of the names of the objects of all elements, in order.
pub(crate) fn name_lengths(alloc: Global, classes: &[Middlebox]) -> Result<Vec<u64>, NoMemory>
    ensures { IfOk result (λ made. made.items
        ≡ map (λ o. length o.name) (objects_from 0 (map tree classes.now))) }
{
    let mut names = Vec::new(alloc);
    for element in 0..classes.len() {
        put_name_lengths(
            element as u64,
            classes[element].objects.as_slice(),
            &mut names,
        )?;
    }
    Ok(names)
}

/// How many objects all elements have.
pub(crate) fn object_count(classes: &[Middlebox]) -> u64
    ensures { result ≡ capped (length (objects_from 0 (map tree classes.now))) }
{
    let mut total: u64 = 0;
    for class in classes {
        total = total.saturating_add(class.objects.len() as u64);
    }
    total
}

/// How many entries they have.
pub(crate) fn all_entries(classes: &[Middlebox]) -> u64
    ensures { result ≡ capped (entries_in (objects_from 0 (map tree classes.now))) }
{
    let mut total: u64 = 0;
    for class in classes {
        total = total.saturating_add(entries(class));
    }
    total
}

// The bytes of the declarations of the objects of an element.
fn own_decls_length(element: u64, own: &[ObjectDecl]) -> u64
    ensures { result ≡ capped (lengths.decls_length (named_objects element own.now)) }
{
    let prefixes = (own.len() as u64).saturating_mul(prefix_length(element));
    decls_length(own).saturating_add(prefixes)
}

/// The bytes of the declarations of all objects, each token with what stands after it.
pub(crate) fn all_decls_length(classes: &[Middlebox]) -> u64
    ensures { result ≡ capped (lengths.decls_length (objects_from 0 (map tree classes.now))) }
{
    let mut total: u64 = 0;
    for element in 0..classes.len() {
        let own = own_decls_length(element as u64, classes[element].objects.as_slice());
        total = total.saturating_add(own);
    }
    total
}
