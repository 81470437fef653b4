//! The objects and the locals of the whole, under names that tell them apart.
ghost use Rattle.std.specs.Prelude.{◌≡◌, ◌++◌, ◌^◌, ◌<◌, ◌≤◌, map, length, IfOk, OnOk};
ghost use Rattle.std.specs.Fmt.{decimal};
ghost use Rattle.element_lang.specs.View.{tree};
ghost use Rattle.element_chain.specs.Compose.{prefixed, named_objects, objects_from, locals_from};

use element_lang::{Local, Locals, Middlebox};
use gal_bits::Width;
use gal_io::{Bytes, NoMemory, Text};
use state_store::{ObjectDecl, Objects};
use std::alloc::Global;

// Letters, and a number behind them.
fn numbered(alloc: Global, letters: &[u8], number: u64) -> Result<Text, NoMemory>
    ensures { IfOk result (λ made. made ≡ letters.now ++ decimal number) }
{
    let mut name = Text::from_slice(alloc, letters)?;
    name.push_number(number)?;
    Ok(name)
}

// The name of an object of an element in the whole.
fn prefixed(alloc: Global, element: u64, name: &[u8]) -> Result<Bytes, NoMemory>
    ensures { IfOk result (λ made. made ≡ prefixed element name.now) }
{
    let mut text = numbered(alloc, b"e", element)?;
    text.extend(b"_")?;
    text.extend(name)?;
    Bytes::from_slice(alloc, text.as_slice())
}

// An object of an element, with the element's number in front of its name.
fn renamed(alloc: Global, element: u64, object: &ObjectDecl) -> Result<ObjectDecl, NoMemory>
    ensures { IfOk result (λ made. made ≡ record object.now { name = prefixed element object.now.name }) }
{
    let name = prefixed(alloc, element, object.name.as_slice())?;
    Ok(ObjectDecl {
        name,
        kind: object.kind,
        keys: object.keys,
        values: object.values,
        size: object.size,
        start: object.start,
        rows: object.rows.copy(alloc)?,
    })
}

fn put_objects(
    alloc: Global,
    element: u64,
    own: &[ObjectDecl],
    objects: &mut Objects,
) -> Result<(), NoMemory>
    ensures { OnOk result (objects.new ≡ objects.old ++ named_objects element own.now) }
{
    for object in own {
        objects.push(renamed(alloc, element, object)?)?;
    }
    Ok(())
}

/// The objects of all elements, in order.
pub(crate) fn objects(alloc: Global, classes: &[Middlebox]) -> Result<Objects, NoMemory>
    ensures { IfOk result (λ made. made ≡ objects_from 0 (map tree classes.now)) }
{
    let mut objects = Objects::new(alloc);
    for element in 0..classes.len() {
        put_objects(
            alloc,
            element as u64,
            classes[element].objects.as_slice(),
            &mut objects,
        )?;
    }
    Ok(objects)
}

/// Locals of these widths, named by their numbers.
pub(crate) fn locals(alloc: Global, widths: &[Width]) -> Result<Locals, NoMemory>
    ensures { IfOk result (λ made. made ≡ locals_from 0 widths.now) }
{
    let mut locals = Locals::new(alloc);
    for number in 0..widths.len() {
        let name = numbered(alloc, b"v", number as u64)?;
        locals.push(Local {
            name: Bytes::from_slice(alloc, name.as_slice())?,
            width: widths[number],
        })?;
    }
    Ok(locals)
}
