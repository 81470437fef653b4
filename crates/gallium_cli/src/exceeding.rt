//! What is told of a limit that a split exceeds.
ghost use Rattle.std.specs.Prelude.{◌≡◌, IfOk};
ghost use Rattle.std.specs.Option.{option_map};
ghost use Rattle.flat_ir.specs.Listing.{name_of};
ghost use Rattle.gallium_cli.specs.Splits.{excess_of};

use crate::refusal::Excess;
use gal_io::{NoMemory, Text};
use resource_limits::Over;
use state_store::ObjectDecl;
use std::alloc::Global;

/// The name of an object, if one is meant.
pub fn owner(
    alloc: Global,
    objects: &[ObjectDecl],
    object: Option<u32>,
) -> Result<Option<Text>, NoMemory>
    ensures { IfOk result (λ name. name ≡ option_map (name_of objects.now) object) }
{
    match object {
        None => Ok(None),
        Some(number) => {
            let name = match objects.get(number as usize) {
                Some(declared) => Text::from_slice(alloc, declared.name.as_slice())?,
                None => Text::new(alloc),
            };
            Ok(Some(name))
        }
    }
}

/// What is told of a limit that is exceeded.
pub fn excess(alloc: Global, objects: &[ObjectDecl], over: Over) -> Result<Excess, NoMemory>
    ensures { IfOk result (λ told. told ≡ excess_of objects.now over) }
{
    let object = owner(alloc, objects, over.object)?;
    Ok(Excess {
        limit: over.limit,
        object,
        have: over.have,
        allowed: over.allowed,
    })
}
