//! The wires of each element, in order of their outputs.
ghost use Rattle.std.specs.Prelude.{◌≡◌, ◌++◌, IfOk, OnOk, option_to_list, slice_index_or, []};
ghost use Rattle.element_chain.specs.Chain.{wire_at};
ghost use Rattle.element_chain.specs.Compose.{wires_of};
ghost use Rattle.chain_compose.specs.Routes.{all_routes};

use element_chain::Wire;
use gal_io::NoMemory;
use std::alloc::Global;
use std::marker::Model;

/// How many outputs an element can have.
const OUTPUTS: u16 = 256;

// The wire at an output of an element.
fn wire_at(wires: &[Wire], element: u32, output: u16) -> Option<Wire>
    ensures { result ≡ wire_at wires.now element output }
{
    for wire in wires {
        if wire.from == element && u16::from(wire.output) == output {
            return Some(*wire);
        }
    }
    None
}

// Puts a wire last, where there is one.
fn keep(found: &mut Vec<Wire>, wire: Option<Wire>) -> Result<(), NoMemory>
    ensures { OnOk result (found.new.items ≡ found.old.items ++ option_to_list wire) }
{
    if let Some(wire) = wire {
        found.push(wire)?;
    }
    Ok(())
}

// The wires of an element, in order of their outputs.

fn wires_of(alloc: Global, wires: &[Wire], element: u32) -> Result<Vec<Wire>, NoMemory>
    ensures { IfOk result (λ found. found.items ≡ wires_of wires.now element) }
{
    let mut found = Vec::new(alloc);
    for output in 0..OUTPUTS {
        keep(&mut found, wire_at(wires, element, output))?;
    }
    Ok(found)
}

/// The wires of each element, in order of their outputs. Contracts see a list for each element.
#[derive(Drop)]
pub(crate) struct Routes {
    lists: Vec<Vec<Wire>>,
}

impl Model for Routes {
    ghost use Rattle.std.specs.Prelude.{List, map};
    ghost use Rattle.element_chain.specs.declared.chain.Wire.{Wire};

    ghost Value = { List (List Wire) };

    ghost view = { λ routes. map (λ list. list.items) routes.lists.items };
}

impl Routes {
    /// The wires of so many elements.
    pub fn new(alloc: Global, wires: &[Wire], count: u32) -> Result<Routes, NoMemory>
        ensures { IfOk result (λ made. made ≡ all_routes wires.now count) }
    {
        let mut lists = Vec::new(alloc);
        for element in 0..count {
            lists.push(wires_of(alloc, wires, element)?)?;
        }
        Ok(Routes { lists })
    }

    /// The wires of an element.
    pub fn of(&self, element: u32) -> &[Wire]
        ensures { result.now ≡ slice_index_or self.now element [] }
    {
        match self.lists.get(element as usize) {
            Some(list) => list.as_slice(),
            None => &[],
        }
    }
}
