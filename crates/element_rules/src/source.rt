//! Which rule a source breaks first, and where.
ghost use Rattle.std.specs.Prelude.{◌≡◌, IfOk};
ghost use Rattle.element_lang.specs.Broken.{first_broken};
ghost use Rattle.element_grammar.specs.Surface.{surface_tree};

use crate::blocks::broken_in;
use crate::declarations::broken_in_declarations;
use crate::names::Sight;
use element_grammar::SurfaceTree;
use element_lang::Broken;
use gal_io::NoMemory;
use indexmap::IndexMap;
use std::alloc::Global;

/// Of all declarations and statements that break a rule the first, and the lowest rule that it breaks. There is none
/// where the source keeps every rule.
pub fn first_broken(
    alloc: Global,
    text: &[u8],
    source: &SurfaceTree,
) -> Result<Option<Broken>, NoMemory>
    ensures { IfOk result (λ found. found ≡ first_broken (surface_tree text.now source.now)) }
{
    let declared = broken_in_declarations(alloc, text, &source.objects)?;
    if declared.is_some() {
        return Ok(declared);
    }
    let mut sight = Sight {
        locals: IndexMap::new(alloc),
        repeated: false,
    };
    broken_in(alloc, text, &source.objects, &mut sight, &source.body)
}
