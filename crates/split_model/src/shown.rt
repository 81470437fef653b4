//! Which objects the switch has to be told of.
ghost use Rattle.std.specs.Prelude.{◌≡◌};
ghost use Rattle.flat_ir.specs.Program.{program_of};
ghost use Rattle.split_model.specs.Shown.{is_replicated, is_shown};

use crate::split::Split;
use flat_ir::Flat;
use state_store::is_constant;

// Whether preprocessing looks the object up.
fn is_shown(f: &Flat, s: &Split, object: u32) -> bool
    ensures { result ≡ is_shown (program_of f.now) s.now object }
{
    for i in 0..f.code.len() {
        if s.is_pre(i) && f.code.as_slice()[i].kind.looks_at(object) {
            return true;
        }
    }
    false
}

/// Whether an object is one whose changes the switch follows: it is no constant table, and preprocessing looks it up.
pub fn replicated(f: &Flat, s: &Split, object: u32) -> bool
    ensures { result ≡ is_replicated (program_of f.now) s.now object }
{
    !is_constant(f.objects.as_slice(), object) && is_shown(f, s, object)
}
