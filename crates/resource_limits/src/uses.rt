//! How often instructions use each object.
ghost use Rattle.std.specs.Prelude.{◌≡◌, ℕ, ◌+◌, ◌<◌, ◌≤◌, ◌^◌, length, slice_index, slice_set, IfOk};
ghost use Rattle.flat_ir.specs.Program.{program_of, work_of};
ghost use Rattle.split_model.specs.Shown.{looks_at, writes_to};
ghost use Rattle.resource_limits.specs.Counts.{each_object};
ghost use Rattle.resource_limits.specs.Uses.{is_object, is_used, uses};

use flat_ir::{Flat, InstrKind};
use gal_io::NoMemory;
use split_model::Split;
use std::alloc::Global;

/// How an instruction uses an object.
#[derive(Clone, Copy)]
pub enum Use {
    /// Preprocessing looks it up.
    Before,
    /// Postprocessing looks it up.
    After,
    /// An instruction changes the rows, whichever part has it.
    Change,
}

// The object that it looks up.
fn looked(kind: &InstrKind) -> Option<u32>
    ensures { (o : ℕ) → looks_at o (work_of kind.now) ≡ is_object result o }
{
    match kind {
        InstrKind::Look { object, .. } => Some(*object),
        _ => None,
    }
}

// The object whose rows it changes.
fn changed(kind: &InstrKind) -> Option<u32>
    ensures { (o : ℕ) → writes_to o (work_of kind.now) ≡ is_object result o }
{
    match kind {
        InstrKind::Put { object, .. } => Some(*object),
        InstrKind::Del { object, .. } => Some(*object),
        _ => None,
    }
}

// The object that an instruction uses in this way.
fn used(how: Use, f: &Flat, s: &Split, i: usize) -> Option<u32>
    requires { i < length f.now.code }
    ensures { (o : ℕ) → is_used how (program_of f.now) s.now i o ≡ is_object result o }
{
    let kind = &f.code.as_slice()[i].kind;
    let object = match how {
        Use::Before | Use::After => looked(kind),
        Use::Change => changed(kind),
    };
    let counts = match how {
        Use::Before => s.is_pre(i),
        Use::After => s.is_post(i),
        Use::Change => true,
    };
    if counts { object } else { None }
}

// Adds one to the number of an object, where there is one.
fn add_one(tally: &mut Vec<u32>, object: usize)
    requires { (o : ℕ) → slice_index tally.old.items o + 1 < 2 ^ 32 }
    ensures { tally.new.items ≡ slice_set tally.old.items object (slice_index tally.old.items object + 1) }
{
    if object < tally.len() {
        tally[object] += 1;
    }
}

/// For each object, how many instructions use it in this way. It takes one step an instruction.
pub fn tally(alloc: Global, f: &Flat, s: &Split, how: Use) -> Result<Vec<u32>, NoMemory>
    requires { length f.now.code ≤ 4096 }
    ensures exact { IfOk result
        (λ tally. tally.items ≡ each_object (program_of f.now) (uses how (program_of f.now) s.now)) }
    ensures count { IfOk result (λ tally. length tally.items ≡ length f.now.objects) }
    ensures bounded { IfOk result (λ tally. (o : ℕ) → slice_index tally.items o ≤ 4096) }
{
    let mut tally = vec![in alloc; 0u32; f.objects.len()]?;
    for i in 0..f.code.len() {
        if let Some(object) = used(how, f, s, i) {
            add_one(&mut tally, object as usize);
        }
    }
    Ok(tally)
}
