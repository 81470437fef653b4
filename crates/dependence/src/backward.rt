//! The set whose rule looks at users, in falling order of instruction.
ghost use Rattle.std.specs.Prelude.{◌≡◌, ◌&&◌, ◌||◌, not, slice_index_or, false, IfOk, ◌<◌, length, ◌+◌, []};
ghost use Rattle.std.specs.List.{list_all};
ghost use Rattle.flat_ir.specs.Program.{program_of, work_of, step_of};
ghost use Rattle.flat_ir.specs.Kinds.{fits_switch, is_mutable_look, is_field};
ghost use Rattle.flat_ir.specs.WellFormed.{IsWellFormed};
ghost use Rattle.flat_ir.specs.Sets.{IsPostClosed, IsGreatest};
ghost use Rattle.dependence.specs.Guards.{AreGuards};
ghost use Rattle.dependence.specs.Uses.{AreUses};
ghost use Rattle.dependence.specs.Posted.{IsPostFrom};

use crate::guard::guards;
use crate::marks::Marks;
use crate::uses::Uses;
use flat_ir::{Flat, Instr};
use gal_io::NoMemory;
use std::alloc::Global;

// Whether postprocessing may have an instruction, by its kind.
fn may_be_post(f: &Flat, one: &Instr) -> bool
    ensures { result ≡ (fits_switch (step_of one.now)
        && (not (is_mutable_look (program_of f.now) (work_of one.now.kind))
        && not (is_field (work_of one.now.kind)))) }
{
    one.fits_switch() && (!f.is_mutable_look(&one.kind) && !one.kind.is_field())
}

// Whether postprocessing has instruction `i`, by what it has of those behind it.
fn enters_post(i: usize, uses: &Uses, guards: &Marks, carried: &Marks, post: &Marks) -> bool
    ensures { result ≡ (not (slice_index_or carried.now i false) && (not (slice_index_or guards.now i false)
        && list_all (λ u. slice_index_or post.now u false || slice_index_or carried.now u false)
        (slice_index_or uses.now i []))) }
{
    !carried.at(i) && (!guards.at(i) && uses.are_in(i, post, carried))
}

// Puts instruction `i` into the set, where it may be there.
fn place(f: &Flat, uses: &Uses, guards: &Marks, carried: &Marks, i: usize, post: &mut Marks)
    requires formed { IsWellFormed (program_of f.now) }
    requires uses { AreUses (program_of f.now) uses.now }
    requires guards { AreGuards (program_of f.now) guards.now }
    requires inside { i < length f.now.code }
    requires from { IsPostFrom (program_of f.now) carried.now (i + 1) post.old }
    ensures { IsPostFrom (program_of f.now) carried.now i post.new }
{
    let may = may_be_post(f, &f.code.as_slice()[i]);
    if may && enters_post(i, uses, guards, carried, post) {
        post.set(i, true);
    }
}

/// The greatest set beside `carried` that is closed for postprocessing, by the uses of each instruction and the guards
/// of writes. It takes one step an operand.
pub fn post_closure_beside_guards(
    alloc: Global,
    f: &Flat,
    uses: &Uses,
    guards: &Marks,
    carried: &Marks,
) -> Result<Marks, NoMemory>
    requires formed { IsWellFormed (program_of f.now) }
    requires uses { AreUses (program_of f.now) uses.now }
    requires guards { AreGuards (program_of f.now) guards.now }
    ensures { IfOk result (λ post. IsGreatest (program_of f.now) (IsPostClosed (program_of f.now) carried.now) post) }
{
    let mut post = Marks::unset(alloc, f.code.len())?;
    let mut i = f.code.len();
    while i > 0 {
        i -= 1;
        place(f, uses, guards, carried, i, &mut post);
    }
    Ok(post)
}

/// The greatest set beside `carried` that is closed for postprocessing. It takes one step an operand and a block.
pub fn post_closure(
    alloc: Global,
    f: &Flat,
    uses: &Uses,
    carried: &Marks,
) -> Result<Marks, NoMemory>
    requires formed { IsWellFormed (program_of f.now) }
    requires uses { AreUses (program_of f.now) uses.now }
    ensures { IfOk result (λ post. IsGreatest (program_of f.now) (IsPostClosed (program_of f.now) carried.now) post) }
{
    let guards = guards(alloc, f)?;
    post_closure_beside_guards(alloc, f, uses, &guards, carried)
}
