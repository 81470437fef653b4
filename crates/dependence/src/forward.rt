//! The sets whose rules look at operands, in rising order of instruction.
ghost use Rattle.std.specs.Prelude.{◌≡◌, ◌&&◌, not, nat_lt, slice_index_or, false, IfOk};
ghost use Rattle.flat_ir.specs.Program.{program_of, work_of, step_of, operands};
ghost use Rattle.flat_ir.specs.Kinds.{needed, fits_switch, is_mutable_look};
ghost use Rattle.flat_ir.specs.WellFormed.{IsWellFormed};
ghost use Rattle.flat_ir.specs.Sets.{IsPreClosed, IsCarriedClosed, IsGreatest};
ghost use Rattle.dependence.specs.Marked.{are_marked};

use crate::marks::Marks;
use crate::operand::{has_needs, has_operands};
use flat_ir::{Flat, Instr};
use gal_io::NoMemory;
use std::alloc::Global;

// Whether preprocessing has the next instruction, by what it has so far.
fn enters_pre(i: usize, k: usize, one: &Instr, pre: &Marks) -> bool
    ensures { result ≡ (nat_lt i k
        && (fits_switch (step_of one.now) && are_marked pre.now (needed (work_of one.now.kind)))) }
{
    i < k && (one.fits_switch() && has_needs(pre, &one.kind))
}

// Whether the next instruction is carried, by what is carried so far.
fn enters_carried(i: usize, f: &Flat, one: &Instr, pre: &Marks, carried: &Marks) -> bool
    ensures { result ≡ (slice_index_or pre.now i false
        && (not (is_mutable_look (program_of f.now) (work_of one.now.kind))
        && are_marked carried.now (operands (work_of one.now.kind)))) }
{
    pre.at(i) && (!f.is_mutable_look(&one.kind) && has_operands(carried, &one.kind))
}

/// The greatest set that is closed for preprocessing, among the first `k` instructions. It takes one step an operand.
pub fn pre_closure(alloc: Global, f: &Flat, k: usize) -> Result<Marks, NoMemory>
    requires { IsWellFormed (program_of f.now) }
    ensures { IfOk result (λ pre. IsGreatest (program_of f.now) (IsPreClosed (program_of f.now) k) pre) }
{
    let code = f.code.as_slice();
    let mut pre = Marks::new(alloc);
    for i in 0..code.len() {
        let mark = enters_pre(i, k, &code[i], &pre);
        pre.push(mark)?;
    }
    Ok(pre)
}

/// The greatest set within `pre` that is closed for what preprocessing hands up. It takes one step an operand.
pub fn carried_closure(alloc: Global, f: &Flat, pre: &Marks) -> Result<Marks, NoMemory>
    requires { IsWellFormed (program_of f.now) }
    ensures { IfOk result (λ carried.
        IsGreatest (program_of f.now) (IsCarriedClosed (program_of f.now) pre.now) carried) }
{
    let code = f.code.as_slice();
    let mut carried = Marks::new(alloc);
    for i in 0..code.len() {
        let mark = enters_carried(i, f, &code[i], pre, &carried);
        carried.push(mark)?;
    }
    Ok(carried)
}
