//! The greatest split on some of the instructions.
ghost use Rattle.std.specs.Prelude.{◌≡◌, ℕ, length, IfOk, slice_index, slice_index_or, true, false, is_some, replicate};
ghost use Rattle.std.specs.Prelude.{None};
ghost use Rattle.flat_ir.specs.Program.{program_of};
ghost use Rattle.flat_ir.specs.WellFormed.{IsWellFormed};
ghost use Rattle.flat_ir.specs.Sets.{IsMarked};
ghost use Rattle.split_model.specs.declared.split.Slow.TheVariants.{Server};
ghost use Rattle.split_model.specs.Split.{is_carried_up, stage_after};
ghost use Rattle.split_model.specs.Counts.{stage_or_zero, stages};
ghost use Rattle.split_model.specs.Shown.{is_shown};
ghost use Rattle.split_model.specs.Legal.{IsLegal};
ghost use Rattle.split_model.specs.Greatest.{IsGreatestSplit, IsPostSet};
ghost use Rattle.split_model.specs.Bounds.{IsBounded};
ghost use Rattle.partition.specs.Basis.{IsBasis};
ghost use Rattle.partition.specs.Joined.{IsJoined};

use crate::basis::Basis;
use crate::front::Front;
use dependence::{Depths, Marks, post_closure_beside_guards};
use flat_ir::Flat;
use gal_io::NoMemory;
use split_model::{Part, Slow, Split};
use std::alloc::Global;

// Who gives an instruction to a packet that visits the server.
fn slow_part(carried: bool, post: bool, post_depth: u32) -> Slow
    requires apart { post ≡ true → carried ≡ false }
    requires post_zero { post ≡ false → post_depth ≡ 0 }
    ensures carried { is_carried_up result ≡ carried }
    ensures post { is_some (stage_after result) ≡ post }
    ensures post_stage { stage_or_zero (stage_after result) ≡ post_depth }
{
    if carried {
        Slow::Carried
    } else if post {
        Slow::Post(post_depth)
    } else {
        Slow::Server
    }
}

// One part.
fn make_part(pre: bool, pre_depth: u32, carried: bool, post: bool, post_depth: u32) -> Part
    requires apart { post ≡ true → carried ≡ false }
    requires pre_zero { pre ≡ false → pre_depth ≡ 0 }
    requires post_zero { post ≡ false → post_depth ≡ 0 }
    ensures pre { is_some result.pre ≡ pre }
    ensures pre_stage { stage_or_zero result.pre ≡ pre_depth }
    ensures carried { is_carried_up result.slow ≡ carried }
    ensures post { is_some (stage_after result.slow) ≡ post }
    ensures post_stage { stage_or_zero (stage_after result.slow) ≡ post_depth }
{
    let pre = if pre { Some(pre_depth) } else { None };
    let slow = slow_part(carried, post, post_depth);
    Part { pre, slow }
}

// The parts that these sets and depths say.
pub(crate) fn join(
    alloc: Global,
    pre: &Marks,
    carried: &Marks,
    post: &Marks,
    pre_depths: &Depths,
    post_depths: &Depths,
) -> Result<Split, NoMemory>
    requires carried_count { length carried.now ≡ length pre.now }
    requires post_count { length post.now ≡ length pre.now }
    requires pre_depth_count { length pre_depths.now ≡ length pre.now }
    requires post_depth_count { length post_depths.now ≡ length pre.now }
    requires apart { (i : ℕ) → IsMarked post.now i → slice_index_or carried.now i false ≡ false }
    requires pre_zero { (i : ℕ) → slice_index_or pre.now i false ≡ false → slice_index pre_depths.now i ≡ 0 }
    requires post_zero { (i : ℕ) → slice_index_or post.now i false ≡ false → slice_index post_depths.now i ≡ 0 }
    ensures { IfOk result (λ s. IsJoined pre.now carried.now post.now pre_depths.now post_depths.now s) }
{
    let mut items = Vec::with_capacity(alloc, pre.len())?;
    for i in 0..pre.len() {
        let one = make_part(
            pre.at(i),
            pre_depths.at(i),
            carried.at(i),
            post.at(i),
            post_depths.at(i),
        );
        items.push(one)?;
    }
    Ok(Split::from(items))
}

// The set of postprocessing: the greatest one, or none.
pub(crate) fn post_set(
    alloc: Global,
    f: &Flat,
    basis: &Basis,
    all: bool,
    carried: &Marks,
) -> Result<Marks, NoMemory>
    requires formed { IsWellFormed (program_of f.now) }
    requires basis { IsBasis f.now basis.now }
    ensures { IfOk result (λ post. IsPostSet (program_of f.now) all carried.now post) }
{
    if all {
        post_closure_beside_guards(alloc, f, &basis.uses, &basis.guards, carried)
    } else {
        Marks::unset(alloc, f.code.len())
    }
}

/// The greatest split on the first `k` instructions, with all of postprocessing or none of it. It takes one step per
/// operand and per block.
pub fn greatest_split(alloc: Global, f: &Flat, k: usize, all: bool) -> Result<Split, NoMemory>
    requires { IsBounded (program_of f.now) }
    ensures { IfOk result (λ s. IsGreatestSplit (program_of f.now) k all s) }
{
    let basis = Basis::of(alloc, f)?;
    Front::new(alloc, f, k)?.split(alloc, f, &basis, all)
}

/// The split that leaves every instruction to the server. No object is looked up on the switch.
pub fn all_on_server(alloc: Global, f: &Flat) -> Result<Split, NoMemory>
    ensures greatest { IfOk result (λ s. IsGreatestSplit (program_of f.now) 0 false s) }
    ensures legal { IfOk result (λ s. IsLegal (program_of f.now) s) }
    ensures parts { IfOk result (λ s. s ≡ replicate (length f.now.code) (record { pre = None; slow = Server })) }
    ensures stages { IfOk result (λ s. stages (program_of f.now) s ≡ 0) }
    ensures unseen { IfOk result (λ s. (o : ℕ) → is_shown (program_of f.now) s o ≡ false) }
{
    let part = Part {
        pre: None,
        slow: Slow::Server,
    };
    let items = vec![in alloc; part; f.code.len()]?;
    Ok(Split::from(items))
}
