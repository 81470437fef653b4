//! What preprocessing computes and hands up, of the first instructions of a program.
ghost use Rattle.std.specs.Prelude.{◌≡◌, ◌<◌, ◌≤◌, ◌-◌, length, IfOk, slice_set, slice_index_or, false};
ghost use Rattle.flat_ir.specs.Program.{program_of};
ghost use Rattle.flat_ir.specs.WellFormed.{IsWellFormed};
ghost use Rattle.split_model.specs.Bounds.{IsBounded};
ghost use Rattle.split_model.specs.Greatest.{IsGreatestSplit};
ghost use Rattle.partition.specs.Front.{IsFront};
ghost use Rattle.partition.specs.Basis.{IsBasis};

use crate::basis::Basis;
use crate::greatest::{join, post_set};
use dependence::{Depths, Marks, carried_closure, depths, pre_closure};
use flat_ir::Flat;
use gal_io::NoMemory;
use split_model::Split;
use std::alloc::Global;

/// The greatest sets of preprocessing among the first `count` instructions.
#[derive(Drop)]
pub(crate) struct Front {
    pub(crate) count: usize,
    pub(crate) pre: Marks,
    pub(crate) carried: Marks,
    pub(crate) depths: Depths,
}

impl Front {
    /// The front of the first `count` instructions. Finding it takes one step an operand.
    pub(crate) fn new(alloc: Global, f: &Flat, count: usize) -> Result<Front, NoMemory>
        requires { IsBounded (program_of f.now) }
        ensures front { IfOk result (λ front. IsFront (program_of f.now) front) }
        ensures count { IfOk result (λ front. front.count ≡ count) }
    {
        let pre = pre_closure(alloc, f, count)?;
        let carried = carried_closure(alloc, f, &pre)?;
        let depths = depths(alloc, f, &pre)?;
        Ok(Front {
            count,
            pre,
            carried,
            depths,
        })
    }

    /// Whether the last of the first instructions is one of preprocessing.
    pub(crate) fn has_last(&self) -> bool
        requires { 0 < self.now.count }
        ensures { result ≡ slice_index_or self.now.pre (self.now.count - 1) false }
    {
        self.pre.at(self.count - 1)
    }

    /// Leaves out the last of the first instructions: what is left of the sets are the sets among the others.
    pub(crate) fn narrow(&mut self)
        requires nonempty { 0 < self.old.count }
        requires pre { self.old.count - 1 < length self.old.pre }
        requires carried { self.old.count - 1 < length self.old.carried }
        requires depths { self.old.count - 1 < length self.old.depths }
        ensures count { self.new.count ≡ self.old.count - 1 }
        ensures pre { self.new.pre ≡ slice_set self.old.pre (self.old.count - 1) false }
        ensures carried { self.new.carried ≡ slice_set self.old.carried (self.old.count - 1) false }
        ensures depths { self.new.depths ≡ slice_set self.old.depths (self.old.count - 1) 0 }
    {
        self.count -= 1;
        self.pre.set(self.count, false);
        self.carried.set(self.count, false);
        self.depths.set(self.count, 0);
    }

    /// Leaves out all but the first `count` instructions.
    pub(crate) fn narrow_to(&mut self, f: &Flat, count: usize)
        requires formed { IsWellFormed (program_of f.now) }
        requires front { IsFront (program_of f.now) self.old }
        requires fewer { count ≤ self.old.count }
        requires inside { self.old.count ≤ length f.now.code }
        ensures front { IsFront (program_of f.now) self.new }
        ensures count { self.new.count ≡ count }
    {
        while self.count > count {
            self.narrow();
        }
    }

    /// The greatest split with these sets, with all of postprocessing or none of it.
    pub(crate) fn split(
        &self,
        alloc: Global,
        f: &Flat,
        basis: &Basis,
        all: bool,
    ) -> Result<Split, NoMemory>
        requires bounded { IsBounded (program_of f.now) }
        requires basis { IsBasis f.now basis.now }
        requires front { IsFront (program_of f.now) self.now }
        ensures { IfOk result (λ s. IsGreatestSplit (program_of f.now) self.now.count all s) }
    {
        let post = post_set(alloc, f, basis, all, &self.carried)?;
        let post_depths = depths(alloc, f, &post)?;
        join(
            alloc,
            &self.pre,
            &self.carried,
            &post,
            &self.depths,
            &post_depths,
        )
    }
}
