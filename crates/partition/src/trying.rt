//! One split of the list, tried, and where down the list the next one is that may keep the limits.
ghost use Rattle.std.specs.Prelude.{◌≡◌, ◌<◌, true, IfOk};
ghost use Rattle.flat_ir.specs.Program.{program_of};
ghost use Rattle.split_model.specs.Bounds.{IsBounded};
ghost use Rattle.resource_limits.specs.Limits.{AreInRange};
ghost use Rattle.resource_limits.specs.declared.exceeding.LimitName.TheVariants.{TransferBytes};
ghost use Rattle.partition.specs.Basis.{IsBasis};
ghost use Rattle.partition.specs.Front.{IsFront};
ghost use Rattle.partition.specs.Tried.{IsTried, IsTooMuch, IsMostLeft};

use crate::basis::Basis;
use crate::front::Front;
use flat_ir::Flat;
use gal_io::NoMemory;
use resource_limits::{LimitName, Limits, Over, count_by_guards, first_exceeded};
use split_model::Split;
use std::alloc::Global;

/// A split that keeps the limits, or the first limit that it exceeds.
#[derive(Drop)]
pub(crate) enum Tried {
    Kept(Split),
    Exceeding(Over),
}

/// The greatest split with these sets, where it keeps the limits.
pub(crate) fn try_split(
    alloc: Global,
    f: &Flat,
    basis: &Basis,
    limits: &Limits,
    front: &Front,
    all: bool,
) -> Result<Tried, NoMemory>
    requires bounded { IsBounded (program_of f.now) }
    requires basis { IsBasis f.now basis.now }
    requires front { IsFront (program_of f.now) front.now }
    ensures { IfOk result (λ tried. IsTried (program_of f.now) limits.now front.now.count all tried) }
{
    let split = front.split(alloc, f, basis, all)?;
    let counts = count_by_guards(alloc, f, &split, &basis.guard_values, limits.writeback)?;
    match first_exceeded(&counts, limits) {
        None => Ok(Tried::Kept(split)),
        Some(over) => Ok(Tried::Exceeding(over)),
    }
}

/// Whether it is another limit than that of the headers, so that preprocessing alone exceeds it where there is no
/// postprocessing.
pub(crate) fn is_of_preprocessing(over: &Over) -> bool
    ensures { result ≡ true → over.now.limit ≡ TransferBytes → ⊥ }
{
    !matches!(over.limit, LimitName::TransferBytes)
}

// Whether preprocessing among the first `count` instructions exceeds a limit by itself.
fn is_too_much(
    alloc: Global,
    f: &Flat,
    basis: &Basis,
    limits: &Limits,
    count: usize,
) -> Result<bool, NoMemory>
    requires bounded { IsBounded (program_of f.now) }
    requires basis { IsBasis f.now basis.now }
    ensures { IfOk result (λ much. much ≡ true → IsTooMuch (program_of f.now) limits.now count) }
{
    let front = Front::new(alloc, f, count)?;
    match try_split(alloc, f, basis, limits, &front, false)? {
        Tried::Kept(_) => Ok(false),
        Tried::Exceeding(over) => Ok(is_of_preprocessing(&over)),
    }
}

/// How many of the first instructions are left, where preprocessing among the first `count` exceeds a limit by itself,
/// so that it does among one more than are left. They are found by halves: whatever preprocessing takes it also takes
/// among more instructions.
pub(crate) fn most_left(
    alloc: Global,
    f: &Flat,
    basis: &Basis,
    limits: &Limits,
    count: usize,
) -> Result<usize, NoMemory>
    requires bounded { IsBounded (program_of f.now) }
    requires basis { IsBasis f.now basis.now }
    requires nonempty { 0 < count }
    requires much { IsTooMuch (program_of f.now) limits.now count }
    ensures { IfOk result (λ left. IsMostLeft (program_of f.now) limits.now count left) }
{
    let mut left = 0;
    let mut many = count;
    while left + 1 < many {
        let middle = left + (many - left) / 2;
        if is_too_much(alloc, f, basis, limits, middle)? {
            many = middle;
        } else {
            left = middle;
        }
    }
    Ok(left)
}
