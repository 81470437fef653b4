//! The choice of a split.
ghost use Rattle.std.specs.Prelude.{◌≡◌, ◌↔◌, ◌<◌, length, IfOk, IfErr, Bool, true, false, List};
ghost use Rattle.flat_ir.specs.Program.{program_of};
ghost use Rattle.split_model.specs.declared.split.Part.{Part};
ghost use Rattle.split_model.specs.Bounds.{IsBounded, HasFewStages};
ghost use Rattle.split_model.specs.Legal.{IsLegal};
ghost use Rattle.resource_limits.specs.Limits.{AreInRange};
ghost use Rattle.resource_limits.specs.Kept.{KeepsLimits};
ghost use Rattle.resource_limits.specs.declared.exceeding.Over.{Over};
ghost use Rattle.partition.specs.Choice.{IsChosen, IsRefused, IsKept, IsExceeded};
ghost use Rattle.partition.specs.declared.choosing.PartitionError.TheVariants.{NoMemory as without_memory};
ghost use Rattle.partition.specs.Causes.{IsCause};
ghost use Rattle.partition.specs.Tried.{IsFound, IsLeft, IsStep};
ghost use Rattle.partition.specs.Front.{IsFront};
ghost use Rattle.partition.specs.Basis.{IsBasis};
ghost use Rattle.std.specs.List.{list_any};
ghost use Rattle.partition.specs.Deeper.{is_deeper};

use crate::basis::Basis;
use crate::front::Front;
use crate::greatest::all_on_server;
use crate::trying::{Tried, is_of_preprocessing, most_left, try_split};
use flat_ir::Flat;
use gal_io::NoMemory;
use resource_limits::{Limits, Over, count_by_guards, first_exceeded};
use split_model::{Part, Split, stage_or_zero};
use std::alloc::Global;
use thiserror::Error;

/// Why there is no split.
#[derive(Debug, Drop, Error)]
pub enum PartitionError {
    /// The greatest split exceeds this limit first.
    #[error("a limit is exceeded")]
    Exceeds(Over),
    #[error("no memory")]
    NoMemory,
}

impl From<NoMemory> for PartitionError {
    ghost from_gives = { λ _ e. e ≡ without_memory };

    fn from(_: NoMemory) -> Self {
        PartitionError::NoMemory
    }
}

// What a try tells: the split that is chosen, or how many of the first instructions are left to try.
#[derive(Drop)]
enum Outcome {
    Found(Split),
    Left(usize),
}

// Whether a pass has an instruction at a stage above this one.
fn is_deeper(most: u32, part: &Part) -> bool
    ensures { result ≡ is_deeper most part.now }
{
    most < stage_or_zero(part.pre) || most < stage_or_zero(part.slow.stage())
}

// Whether some pass has a stage above this one.
fn has_deeper(most: u32, split: &Split) -> bool
    ensures { result ≡ list_any (is_deeper most) split.now }
{
    split.as_slice().iter().any(|part| is_deeper(most, part))
}

// Whether a split keeps the limits. The stages are looked at first, since that is quickly done.
fn keeps(
    alloc: Global,
    f: &Flat,
    basis: &Basis,
    split: &Split,
    limits: &Limits,
) -> Result<bool, NoMemory>
    requires bounded { IsBounded (program_of f.now) }
    requires basis { IsBasis f.now basis.now }
    requires parts { length split.now ≡ length f.now.code }
    requires in_range { AreInRange limits.now }
    ensures { IfOk result (λ keeps. (keeps ≡ true) ↔ KeepsLimits (program_of f.now) split.now limits.now) }
{
    if has_deeper(limits.stages, split) {
        return Ok(false);
    }
    let counts = count_by_guards(alloc, f, split, &basis.guard_values, limits.writeback)?;
    Ok(first_exceeded(&counts, limits).is_none())
}

// The greatest split with these sets, where it keeps the limits.
fn find(
    alloc: Global,
    f: &Flat,
    basis: &Basis,
    limits: &Limits,
    front: &Front,
    all: bool,
) -> Result<Option<Split>, NoMemory>
    requires bounded { IsBounded (program_of f.now) }
    requires basis { IsBasis f.now basis.now }
    requires in_range { AreInRange limits.now }
    requires front { IsFront (program_of f.now) front.now }
    ensures { IfOk result (λ found. IsFound (program_of f.now) limits.now front.now.count all found) }
{
    let split = front.split(alloc, f, basis, all)?;
    if keeps(alloc, f, basis, &split, limits)? {
        Ok(Some(split))
    } else {
        Ok(None)
    }
}

// What is left where neither split with these sets keeps the limits, and the one without postprocessing exceeds this one
// first. Where preprocessing exceeds it by itself, so it does on more instructions, which are passed over.
fn left_after(
    alloc: Global,
    f: &Flat,
    basis: &Basis,
    limits: &Limits,
    count: usize,
    over: Over,
) -> Result<usize, NoMemory>
    requires bounded { IsBounded (program_of f.now) }
    requires basis { IsBasis f.now basis.now }
    requires nonempty { 0 < count }
    requires neither { (all : Bool) (other : List Part) → IsKept (program_of f.now) limits.now count all other → ⊥ }
    requires exceeded { IsExceeded (program_of f.now) limits.now count false over }
    ensures { IfOk result (λ left. IsLeft (program_of f.now) limits.now count left) }
{
    if is_of_preprocessing(&over) {
        most_left(alloc, f, basis, limits, count)
    } else {
        Ok(count - 1)
    }
}

// The same with postprocessing and else without it, or how many of the first instructions are left.
fn try_two(
    alloc: Global,
    f: &Flat,
    basis: &Basis,
    limits: &Limits,
    front: &Front,
) -> Result<Outcome, NoMemory>
    requires bounded { IsBounded (program_of f.now) }
    requires basis { IsBasis f.now basis.now }
    requires in_range { AreInRange limits.now }
    requires front { IsFront (program_of f.now) front.now }
    requires nonempty { 0 < front.now.count }
    ensures { IfOk result (λ outcome. IsStep (program_of f.now) limits.now front.now.count outcome) }
{
    if let Some(split) = find(alloc, f, basis, limits, front, true)? {
        return Ok(Outcome::Found(split));
    }
    match try_split(alloc, f, basis, limits, front, false)? {
        Tried::Kept(split) => Ok(Outcome::Found(split)),
        Tried::Exceeding(over) => {
            let left = left_after(alloc, f, basis, limits, front.count, over)?;
            Ok(Outcome::Left(left))
        }
    }
}

// The first split of those on so many instructions or fewer, where it is one on so many, or how many are left. Where
// preprocessing hasn't the last of them, these are the splits on one less.
fn step(
    alloc: Global,
    f: &Flat,
    basis: &Basis,
    limits: &Limits,
    front: &Front,
) -> Result<Outcome, NoMemory>
    requires bounded { IsBounded (program_of f.now) }
    requires basis { IsBasis f.now basis.now }
    requires in_range { AreInRange limits.now }
    requires front { IsFront (program_of f.now) front.now }
    requires nonempty { 0 < front.now.count }
    ensures { IfOk result (λ outcome. IsStep (program_of f.now) limits.now front.now.count outcome) }
{
    if front.has_last() {
        try_two(alloc, f, basis, limits, front)
    } else {
        Ok(Outcome::Left(front.count - 1))
    }
}

// The first split of the shrinking list that keeps the limits.
fn shrunk(alloc: Global, f: &Flat, basis: &Basis, limits: &Limits) -> Result<Split, NoMemory>
    requires bounded { IsBounded (program_of f.now) }
    requires basis { IsBasis f.now basis.now }
    requires in_range { AreInRange limits.now }
    ensures { IfOk result (λ split. IsChosen (program_of f.now) limits.now true split) }
{
    let mut front = Front::new(alloc, f, f.code.len())?;
    while front.count > 0 {
        match step(alloc, f, basis, limits, &front)? {
            Outcome::Found(split) => return Ok(split),
            Outcome::Left(count) => front.narrow_to(f, count),
        }
    }
    match find(alloc, f, basis, limits, &front, true)? {
        Some(split) => Ok(split),
        None => all_on_server(alloc, f),
    }
}

/// The split that the limits allow: the greatest one of all instructions, which is refused where it exceeds a limit, or
/// by shrinking the first that keeps the limits of those on all instructions, on all but the last, and so on, each with
/// postprocessing and then without it. The last of these has all on the server, so shrinking is never refused.
pub fn partition(
    alloc: Global,
    f: &Flat,
    limits: &Limits,
    shrink: bool,
) -> Result<Split, PartitionError>
    requires bounded { IsBounded (program_of f.now) }
    requires in_range { AreInRange limits.now }
    ensures chosen { IfOk result (λ split. IsChosen (program_of f.now) limits.now shrink split) }
    ensures refused { IfErr result (λ error. IsCause (program_of f.now) limits.now shrink error) }
    ensures legal { IfOk result (λ split. IsLegal (program_of f.now) split) }
    ensures keeps { IfOk result (λ split. KeepsLimits (program_of f.now) split limits.now) }
    ensures few_stages { IfOk result HasFewStages }
    ensures not_refused { (split : List Part) → IsChosen (program_of f.now) limits.now shrink split
        → IfErr result (λ error. error ≡ without_memory) }
    ensures not_chosen { (over : Over) → IsRefused (program_of f.now) limits.now shrink over
        → IfOk result (λ split. ⊥) }
{
    let basis = Basis::of(alloc, f)?;
    if shrink {
        let split = shrunk(alloc, f, &basis, limits)?;
        return Ok(split);
    }
    let front = Front::new(alloc, f, f.code.len())?;
    match try_split(alloc, f, &basis, limits, &front, true)? {
        Tried::Kept(split) => Ok(split),
        Tried::Exceeding(over) => Err(PartitionError::Exceeds(over)),
    }
}
