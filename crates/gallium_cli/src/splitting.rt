//! The split of a middlebox, as it is asked for.
ghost use Rattle.std.specs.Prelude.{◌≡◌, IfOk, IfErr, IsTrue};
ghost use Rattle.element_lang.specs.View.{tree};
ghost use Rattle.element_lang.specs.Rules.{is_good};
ghost use Rattle.flat_ir.specs.Program.{program_of};
ghost use Rattle.flatten.specs.Flatten.{flat_of};
ghost use Rattle.resource_limits.specs.Limits.{AreInRange};
ghost use Rattle.resource_limits.specs.Kept.{KeepsLimits};
ghost use Rattle.partition.specs.Choice.{IsChosen};
ghost use Rattle.split_model.specs.Bounds.{HasFewStages, IsBounded};
ghost use Rattle.split_model.specs.Legal.{IsLegal};
ghost use Rattle.gallium_cli.specs.Words.{ServerAlone, Within, Spelled, split_asked};
ghost use Rattle.gallium_cli.specs.Roles.{plan_files, plan_gates, given_gates, split_gates, split_reads};
ghost use Rattle.gallium_cli.specs.Answers.{IsPlan, IsSplitBy};
ghost use Rattle.gallium_cli.specs.Runnable.{IsRunnable};
ghost use Rattle.gallium_cli.specs.Causes.{HasRead, IsUnchosen};

use crate::exceeding::excess;
use crate::formats::{Flattened, LimitsFormat, ProgramFormat};
use crate::given::load_parts;
use crate::load::load;
use crate::refusal::Refusal;
use crate::words::SplitForm;
use flat_ir::Flat;
use gal_io::Files;
use partition::{PartitionError, all_on_server, partition};
use resource_limits::Limits;
use split_model::Split;
use std::alloc::Global;

/// A middlebox with its flat program, its split, and how many rows each write-back table has.
#[derive(Drop)]
pub struct SplitMiddlebox {
    pub program: Flattened,
    pub split: Split,
    pub writeback: u32,
}

// The flat program and the limits that two files spell.
fn load_plan<'a, F: Files>(
    alloc: Global,
    source: &'a str,
    limits: &'a str,
    files: &mut F,
) -> Result<(Flattened, Limits), Refusal<'a>>
    ensures ok { IfOk result (λ x. IsPlan (F.seen files.old).told source.now limits.now (tree x.0.middlebox) x.1) }
    ensures program { IfOk result (λ x. program_of x.0.flat ≡ flat_of (tree x.0.middlebox)) }
    ensures good { IfOk result (λ x. IsTrue (is_good (tree x.0.middlebox))) }
    ensures in_range { IfOk result (λ x. AreInRange x.1) }
    ensures reads { HasRead result (plan_files source.now limits.now) 2 (F.seen files.old) (F.seen files.new) }
{
    let program = load(alloc, files, &ProgramFormat, source)?;
    match load(alloc, files, &LimitsFormat, limits) {
        Ok(allowed) => Ok((program, allowed)),
        Err(refusal) => Err(refusal),
    }
}

/// The split that these limits allow.
pub fn choose(
    alloc: Global,
    f: &Flat,
    allowed: &Limits,
    shrink: bool,
) -> Result<Split, Refusal<'static>>
    requires bounded { IsBounded (program_of f.now) }
    requires in_range { AreInRange allowed.now }
    ensures chosen { IfOk result (λ split. IsChosen (program_of f.now) allowed.now shrink split) }
    ensures legal { IfOk result (λ split. IsLegal (program_of f.now) split) }
    ensures keeps { IfOk result (λ split. KeepsLimits (program_of f.now) split allowed.now) }
    ensures few_stages { IfOk result HasFewStages }
    ensures err { IfErr result (λ refusal. IsUnchosen refusal (program_of f.now) allowed.now shrink) }
{
    match partition(alloc, f, allowed, shrink) {
        Ok(split) => Ok(split),
        Err(PartitionError::Exceeds(over)) => {
            let told = excess(alloc, f.objects.as_slice(), over)?;
            Err(Refusal::Exceeded(told))
        }
        Err(PartitionError::NoMemory) => Err(Refusal::NoMemory),
    }
}

/// The split of what one file spells that is chosen within the limits that another tells.
pub fn load_within<'a, F: Files>(
    alloc: Global,
    source: &'a str,
    limits: &'a str,
    shrink: bool,
    files: &mut F,
) -> Result<SplitMiddlebox, Refusal<'a>>
    ensures ok { IfOk result (λ x. IsSplitBy (Within limits.now shrink) (F.seen files.old).told source.now
        (tree x.program.middlebox) x.split x.writeback) }
    ensures runnable { IfOk result (λ x.
        IsRunnable (tree x.program.middlebox) (program_of x.program.flat) x.split x.writeback) }
    ensures reads { HasRead result (plan_gates source.now limits.now shrink) 2
        (F.seen files.old) (F.seen files.new) }
{
    let (program, allowed) = load_plan(alloc, source, limits, files)?;
    let split = choose(alloc, &program.flat, &allowed, shrink)?;
    Ok(SplitMiddlebox {
        program,
        split,
        writeback: allowed.writeback,
    })
}

/// The split of what one file spells that another spells, which keeps the limits that a third tells.
pub fn load_given<'a, F: Files>(
    alloc: Global,
    source: &'a str,
    limits: &'a str,
    split: &'a str,
    files: &mut F,
) -> Result<SplitMiddlebox, Refusal<'a>>
    ensures ok { IfOk result (λ x. IsSplitBy (Spelled limits.now split.now) (F.seen files.old).told source.now
        (tree x.program.middlebox) x.split x.writeback) }
    ensures runnable { IfOk result (λ x.
        IsRunnable (tree x.program.middlebox) (program_of x.program.flat) x.split x.writeback) }
    ensures reads { HasRead result (given_gates source.now limits.now split.now) 3
        (F.seen files.old) (F.seen files.new) }
{
    let (flattened, allowed) = load_plan(alloc, source, limits, files)?;
    let parts = load_parts(alloc, &flattened.flat, &allowed, split, files)?;
    Ok(SplitMiddlebox {
        program: flattened,
        split: parts,
        writeback: allowed.writeback,
    })
}

// The middlebox that a file spells, with every instruction left to the server.
fn load_served<'a, F: Files>(
    alloc: Global,
    source: &'a str,
    files: &mut F,
) -> Result<SplitMiddlebox, Refusal<'a>>
    ensures ok { IfOk result (λ x. IsSplitBy ServerAlone (F.seen files.old).told source.now
        (tree x.program.middlebox) x.split x.writeback) }
    ensures runnable { IfOk result (λ x.
        IsRunnable (tree x.program.middlebox) (program_of x.program.flat) x.split x.writeback) }
    ensures reads { HasRead result (split_gates source.now ServerAlone) 1
        (F.seen files.old) (F.seen files.new) }
{
    let program = load(alloc, files, &ProgramFormat, source)?;
    match all_on_server(alloc, &program.flat) {
        Ok(split) => Ok(SplitMiddlebox {
            program,
            split,
            writeback: 0,
        }),
        Err(_) => Err(Refusal::NoMemory),
    }
}

/// The split of what a file spells that is asked for.
pub fn load_split<'a, F: Files>(
    alloc: Global,
    source: &'a str,
    split: SplitForm<'a>,
    files: &mut F,
) -> Result<SplitMiddlebox, Refusal<'a>>
    ensures ok { IfOk result (λ x. IsSplitBy (split_asked split.entry) (F.seen files.old).told source.now
        (tree x.program.middlebox) x.split x.writeback) }
    ensures runnable { IfOk result (λ x.
        IsRunnable (tree x.program.middlebox) (program_of x.program.flat) x.split x.writeback) }
    ensures reads { HasRead result (split_gates source.now (split_asked split.entry))
        (split_reads source.now (split_asked split.entry)) (F.seen files.old) (F.seen files.new) }
{
    match split {
        SplitForm::ServerAlone => load_served(alloc, source, files),
        SplitForm::Within(limits, shrink) => load_within(alloc, source, limits, shrink, files),
        SplitForm::Spelled(limits, split) => load_given(alloc, source, limits, split, files),
    }
}
