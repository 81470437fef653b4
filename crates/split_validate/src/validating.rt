//! Whether a split may be taken.
ghost use Rattle.std.specs.Prelude.{◌≡◌, ◌<◌, ◌≤◌, ℕ, length, MatchOption, IfOk, IfErr};
ghost use Rattle.flat_ir.specs.Program.{program_of};
ghost use Rattle.resource_limits.specs.Counts.{counts_of};
ghost use Rattle.split_model.specs.Bounds.{IsBounded};
ghost use Rattle.split_model.specs.Legal.{IsFirstBroken};
ghost use Rattle.split_validate.specs.Flaws.{ArePostGuarded, IsFirstOf, KeepsRule};
ghost use Rattle.split_validate.specs.Validated.{IsAccepted, IsCause};

use crate::rules::{RULES, breaks, post_guarded};
use flat_ir::Flat;
use gal_io::NoMemory;
use resource_limits::{Counts, Limits, Over, count, first_exceeded};
use split_model::Split;
use std::alloc::Global;
use thiserror::Error;

/// Why a split isn't taken.
#[derive(Clone, Copy, Debug, PartialEq, Eq, Error)]
pub enum Illegal {
    /// The lowest of the nine rules that the split breaks, from 1, and the first instruction that breaks it, from 0.
    #[error("rule {rule} is broken at {instruction}")]
    Rule { rule: u8, instruction: u32 },
    /// No rule is broken, and this limit is the first that is exceeded.
    #[error("a limit is exceeded")]
    Exceeds(Over),
    /// No memory was found.
    #[error("no memory")]
    NoMemory,
}

impl From<NoMemory> for Illegal {
    ghost use Rattle.split_validate.specs.declared.validating.Illegal.{Illegal};

    ghost from_gives = { λ _ e. e ≡ Illegal.NoMemory };

    fn from(_: NoMemory) -> Illegal {
        Illegal::NoMemory
    }
}

// The first instruction that breaks a rule.
fn first_of(rule: u8, f: &Flat, s: &Split, guarded: &[bool]) -> Option<usize>
    requires rule { (1 ≤ rule) × (rule ≤ 9) }
    requires bounded { IsBounded (program_of f.now) }
    requires guarded { ArePostGuarded (program_of f.now) s.now (length f.now.blocks) guarded.now }
    ensures { MatchOption result (KeepsRule (program_of f.now) s.now rule (length f.now.code))
        (IsFirstOf (program_of f.now) s.now rule) }
{
    for i in 0..f.code.len() {
        if breaks(rule, f, s, guarded, i) {
            return Some(i);
        }
    }
    None
}

// A rule, and an instruction that breaks it.
#[derive(Clone, Copy)]
struct Broken {
    rule: u8,
    instruction: u32,
}

// The lowest broken rule, and the first instruction that breaks it.
fn first_broken(f: &Flat, s: &Split, guarded: &[bool]) -> Option<Broken>
    requires bounded { IsBounded (program_of f.now) }
    requires guarded { ArePostGuarded (program_of f.now) s.now (length f.now.blocks) guarded.now }
    ensures { MatchOption result ((rule : ℕ) → KeepsRule (program_of f.now) s.now rule (length f.now.code))
        (λ broken. IsFirstBroken (program_of f.now) s.now broken.rule broken.instruction) }
{
    for rule in 1..RULES + 1 {
        if let Some(i) = first_of(rule, f, s, guarded) {
            return Some(Broken {
                rule,
                instruction: i as u32,
            });
        }
    }
    None
}

/// Whether a split of a program is legal and keeps the limits; the answer is then what it takes. The rules come before
/// the limits. It takes one step an operand, a value, an object and a block for each rule.
pub fn validate(alloc: Global, f: &Flat, s: &Split, l: &Limits) -> Result<Counts, Illegal>
    requires bounded { IsBounded (program_of f.now) }
    requires parts { length s.now ≡ length f.now.code }
    ensures accepted { IfOk result (λ _. IsAccepted (program_of f.now) s.now l.now) }
    ensures counts { IfOk result (λ counts. counts ≡ counts_of (program_of f.now) s.now l.now.writeback) }
    ensures refused { IfErr result (IsCause (program_of f.now) s.now l.now) }
    ensures not_refused { IsAccepted (program_of f.now) s.now l.now → IfErr result (λ e. e ≡ Illegal.NoMemory) }
{
    let guarded = post_guarded(alloc, f, s)?;
    if let Some(broken) = first_broken(f, s, &guarded) {
        return Err(Illegal::Rule {
            rule: broken.rule,
            instruction: broken.instruction,
        });
    }
    let counts = count(alloc, f, s, l.writeback)?;
    match first_exceeded(&counts, l) {
        None => Ok(counts),
        Some(over) => Err(Illegal::Exceeds(over)),
    }
}
