//! Splits that a file spells.
ghost use Rattle.std.specs.Prelude.{◌≡◌, length, IfOk, IfErr, OnOk};
ghost use Rattle.flat_ir.specs.Program.{program_of};
ghost use Rattle.resource_limits.specs.declared.limits.Limits.{Limits as LimitsTold};
ghost use Rattle.split_model.specs.Bounds.{HasFewStages, IsBounded};
ghost use Rattle.split_validate.specs.SplitLines.{IsSplitText};
ghost use Rattle.split_validate.specs.Validated.{IsAccepted, IsCause};
ghost use Rattle.gallium_cli.specs.Lines.{status_of};
ghost use Rattle.gallium_cli.specs.Roles.{legal_split};
ghost use Rattle.gallium_cli.specs.Answers.{IsGivenSplit};
ghost use Rattle.gallium_cli.specs.Loads.{LeavesFiles, IsFileRefused, IsUnread, raised_by};

use crate::exceeding::excess;
use crate::load::{Format, MAX_TEXT, load};
use crate::refusal::{Refusal, SplitFault};
use crate::status::Status;
use flat_ir::Flat;
use gal_io::Files;
use resource_limits::Limits;
use split_model::Split;
use split_validate::{Illegal, SplitTextError, read_split, validate};
use std::alloc::Global;

/// The text of a legal split of this program that keeps these limits.
#[derive(Drop)]
pub struct SplitFormat<'f> {
    pub flat: &'f Flat,
    pub allowed: &'f Limits,
}

// The split that a text spells, legal or not.
fn read(alloc: Global, f: &Flat, text: &[u8]) -> Result<Split, Refusal<'static>>
    requires { IsBounded (program_of f.now) }
    ensures ok { IfOk result (IsSplitText (length (program_of f.now).code) text.now) }
    ensures parts { IfOk result (λ split. length split ≡ length f.now.code) }
    ensures few_stages { IfOk result HasFewStages }
    ensures err { (allowed : LimitsTold) → IfErr result (λ refusal.
        IsUnread refusal (legal_split (program_of f.now) allowed) text.now) }
{
    match read_split(alloc, f, text) {
        Ok(split) => Ok(split),
        Err(SplitTextError::Line(number)) => Err(Refusal::Split(SplitFault::Line(number))),
        Err(SplitTextError::NoMemory) => Err(Refusal::NoMemory),
    }
}

// The refusal of a text whose split isn't taken.
fn told(
    alloc: Global,
    f: &Flat,
    allowed: &Limits,
    split: &Split,
    text: &[u8],
    cause: Illegal,
) -> Refusal<'static>
    requires bounded { IsBounded (program_of f.now) }
    requires spelled { IsSplitText (length (program_of f.now).code) text.now split.now }
    requires cause { IsCause (program_of f.now) split.now allowed.now cause }
    ensures { IsUnread result (legal_split (program_of f.now) allowed.now) text.now }
{
    match cause {
        Illegal::Rule { rule, instruction } => {
            Refusal::Split(SplitFault::Rule { rule, instruction })
        }
        Illegal::Exceeds(over) => match excess(alloc, f.objects.as_slice(), over) {
            Ok(told) => Refusal::Exceeded(told),
            Err(_) => Refusal::NoMemory,
        },
        Illegal::NoMemory => Refusal::NoMemory,
    }
}

// The split that a text spells, where it is legal and keeps the limits.
fn read_kept(
    alloc: Global,
    f: &Flat,
    allowed: &Limits,
    text: &[u8],
) -> Result<Split, Refusal<'static>>
    requires { IsBounded (program_of f.now) }
    ensures ok { IfOk result (IsSplitText (length (program_of f.now).code) text.now) }
    ensures accepted { IfOk result (λ split. IsAccepted (program_of f.now) split allowed.now) }
    ensures few_stages { IfOk result HasFewStages }
    ensures err { IfErr result (λ refusal.
        IsUnread refusal (legal_split (program_of f.now) allowed.now) text.now) }
{
    let split = read(alloc, f, text)?;
    match validate(alloc, f, &split, allowed) {
        Ok(_) => Ok(split),
        Err(cause) => Err(told(alloc, f, allowed, &split, text, cause)),
    }
}

impl<'f> Format for SplitFormat<'f> {
    type Value = Split;

    ghost role = { λ format. legal_split (program_of format.flat.now) format.allowed.now };

    ghost spells = { λ format text split. IsSplitText (length (program_of format.flat.now).code) text split };

    ghost sound = { λ format split. IsAccepted (program_of format.flat.now) split format.allowed.now
        × HasFewStages split };

    ghost ready = { λ format. IsBounded (program_of format.flat.now) };

    fn size(&self) -> usize {
        MAX_TEXT
    }

    fn read(&self, alloc: Global, text: &[u8]) -> Result<Split, Refusal<'static>> {
        read_kept(alloc, self.flat, self.allowed, text)
    }
}

/// The split of a program that a file spells, which is legal and keeps these limits.
pub fn load_parts<'a, F: Files>(
    alloc: Global,
    f: &Flat,
    allowed: &Limits,
    name: &'a str,
    files: &mut F,
) -> Result<Split, Refusal<'a>>
    requires { IsBounded (program_of f.now) }
    ensures ok { IfOk result (λ split.
        IsGivenSplit (F.seen files.old).told name.now (program_of f.now) allowed.now split) }
    ensures few_stages { IfOk result HasFewStages }
    ensures err { IfErr result (λ refusal. IsFileRefused refusal (legal_split (program_of f.now) allowed.now) name.now
        (F.seen files.old) (F.seen files.new)) }
    ensures stays { OnOk result (LeavesFiles Status.Done (F.seen files.old) (F.seen files.new)) }
    ensures fault { IfErr result (λ refusal.
        LeavesFiles (status_of refusal) (F.seen files.old) (F.seen files.new)) }
    ensures read { (F.seen files.new).reads ≡ raised_by 1 (F.seen files.old).reads }
{
    let format = SplitFormat { flat: f, allowed };
    load(alloc, files, &format, name)
}
