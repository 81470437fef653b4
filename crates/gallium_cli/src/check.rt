//! What a split takes that a file spells.
ghost use Rattle.std.specs.Prelude.{◌≡◌, Some, IfOk};
ghost use Rattle.flat_ir.specs.Program.{program_of};
ghost use Rattle.split_model.specs.Bounds.{IsBounded};
ghost use Rattle.switch_ir.specs.Port.{PortState};
ghost use Rattle.gallium_cli.specs.Words.{Check};
ghost use Rattle.gallium_cli.specs.Call.{work_of};
ghost use Rattle.gallium_cli.specs.Answers.{checked_text};
ghost use Rattle.gallium_cli.specs.Causes.{HasEnded};

use crate::output::put;
use crate::refusal::Refusal;
use crate::splitting::load_given;
use flat_ir::Flat;
use gal_io::{Files, NoMemory, Sink, Text};
use resource_limits::count;
use split_model::Split;
use split_validate::print_counts;
use std::alloc::Global;

// The line of a split that may be taken.
fn checked(alloc: Global, f: &Flat, split: &Split, writeback: u32) -> Result<Text, NoMemory>
    requires { IsBounded (program_of f.now) }
    ensures { IfOk result (λ text. text ≡ checked_text (program_of f.now) split.now writeback) }
{
    let counts = count(alloc, f, split, writeback)?;
    let words = print_counts(alloc, &counts)?;
    let mut text = Text::from_slice(alloc, b"ok ")?;
    text.extend(words.as_slice())?;
    text.extend(b"\n")?;
    Ok(text)
}

/// Reads a split of what one file spells, and writes what it takes, where it is legal and keeps the limits that another
/// file tells.
pub fn perform_check<'a, F: Files, O: Sink>(
    alloc: Global,
    source: &'a str,
    limits: &'a str,
    split: &'a str,
    files: &mut F,
    out: &mut O,
) -> Result<(), Refusal<'a>>
    ensures { (port : PortState) → HasEnded result (Some (Check source.now limits.now split.now))
        (work_of (F.seen files.old) (F.seen files.new) port port (O.seen out.old) (O.seen out.new)) }
{
    let middlebox = load_given(alloc, source, limits, split, files)?;
    let flat = &middlebox.program.flat;
    let Ok(text) = checked(alloc, flat, &middlebox.split, middlebox.writeback) else {
        return Err(Refusal::NoMemory);
    };
    put(out, text.as_slice())
}
