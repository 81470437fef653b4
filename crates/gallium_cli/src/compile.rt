//! The text that tells the split of a middlebox.
ghost use Rattle.std.specs.Prelude.{◌≡◌, Some, IfOk, length};
ghost use Rattle.flat_ir.specs.Program.{program_of};
ghost use Rattle.split_model.specs.Bounds.{IsBounded};
ghost use Rattle.switch_ir.specs.Port.{PortState};
ghost use Rattle.gallium_cli.specs.Words.{Compile};
ghost use Rattle.gallium_cli.specs.Call.{work_of};
ghost use Rattle.gallium_cli.specs.Answers.{heading_text, compiled_text};
ghost use Rattle.gallium_cli.specs.Causes.{HasEnded};

use crate::output::put;
use crate::refusal::Refusal;
use crate::splitting::load_within;
use flat_ir::{Flat, print_flat};
use gal_io::{Files, NoMemory, Sink, Text};
use resource_limits::count;
use split_model::Split;
use split_validate::{print_counts, print_split};
use std::alloc::Global;

// How many instructions a program has, and in these words what its split takes.
fn heading(alloc: Global, number: usize, words: &[u8]) -> Result<Text, NoMemory>
    ensures { IfOk result (λ text. text ≡ heading_text number words.now) }
{
    let first = format!(in alloc; "# instructions {number}\n# ")?;
    let mut text = Text::from_slice(alloc, first.as_bytes())?;
    text.extend(words)?;
    text.push(b'\n')?;
    Ok(text)
}

// The text that tells a split.
fn compiled(alloc: Global, f: &Flat, split: &Split, writeback: u32) -> Result<Text, NoMemory>
    requires bounded { IsBounded (program_of f.now) }
    requires parts { length split.now ≡ length f.now.code }
    ensures { IfOk result (λ text. text ≡ compiled_text (program_of f.now) split.now writeback) }
{
    let counts = count(alloc, f, split, writeback)?;
    let words = print_counts(alloc, &counts)?;
    let listing = print_flat(alloc, f)?;
    let parts = print_split(alloc, split)?;
    let mut text = heading(alloc, f.code.len(), words.as_slice())?;
    text.extend(listing.as_slice())?;
    text.extend(parts.as_slice())?;
    Ok(text)
}

/// Splits what one file spells within the limits that another tells, and writes the split.
pub fn perform_compile<'a, F: Files, O: Sink>(
    alloc: Global,
    source: &'a str,
    limits: &'a str,
    shrink: bool,
    files: &mut F,
    out: &mut O,
) -> Result<(), Refusal<'a>>
    ensures { (port : PortState) → HasEnded result (Some (Compile source.now limits.now shrink))
        (work_of (F.seen files.old) (F.seen files.new) port port (O.seen out.old) (O.seen out.new)) }
{
    let middlebox = load_within(alloc, source, limits, shrink, files)?;
    let flat = &middlebox.program.flat;
    let Ok(text) = compiled(alloc, flat, &middlebox.split, middlebox.writeback) else {
        return Err(Refusal::NoMemory);
    };
    put(out, text.as_slice())
}
