//! The nine rules of a legal split, each as a test of one instruction.
ghost use Rattle.std.specs.Prelude.{◌≡◌, ◌+◌, ◌<◌, ◌≤◌, ◌==◌, ◌||◌, not, length, IfOk};
ghost use Rattle.std.specs.List.{list_any};
ghost use Rattle.flat_ir.specs.Blocks.{line, same};
ghost use Rattle.flat_ir.specs.Kinds.{fits_switch, is_field, is_input, is_mutable_look};
ghost use Rattle.flat_ir.specs.Program.{program_of, step_of, work_of};
ghost use Rattle.flat_ir.specs.WellFormed.{IsWellFormed};
ghost use Rattle.split_model.specs.Legal.{breaks, is_misplaced, is_post_condition, rule_1, rule_2, rule_3, rule_4};
ghost use Rattle.split_model.specs.Legal.{rule_5, rule_6, rule_7, rule_8, rule_9};
ghost use Rattle.split_validate.specs.Flaws.{ArePostGuarded, stage_in};

use crate::operand::{Flaw, Pass};
use flat_ir::{Flat, Instr, InstrKind};
use gal_io::NoMemory;
use split_model::Split;
use std::alloc::Global;

// Whether the condition of block `k + 1`, or of one above it, is a value of postprocessing, by the marks of those up to
// block `k`.
fn is_guarded(f: &Flat, s: &Split, marks: &[bool], k: usize) -> bool
    requires formed { IsWellFormed (program_of f.now) }
    requires inside { k < length f.now.blocks }
    requires marks { ArePostGuarded (program_of f.now) s.now k marks.now }
    ensures { result ≡ list_any (is_post_condition (program_of f.now) s.now) (line f.now.blocks (k + 1)) }
{
    let block = f.blocks.as_slice()[k];
    let own = s.is_post(block.cond.instruction as usize);
    let above = marks[block.parent as usize];
    own || above
}

/// For each block, the root first, whether its condition or that of one above it is a value of postprocessing. It takes
/// one step a block.
pub(crate) fn post_guarded(alloc: Global, f: &Flat, s: &Split) -> Result<Vec<bool>, NoMemory>
    requires { IsWellFormed (program_of f.now) }
    ensures { IfOk result (λ marks. ArePostGuarded (program_of f.now) s.now (length f.now.blocks) marks.items) }
{
    let mut marks = vec![in alloc; false]?;
    for k in 0..f.blocks.len() {
        let mark = is_guarded(f, s, &marks, k);
        marks.push(mark)?;
    }
    Ok(marks)
}

// What the switch can't compute is in preprocessing.
fn breaks_1(f: &Flat, s: &Split, i: usize) -> bool
    requires { i < length f.now.code }
    ensures { result ≡ rule_1 (program_of f.now) s.now i }
{
    s.is_pre(i) && !f.code.as_slice()[i].fits_switch()
}

// Preprocessing lacks an operand.
fn breaks_2(f: &Flat, s: &Split, i: usize) -> bool
    requires { i < length f.now.code }
    ensures { result ≡ rule_2 (program_of f.now) s.now i }
{
    s.is_pre(i) && Flaw::NotBefore.is_in_needed(s, &f.code.as_slice()[i].kind)
}

// What preprocessing hasn't is carried.
fn breaks_3(f: &Flat, s: &Split, i: usize) -> bool
    ensures { result ≡ rule_3 (program_of f.now) s.now i }
{
    s.is_carried(i) && !s.is_pre(i)
}

// A look of rows that can change is carried.
fn breaks_4(f: &Flat, s: &Split, i: usize) -> bool
    requires { i < length f.now.code }
    ensures { result ≡ rule_4 (program_of f.now) s.now i }
{
    s.is_carried(i) && f.is_mutable_look(&f.code.as_slice()[i].kind)
}

// What is carried has an operand that isn't.
fn breaks_5(f: &Flat, s: &Split, i: usize) -> bool
    requires { i < length f.now.code }
    ensures { result ≡ rule_5 (program_of f.now) s.now i }
{
    s.is_carried(i) && Flaw::NotCarried.is_in(s, &f.code.as_slice()[i].kind)
}

// The server needs a value of postprocessing, as an operand or as the condition of a write.
fn breaks_6(f: &Flat, s: &Split, guarded: &[bool], i: usize) -> bool
    requires formed { IsWellFormed (program_of f.now) }
    requires guarded { ArePostGuarded (program_of f.now) s.now (length f.now.blocks) guarded.now }
    requires inside { i < length f.now.code }
    ensures { result ≡ rule_6 (program_of f.now) s.now i }
{
    let one = &f.code.as_slice()[i];
    let needs = s.is_server(i) && Flaw::InPost.is_in(s, &one.kind);
    needs || (one.kind.is_write() && guarded[one.block as usize])
}

// Whether postprocessing can't have an instruction, by its kind.
fn is_out_of_post(f: &Flat, one: &Instr) -> bool
    ensures { result ≡ (not (fits_switch (step_of one.now))
        || (is_mutable_look (program_of f.now) (work_of one.now.kind) || is_field (work_of one.now.kind))) }
{
    !one.fits_switch() || (f.is_mutable_look(&one.kind) || one.kind.is_field())
}

// What the switch can't compute without mutable rows and the packet is in postprocessing.
fn breaks_7(f: &Flat, s: &Split, i: usize) -> bool
    requires { i < length f.now.code }
    ensures { result ≡ rule_7 (program_of f.now) s.now i }
{
    s.is_post(i) && is_out_of_post(f, &f.code.as_slice()[i])
}

// A write isn't the server's alone.
fn breaks_8(f: &Flat, s: &Split, i: usize) -> bool
    requires { i < length f.now.code }
    ensures { result ≡ rule_8 (program_of f.now) s.now i }
{
    f.code.as_slice()[i].kind.is_write() && (s.is_pre(i) || !s.is_server(i))
}

// Whether a stage doesn't fit an instruction: consts and fields have stage 0, and all others have later ones.
fn is_odd_stage(kind: &InstrKind, own: u32) -> bool
    ensures { result ≡ not (same (is_input (work_of kind.now)) (own == 0)) }
{
    if kind.is_input() { own != 0 } else { own == 0 }
}

// Whether the stage of an instruction in a pass doesn't fit it or its operands.
fn is_misplaced(f: &Flat, s: &Split, pass: Pass, i: usize) -> bool
    requires { i < length f.now.code }
    ensures { result ≡ is_misplaced (program_of f.now) (stage_in pass s.now) i (stage_in pass s.now i) }
{
    let kind = &f.code.as_slice()[i].kind;
    match pass.stage(s, i) {
        Some(own) => is_odd_stage(kind, own) || Flaw::NotBelow(pass, own).is_in(s, kind),
        None => false,
    }
}

// Stages don't rise in one of the passes.
fn breaks_9(f: &Flat, s: &Split, i: usize) -> bool
    requires { i < length f.now.code }
    ensures { result ≡ rule_9 (program_of f.now) s.now i }
{
    is_misplaced(f, s, Pass::Before, i) || is_misplaced(f, s, Pass::After, i)
}

/// How many rules there are.
pub(crate) const RULES: u8 = 9;

/// Whether an instruction breaks the rule of a number, from 1. It takes one step an operand.
pub(crate) fn breaks(rule: u8, f: &Flat, s: &Split, guarded: &[bool], i: usize) -> bool
    requires rule { (1 ≤ rule) × (rule ≤ 9) }
    requires formed { IsWellFormed (program_of f.now) }
    requires guarded { ArePostGuarded (program_of f.now) s.now (length f.now.blocks) guarded.now }
    requires inside { i < length f.now.code }
    ensures { result ≡ breaks rule (program_of f.now) s.now i }
{
    match rule {
        1 => breaks_1(f, s, i),
        2 => breaks_2(f, s, i),
        3 => breaks_3(f, s, i),
        4 => breaks_4(f, s, i),
        5 => breaks_5(f, s, i),
        6 => breaks_6(f, s, guarded, i),
        7 => breaks_7(f, s, i),
        8 => breaks_8(f, s, i),
        9 => breaks_9(f, s, i),
        _ => unreachable!(),
    }
}
