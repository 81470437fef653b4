//! What a split takes of the switch.
ghost use Rattle.std.specs.Prelude.{◌≡◌, ℕ, ◌+◌, ◌<◌, ◌≤◌, ◌^◌, length, slice_index, All, IfOk};
ghost use Rattle.flat_ir.specs.Program.{program_of};
ghost use Rattle.gal_bits.specs.Fitting.{sum_of};
ghost use Rattle.split_model.specs.Bounds.{IsBounded, IsSmall};
ghost use Rattle.split_model.specs.Counts.{stages, transfer_bytes};
ghost use Rattle.split_model.specs.Crossing.{guards_write};
ghost use Rattle.split_model.specs.Marked.{AreMarked};
ghost use Rattle.resource_limits.specs.Counts.{counts_of, first_numbers};
ghost use Rattle.resource_limits.specs.Uses.{told_at, told_of, TakeBits, TakesBits};

use crate::tally::Tally;
use crate::uses::{Use, tally};
use flat_ir::Flat;
use gal_bits::Widths;
use gal_io::NoMemory;
use split_model::{Layouts, Split, ValueSet, guard_values, layout_bytes, stage_or_zero};
use state_store::{Kind, ObjectDecl};
use std::alloc::Global;

/// What a split takes of the switch.
#[derive(Drop)]
pub struct Counts {
    /// For each object, the instructions of either pass that look it up. One that stands in both passes counts twice.
    pub accesses: Tally,
    /// The highest stage of either pass, and 0 where no instruction has one.
    pub stages: u32,
    /// The bits of all tables, those of write-back tables among them.
    pub table_bits: u64,
    /// For each object that the switch has to be told of, the instructions that change its rows, and 0 for each other.
    pub writes: Tally,
    /// The bytes of the longer header, up or down.
    pub transfer_bytes: u32,
}

impl Counts {
    /// The same counts again, in memory of their own.
    pub fn copy(&self, alloc: Global) -> Result<Counts, NoMemory>
        ensures { IfOk result (λ made. made ≡ self.now) }
    {
        Ok(Counts {
            accesses: self.accesses.copy(alloc)?,
            stages: self.stages,
            table_bits: self.table_bits,
            writes: self.writes.copy(alloc)?,
            transfer_bytes: self.transfer_bytes,
        })
    }
}

// The highest stage of either pass.
fn stages(f: &Flat, s: &Split) -> u32
    ensures { result ≡ stages (program_of f.now) s.now }
{
    let mut highest = 0;
    for i in 0..f.code.len() {
        let before = stage_or_zero(s.stage_before(i));
        let after = stage_or_zero(s.stage_after(i));
        highest = highest.max(before.max(after));
    }
    highest
}

// For each object, how often the two passes look it up.
fn sums(alloc: Global, before: &[u32], after: &[u32]) -> Result<Tally, NoMemory>
    requires few_counts { length before.now < 2 ^ 32 }
    requires same { length before.now ≡ length after.now }
    requires bounded_sums { (o : ℕ) → slice_index before.now o + slice_index after.now o < 2 ^ 32 }
    ensures { IfOk result (λ made. made
        ≡ first_numbers (length before.now) (λ o. slice_index before.now o + slice_index after.now o)) }
{
    let mut sums = Vec::with_capacity(alloc, before.len())?;
    for o in 0..before.len() {
        sums.push(before[o] + after[o])?;
    }
    Ok(Tally::of(sums))
}

// The changes of an object of this kind, where preprocessing looks it up and it isn't a constant table.
fn told_of(kind: Kind, looks: u32, changes: u32) -> u32
    ensures { result ≡ told_of kind looks changes }
{
    if kind.is_table() || looks == 0 {
        0
    } else {
        changes
    }
}

// For each object, its changes where the switch has to be told of them.
fn told(
    alloc: Global,
    objects: &[ObjectDecl],
    before: &[u32],
    changes: &[u32],
) -> Result<Tally, NoMemory>
    requires few_objects { length objects.now < 2 ^ 32 }
    requires same { length before.now ≡ length objects.now }
    requires same_changes { length changes.now ≡ length objects.now }
    ensures { IfOk result (λ made. made
        ≡ first_numbers (length objects.now) (λ o. told_at objects.now before.now changes.now o)) }
{
    let mut told = Vec::with_capacity(alloc, objects.len())?;
    for o in 0..objects.len() {
        told.push(told_of(objects[o].kind, before[o], changes[o]))?;
    }
    Ok(Tally::of(told))
}

// The bits of one row of these widths.
fn bits_of(widths: &Widths) -> u64
    requires { sum_of widths.now ≤ 128 }
    ensures { result ≡ sum_of widths.now }
{
    let mut bits = 0;
    for width in widths.as_slice() {
        bits += *width;
    }
    bits
}

// The bits of an object's tables on the switch, by whether preprocessing and postprocessing look it up.
fn object_bits(d: &ObjectDecl, before: bool, after: bool, writeback: u32) -> u64
    requires { IsSmall d.now }
    ensures bounded { result ≤ 2 ^ 48 }
    ensures exact { TakesBits d.now before after writeback result }
{
    let bits = bits_of(&d.keys) + bits_of(&d.values);
    let rows = u64::from(d.size) * bits;
    if d.kind.is_table() {
        if before || after { rows } else { 0 }
    } else if before {
        rows + u64::from(writeback) * (bits + 1)
    } else {
        0
    }
}

// The bits of all tables on the switch.
fn table_bits(objects: &[ObjectDecl], before: &[u32], after: &[u32], writeback: u32) -> u64
    requires few_objects { length objects.now ≤ 64 }
    requires small { All IsSmall objects.now }
    requires same { length before.now ≡ length objects.now }
    requires same_after { length after.now ≡ length objects.now }
    ensures { TakeBits objects.now before.now after.now writeback result }
{
    let mut bits = 0;
    for o in 0..objects.len() {
        bits += object_bits(&objects[o], before[o] > 0, after[o] > 0, writeback);
    }
    bits
}

// The bytes of the longer header, up or down, by what decides on the program's writes.
fn transfer_bytes(alloc: Global, f: &Flat, s: &Split, guards: &ValueSet) -> Result<u32, NoMemory>
    requires bounded { IsBounded (program_of f.now) }
    requires guards { AreMarked (length f.now.code) (guards_write (program_of f.now)) guards.now }
    ensures { IfOk result (λ bytes. bytes ≡ transfer_bytes (program_of f.now) s.now) }
{
    let layouts = Layouts::find(alloc, f, s, guards)?;
    let up = layout_bytes(layouts.up.as_slice()) as u32;
    let down = layout_bytes(layouts.down.as_slice()) as u32;
    Ok(up.max(down))
}

/// What a split takes of the switch, where each write-back table has room for so many rows. It takes one step an
/// operand, a value, an object and a block.
pub fn count(alloc: Global, f: &Flat, s: &Split, writeback: u32) -> Result<Counts, NoMemory>
    requires { IsBounded (program_of f.now) }
    ensures { IfOk result (λ counts. counts ≡ counts_of (program_of f.now) s.now writeback) }
{
    let guards = guard_values(alloc, f)?;
    count_by_guards(alloc, f, s, &guards, writeback)
}

/// The same by what decides on the program's writes, which hangs on no split. It takes one step an operand, a value and
/// an object.
pub fn count_by_guards(
    alloc: Global,
    f: &Flat,
    s: &Split,
    guards: &ValueSet,
    writeback: u32,
) -> Result<Counts, NoMemory>
    requires bounded { IsBounded (program_of f.now) }
    requires guards { AreMarked (length f.now.code) (guards_write (program_of f.now)) guards.now }
    ensures { IfOk result (λ counts. counts ≡ counts_of (program_of f.now) s.now writeback) }
{
    let objects = f.objects.as_slice();
    let before = tally(alloc, f, s, Use::Before)?;
    let after = tally(alloc, f, s, Use::After)?;
    let changes = tally(alloc, f, s, Use::Change)?;
    Ok(Counts {
        accesses: sums(alloc, &before, &after)?,
        stages: stages(f, s),
        table_bits: table_bits(objects, &before, &after, writeback),
        writes: told(alloc, objects, &before, &changes)?,
        transfer_bytes: transfer_bytes(alloc, f, s, guards)?,
    })
}
