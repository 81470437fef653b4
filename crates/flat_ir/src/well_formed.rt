//! Whether a flat program is well formed.
ghost use Rattle.std.specs.Prelude.{◌≡◌, ◌↔◌, ◌<◌, ◌≤◌, length, nat_le, IsTrue};
ghost use Rattle.std.specs.List.{list_all};
ghost use Rattle.flat_ir.specs.Program.{work_of, program_of, step_at};
ghost use Rattle.flat_ir.specs.Blocks.{block_at, HasLowParents};
ghost use Rattle.flat_ir.specs.WellFormed.{IsWellFormed};
ghost use Rattle.flat_ir.specs.Tests.{all_below, low_parents, is_seen, is_good_block, is_in_arm, may_read, may_take};
ghost use Rattle.flat_ir.specs.Tests.{reads_well, are_before};
ghost use Rattle.flat_ir.specs.Tests.{is_good_instr, is_output, is_written, rise_from, is_good_out, well_formed};

use crate::blocks::is_above;
use crate::fits::{fits, is_named, width_of_value};
use crate::program::{Block, FieldValue, Flat, InstrKind, ValueId};
use packet_fields::{field_index, width, writable};

// Whether the block at a place stands below one with a lower number.
fn stands_low(blocks: &[Block], place: usize) -> bool
    requires { place < length blocks.now }
    ensures { result ≡ nat_le (block_at blocks.now place).parent place }
{
    blocks[place].parent as usize <= place
}

// Whether each block does.
fn has_low_parents(blocks: &[Block]) -> bool
    ensures { result ≡ low_parents blocks.now }
{
    for place in 0..blocks.len() {
        if !stands_low(blocks, place) {
            return false;
        }
    }
    true
}

// The block of a value.
fn block_of(f: &Flat, value: ValueId) -> u32
    ensures { result ≡ (step_at (program_of f.now) value.instruction).block }
{
    match f.code.as_slice().get(value.instruction as usize) {
        Some(instr) => instr.block,
        None => 0,
    }
}

// Whether a value stands in a block or above it.
fn is_seen(f: &Flat, block: u32, value: ValueId) -> bool
    requires parents { HasLowParents f.now.blocks }
    requires block_in_range { block ≤ length f.now.blocks }
    ensures { result ≡ is_seen (program_of f.now) block value }
{
    is_above(f.blocks.as_slice(), block_of(f, value), block)
}

// Whether the condition of the block at a place is there, has 1 bit, and stands in the parent or above it.
fn is_good_block(f: &Flat, place: usize) -> bool
    requires parents { HasLowParents f.now.blocks }
    requires within { place < length f.now.blocks }
    ensures { result ≡ is_good_block (program_of f.now) place }
{
    let block = f.blocks.as_slice()[place];
    is_named(f, block.cond)
        && width_of_value(f, block.cond) == 1
        && is_seen(f, block.parent, block.cond)
}

fn has_good_blocks(f: &Flat) -> bool
    requires parents { HasLowParents f.now.blocks }
    ensures { result ≡ all_below (length f.now.blocks) (is_good_block (program_of f.now)) }
{
    for place in 0..f.blocks.len() {
        if !is_good_block(f, place) {
            return false;
        }
    }
    true
}

// The select of which an arm is asked for: its block, its condition and the side's polarity.
#[derive(Clone, Copy)]
struct Side {
    block: u32,
    cond: ValueId,
    polarity: bool,
}

// Whether a block stands right below that of a select, and is live where the side is taken.
fn is_arm(blocks: &[Block], number: u32, side: Side) -> bool
    ensures { result ≡ is_in_arm blocks.now number side.block side.cond side.polarity }
{
    if number == 0 || number as usize > blocks.len() {
        return false;
    }
    let arm = blocks[number as usize - 1];
    arm.parent == side.block && arm.cond == side.cond && arm.polarity == side.polarity
}

// Whether an instruction of a block may read a value.
fn may_read(f: &Flat, i: usize, block: u32, value: ValueId) -> bool
    requires parents { HasLowParents f.now.blocks }
    requires block_in_range { block ≤ length f.now.blocks }
    ensures { result ≡ may_read (program_of f.now) i block value }
{
    (value.instruction as usize) < i && is_named(f, value) && is_seen(f, block, value)
}

fn may_read_all(f: &Flat, i: usize, block: u32, values: &[ValueId]) -> bool
    requires parents { HasLowParents f.now.blocks }
    requires block_in_range { block ≤ length f.now.blocks }
    ensures { result ≡ list_all (may_read (program_of f.now) i block) values.now }
{
    for value in values {
        if !may_read(f, i, block, *value) {
            return false;
        }
    }
    true
}

// Whether a select may take a value as one of its sides.
fn may_take(f: &Flat, i: usize, side: Side, value: ValueId) -> bool
    requires parents { HasLowParents f.now.blocks }
    requires block_in_range { side.block ≤ length f.now.blocks }
    ensures { result ≡ may_take (program_of f.now) i side.block side.cond side.polarity value }
{
    (value.instruction as usize) < i
        && is_named(f, value)
        && (is_seen(f, side.block, value) || is_arm(f.blocks.as_slice(), block_of(f, value), side))
}

fn reads_well(f: &Flat, i: usize, block: u32, kind: &InstrKind) -> bool
    requires parents { HasLowParents f.now.blocks }
    requires block_in_range { block ≤ length f.now.blocks }
    ensures { result ≡ reads_well (program_of f.now) i block (work_of kind.now) }
{
    match kind {
        InstrKind::Const(..) | InstrKind::Field(_) => true,
        InstrKind::Apply { args, .. } => may_read_all(f, i, block, args),
        InstrKind::Shift { arg, .. } => may_read(f, i, block, *arg),
        InstrKind::Select {
            cond,
            first,
            second,
            ..
        } => {
            let yes = Side {
                block,
                cond: *cond,
                polarity: true,
            };
            let no = Side {
                block,
                cond: *cond,
                polarity: false,
            };
            may_read(f, i, block, *cond)
                && may_take(f, i, yes, *first)
                && may_take(f, i, no, *second)
        }
        InstrKind::Byte(index) => may_read(f, i, block, *index),
        InstrKind::Look { keys, .. } | InstrKind::Del { keys, .. } => {
            may_read_all(f, i, block, keys)
        }
        InstrKind::Put { keys, values, .. } => {
            may_read_all(f, i, block, keys) && may_read_all(f, i, block, values)
        }
    }
}

// Whether the conditions of a block and of those above it stand before an instruction.
fn are_before(blocks: &[Block], i: usize, block: u32) -> bool
    requires parents { HasLowParents blocks.now }
    requires block_in_range { block ≤ length blocks.now }
    ensures { result ≡ are_before blocks.now i block }
{
    let mut number = block;
    while number > 0 {
        let at = blocks[number as usize - 1];
        if at.cond.instruction as usize >= i {
            return false;
        }
        number = at.parent;
    }
    true
}

fn is_good_instr(f: &Flat, i: usize) -> bool
    requires parents { HasLowParents f.now.blocks }
    requires within { i < length f.now.code }
    ensures { result ≡ is_good_instr (program_of f.now) i }
{
    let instr = &f.code.as_slice()[i];
    let block = instr.block;
    block as usize <= f.blocks.len()
        && are_before(f.blocks.as_slice(), i, block)
        && reads_well(f, i, block, &instr.kind)
        && fits(f, &instr.kind)
}

fn has_good_code(f: &Flat) -> bool
    requires parents { HasLowParents f.now.blocks }
    ensures { result ≡ all_below (length f.now.code) (is_good_instr (program_of f.now)) }
{
    for i in 0..f.code.len() {
        if !is_good_instr(f, i) {
            return false;
        }
    }
    true
}

// Whether a value is there, stands in the root, and has so many bits.
fn is_output(f: &Flat, bits: u64, value: ValueId) -> bool
    ensures { result ≡ is_output (program_of f.now) bits value }
{
    is_named(f, value) && block_of(f, value) == 0 && width_of_value(f, value) == bits
}

fn is_written(f: &Flat, written: FieldValue) -> bool
    ensures { result ≡ is_written (program_of f.now) written }
{
    writable(written.field) && is_output(f, u64::from(width(written.field).bits()), written.value)
}

fn are_written(f: &Flat, fields: &[FieldValue]) -> bool
    ensures { result ≡ list_all (is_written (program_of f.now)) fields.now }
{
    for written in fields {
        if !is_written(f, *written) {
            return false;
        }
    }
    true
}

// Whether fields stand in field order, each once.
fn are_in_order(fields: &[FieldValue]) -> bool
    ensures { result ≡ rise_from 0 fields.now }
{
    let mut least = 0;
    for written in fields {
        let place = field_index(written.field);
        if place < least {
            return false;
        }
        least = place + 1;
    }
    true
}

fn has_good_out(f: &Flat) -> bool
    ensures { result ≡ is_good_out (program_of f.now) }
{
    is_output(f, 1, f.out.send)
        && is_output(f, 8, f.out.port)
        && are_written(f, &f.out.fields)
        && are_in_order(&f.out.fields)
}

// Whether all tests hold.
fn is_good(f: &Flat) -> bool
    ensures { result ≡ well_formed (program_of f.now) }
{
    if !has_low_parents(f.blocks.as_slice()) {
        return false;
    }
    has_good_blocks(f) && has_good_code(f) && has_good_out(f)
}

/// Whether a flat program, whatever its numbers, is well formed: all that it names is there and fits, an instruction
/// stands behind those whose values it reads, in their block or below it, and the output stands in the root. This takes
/// no memory.
pub fn is_well_formed(f: &Flat) -> bool
    ensures { IsTrue result ↔ IsWellFormed (program_of f.now) }
{
    is_good(f)
}
