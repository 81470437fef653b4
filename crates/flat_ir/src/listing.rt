//! The listing of a flat program.
ghost use Rattle.std.specs.Prelude.{◌≡◌, ◌++◌, map, IfOk, OnOk, string_bytes};
ghost use Rattle.flat_ir.specs.Program.{work_of, step_of, program_of};
ghost use Rattle.flat_ir.specs.Listing.{block_line, block_lines, keyed_text, listing, loop_mark, name_of};
ghost use Rattle.flat_ir.specs.Listing.{operator_text, polarity_text};
ghost use Rattle.flat_ir.specs.Listing.{send_line, step_line, step_lines, value_text, values_text, work_text};
ghost use Rattle.flat_ir.specs.Listing.{write_line, write_lines};

use crate::program::{Block, FieldValue, Flat, Instr, InstrKind, Out, ValueId};
use gal_bits::{Op, Width, op_name};
use gal_io::{NoMemory, Text};
use packet_fields::field_name;
use state_store::ObjectDecl;
use std::alloc::Global;

fn value_text(alloc: Global, value: ValueId) -> Result<String, NoMemory>
    ensures { IfOk result (λ text. string_bytes text ≡ value_text value) }
{
    let (instruction, place) = (value.instruction, value.result);
    Ok(format!(in alloc; "{instruction}.{place}")?)
}

// Each value after a space.
fn put_values(alloc: Global, values: &[ValueId], text: &mut Text) -> Result<(), NoMemory>
    ensures { OnOk result (text.new ≡ text.old ++ values_text values.now) }
{
    for value in values {
        text.push(b' ')?;
        text.extend(value_text(alloc, *value)?.as_bytes())?;
    }
    Ok(())
}

fn put_operator(
    alloc: Global,
    op: Op,
    width: Width,
    args: &[ValueId],
    text: &mut Text,
) -> Result<(), NoMemory>
    ensures { OnOk result (text.new ≡ text.old ++ operator_text op width args.now) }
{
    text.extend(op_name(op).as_bytes())?;
    let bits = width.bits();
    text.extend(format!(in alloc; " {bits}")?.as_bytes())?;
    put_values(alloc, args, text)
}

// The name of the object of a number.
fn name_of(objects: &[ObjectDecl], object: u32) -> &[u8]
    ensures { result.now ≡ name_of objects.now object }
{
    match objects.get(object as usize) {
        Some(declared) => declared.name.as_slice(),
        None => b"",
    }
}

// A word, an object's name and a key.
fn put_keyed(
    alloc: Global,
    word: &[u8],
    objects: &[ObjectDecl],
    object: u32,
    keys: &[ValueId],
    text: &mut Text,
) -> Result<(), NoMemory>
    ensures { OnOk result (text.new ≡ text.old ++ keyed_text word.now objects.now object keys.now) }
{
    text.extend(word)?;
    text.push(b' ')?;
    text.extend(name_of(objects, object))?;
    put_values(alloc, keys, text)
}

fn put_work(
    alloc: Global,
    objects: &[ObjectDecl],
    kind: &InstrKind,
    text: &mut Text,
) -> Result<(), NoMemory>
    ensures { OnOk result (text.new ≡ text.old ++ work_text objects.now (work_of kind.now)) }
{
    match kind {
        InstrKind::Const(width, number) => {
            let bits = width.bits();
            text.extend(format!(in alloc; "const {bits} {number}")?.as_bytes())
        }
        InstrKind::Field(field) => {
            text.extend(b"field ")?;
            text.extend(field_name(*field).as_bytes())
        }
        InstrKind::Apply { op, width, args } => put_operator(alloc, *op, *width, args, text),
        InstrKind::Shift { op, width, arg, by } => {
            put_operator(alloc, *op, *width, &[*arg], text)?;
            text.extend(format!(in alloc; " {by}")?.as_bytes())
        }
        InstrKind::Select {
            width,
            cond,
            first,
            second,
        } => put_operator(alloc, Op::Select, *width, &[*cond, *first, *second], text),
        InstrKind::Byte(index) => {
            text.extend(b"byte ")?;
            text.extend(value_text(alloc, *index)?.as_bytes())
        }
        InstrKind::Look { object, keys } => put_keyed(alloc, b"look", objects, *object, keys, text),
        InstrKind::Put {
            object,
            keys,
            values,
        } => {
            put_keyed(alloc, b"put", objects, *object, keys, text)?;
            put_values(alloc, values, text)
        }
        InstrKind::Del { object, keys } => put_keyed(alloc, b"del", objects, *object, keys, text),
    }
}

fn loop_mark(looped: bool) -> &'static [u8]
    ensures { result.now ≡ loop_mark looped }
{
    if looped { b" loop" } else { b"" }
}

fn put_step(
    alloc: Global,
    objects: &[ObjectDecl],
    number: usize,
    instr: &Instr,
    text: &mut Text,
) -> Result<(), NoMemory>
    ensures { OnOk result (text.new ≡ text.old ++ step_line objects.now number (step_of instr.now)) }
{
    let block = instr.block;
    text.extend(format!(in alloc; "# {number} b{block} ")?.as_bytes())?;
    put_work(alloc, objects, &instr.kind, text)?;
    text.extend(loop_mark(instr.looped))?;
    text.push(b'\n')
}

fn put_steps(
    alloc: Global,
    objects: &[ObjectDecl],
    code: &[Instr],
    text: &mut Text,
) -> Result<(), NoMemory>
    ensures { OnOk result (text.new ≡ text.old ++ step_lines objects.now 0 (map step_of code.now)) }
{
    for number in 0..code.len() {
        put_step(alloc, objects, number, &code[number], text)?;
    }
    Ok(())
}

fn polarity_text(polarity: bool) -> &'static str
    ensures { result.now ≡ polarity_text polarity }
{
    if polarity { "1" } else { "0" }
}

fn block_line(alloc: Global, number: usize, block: Block) -> Result<String, NoMemory>
    ensures { IfOk result (λ line. string_bytes line ≡ block_line number block) }
{
    let parent = block.parent;
    let cond = value_text(alloc, block.cond)?;
    let polarity = polarity_text(block.polarity);
    Ok(format!(in alloc; "# block {number} in {parent} when {cond} is {polarity}\n")?)
}

fn put_blocks(alloc: Global, blocks: &[Block], text: &mut Text) -> Result<(), NoMemory>
    ensures { OnOk result (text.new ≡ text.old ++ block_lines 1 blocks.now) }
{
    for place in 0..blocks.len() {
        text.extend(block_line(alloc, place + 1, blocks[place])?.as_bytes())?;
    }
    Ok(())
}

fn write_line(alloc: Global, written: FieldValue) -> Result<String, NoMemory>
    ensures { IfOk result (λ line. string_bytes line ≡ write_line written) }
{
    let name = field_name(written.field);
    let value = value_text(alloc, written.value)?;
    Ok(format!(in alloc; "# write {name} {value}\n")?)
}

fn put_writes(alloc: Global, fields: &[FieldValue], text: &mut Text) -> Result<(), NoMemory>
    ensures { OnOk result (text.new ≡ text.old ++ write_lines fields.now) }
{
    for written in fields {
        text.extend(write_line(alloc, *written)?.as_bytes())?;
    }
    Ok(())
}

fn send_line(alloc: Global, out: &Out) -> Result<String, NoMemory>
    ensures { IfOk result (λ line. string_bytes line ≡ send_line out.now.send out.now.port) }
{
    let send = value_text(alloc, out.send)?;
    let port = value_text(alloc, out.port)?;
    Ok(format!(in alloc; "# send {send} port {port}\n")?)
}

/// The listing of a flat program: a line for each block from 1 on, one for each instruction, one for `send` and `port`,
/// and one for each field that is set. All of them begin with `#`.
pub fn print_flat(alloc: Global, f: &Flat) -> Result<Text, NoMemory>
    ensures { IfOk result (λ text. text ≡ listing (program_of f.now)) }
{
    let mut text = Text::new(alloc);
    put_blocks(alloc, f.blocks.as_slice(), &mut text)?;
    put_steps(alloc, f.objects.as_slice(), f.code.as_slice(), &mut text)?;
    text.extend(send_line(alloc, &f.out)?.as_bytes())?;
    put_writes(alloc, &f.out.fields, &mut text)?;
    Ok(text)
}
