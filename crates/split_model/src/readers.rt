//! Which values are read by the server and by postprocessing, and which are set into fields.
ghost use Rattle.std.specs.Prelude.{◌≡◌, ◌<◌, ◌^◌, length, IfOk};
ghost use Rattle.flat_ir.specs.Program.{program_of};
ghost use Rattle.split_model.specs.Crossing.{is_read_by, is_written_value};
ghost use Rattle.split_model.specs.Marked.{is_of, is_read_at, is_set_to, AreMarked, Adds};

use crate::split::Split;
use crate::values::ValueSet;
use flat_ir::{FieldValue, Flat};
use gal_io::NoMemory;
use std::alloc::Global;

/// Who reads a value.
#[derive(Clone, Copy)]
pub enum Reader {
    Server,
    Post,
}

impl Reader {
    // Whether it computes an instruction.
    fn has(self, s: &Split, instruction: usize) -> bool
        ensures { result ≡ is_of self s.now instruction }
    {
        match self {
            Reader::Server => s.is_server(instruction),
            Reader::Post => s.is_post(instruction),
        }
    }
}

// Marks the operands of instruction `i`, where the reader computes it.
fn mark_operands(f: &Flat, s: &Split, reader: Reader, i: usize, set: &mut ValueSet)
    requires inside { i < length f.now.code }
    ensures { Adds (is_read_at (program_of f.now) s.now reader i) set.old set.new }
{
    if reader.has(s, i) {
        set.insert_operands(&f.code.as_slice()[i].kind);
    }
}

/// The values that the instructions of a reader read.
pub fn read_by(alloc: Global, f: &Flat, s: &Split, reader: Reader) -> Result<ValueSet, NoMemory>
    requires few_instructions { length f.now.code < 2 ^ 32 }
    ensures { IfOk result (λ set.
        AreMarked (length f.now.code) (is_read_by (program_of f.now) (is_of reader s.now)) set) }
{
    let mut set = ValueSet::new(alloc, f.code.len())?;
    for i in 0..f.code.len() {
        mark_operands(f, s, reader, i, &mut set);
    }
    Ok(set)
}

// Marks the value of a field, where the server sets the field.
fn mark_written(s: &Split, written: FieldValue, set: &mut ValueSet)
    ensures { Adds (is_set_to s.now written) set.old set.new }
{
    if !s.is_post(written.value.instruction as usize) {
        set.insert(written.value);
    }
}

/// The values that the server sets fields to.
pub(crate) fn written_values(alloc: Global, f: &Flat, s: &Split) -> Result<ValueSet, NoMemory>
    requires few_instructions { length f.now.code < 2 ^ 32 }
    ensures { IfOk result (λ set. AreMarked (length f.now.code) (is_written_value (program_of f.now) s.now) set) }
{
    let mut set = ValueSet::new(alloc, f.code.len())?;
    for written in &f.out.fields {
        mark_written(s, *written, &mut set);
    }
    Ok(set)
}
