//! Flat programs: instructions in blocks, with no branches.
ghost use Rattle.std.specs.Prelude.{◌≡◌, map, IfOk};
ghost use Rattle.flat_ir.specs.Program.{work_of, step_of, program_of};

use gal_bits::{Op, Width};
use gal_io::{CopyIn, Items, NoMemory};
use packet_fields::Field;
use state_store::Objects;
use std::alloc::Global;

/// A result of an instruction.
#[derive(Clone, Copy, PartialEq, Eq)]
pub struct ValueId {
    /// The instruction's place in the code, from 0.
    pub instruction: u32,
    /// The result's place among those of the instruction, from 0.
    pub result: u32,
}

/// A block below another one. It is live where that one is live and the condition, which has 1 bit, has the polarity.
#[derive(Clone, Copy)]
pub struct Block {
    pub parent: u32,
    pub cond: ValueId,
    /// Whether the condition has to be 1, or else 0.
    pub polarity: bool,
}

/// What an instruction does. A width is that of the result, in bits.
#[derive(Drop)]
pub enum InstrKind {
    /// A number of this width.
    Const(Width, u64),
    /// The value of a field in the packet as it arrived.
    Field(Field),
    /// An operator other than a shift and `Select`.
    Apply {
        op: Op,
        width: Width,
        args: Vec<ValueId>,
    },
    /// A shift by a number of bits.
    Shift {
        op: Op,
        width: Width,
        arg: ValueId,
        by: u8,
    },
    /// The first value where the condition, which has 1 bit, is 1, and else the second.
    Select {
        width: Width,
        cond: ValueId,
        first: ValueId,
        second: ValueId,
    },
    /// A byte of the packet as it arrived, by its index; 0 past the end.
    Byte(ValueId),
    /// Looks a key up. The results are 1 and the values where the key is there, and zeros where it isn't.
    Look {
        object: u32,
        keys: Vec<ValueId>,
    },
    /// Stores a row where its block is live. The result is 1 where it was stored, else 0.
    Put {
        object: u32,
        keys: Vec<ValueId>,
        values: Vec<ValueId>,
    },
    /// Removes a row of a map where its block is live. The result is 1 where it was there and is removed, else 0.
    Del {
        object: u32,
        keys: Vec<ValueId>,
    },
}

/// An instruction.
#[derive(Drop)]
pub struct Instr {
    /// The block that it stands in: 0 is the root, and each other one has its place in the list of blocks and 1.
    pub block: u32,
    /// Whether a loop gave it.
    pub looped: bool,
    pub kind: InstrKind,
}

/// A field that the packet leaves with, and its value.
#[derive(Clone, Copy)]
pub struct FieldValue {
    pub field: Field,
    pub value: ValueId,
}

/// What becomes of the packet.
#[derive(Drop)]
pub struct Out {
    /// 1 bit: 0 where the packet goes no further.
    pub send: ValueId,
    /// 8 bits: the port by which it leaves.
    pub port: ValueId,
    /// The fields that are set before it leaves, in field order.
    pub fields: Vec<FieldValue>,
}

/// A flat program.
#[derive(Drop)]
pub struct Flat {
    /// The state that lasts from packet to packet.
    pub objects: Objects,
    /// The blocks from 1 on.
    pub blocks: Blocks,
    /// The instructions, in the order in which they are computed.
    pub code: Code,
    pub out: Out,
}

/// The blocks below the root. The block at place K of this list is block K + 1.
pub type Blocks = Items<Block>;

/// The instructions of a flat program. An instruction is known by its place in this list, from 0.
pub type Code = Items<Instr>;

impl CopyIn for Block {
    fn copy(&self, _: Global) -> Result<Block, NoMemory>
        ensures { IfOk result (λ made. made ≡ self.now) }
    {
        Ok(*self)
    }
}

impl InstrKind {
    /// Another one that does the same.
    pub fn copy(&self, alloc: Global) -> Result<Self, NoMemory>
        ensures { IfOk result (λ made. work_of made ≡ work_of self.now) }
    {
        Ok(match self {
            InstrKind::Const(width, number) => InstrKind::Const(*width, *number),
            InstrKind::Field(field) => InstrKind::Field(*field),
            InstrKind::Apply { op, width, args } => InstrKind::Apply {
                op: *op,
                width: *width,
                args: args.to_vec(alloc)?,
            },
            InstrKind::Shift { op, width, arg, by } => InstrKind::Shift {
                op: *op,
                width: *width,
                arg: *arg,
                by: *by,
            },
            InstrKind::Select {
                width,
                cond,
                first,
                second,
            } => InstrKind::Select {
                width: *width,
                cond: *cond,
                first: *first,
                second: *second,
            },
            InstrKind::Byte(index) => InstrKind::Byte(*index),
            InstrKind::Look { object, keys } => InstrKind::Look {
                object: *object,
                keys: keys.to_vec(alloc)?,
            },
            InstrKind::Put {
                object,
                keys,
                values,
            } => InstrKind::Put {
                object: *object,
                keys: keys.to_vec(alloc)?,
                values: values.to_vec(alloc)?,
            },
            InstrKind::Del { object, keys } => InstrKind::Del {
                object: *object,
                keys: keys.to_vec(alloc)?,
            },
        })
    }
}

impl Instr {
    /// Another one that does the same.
    pub fn copy(&self, alloc: Global) -> Result<Self, NoMemory>
        ensures { IfOk result (λ made. step_of made ≡ step_of self.now) }
    {
        Ok(Instr {
            block: self.block,
            looped: self.looped,
            kind: self.kind.copy(alloc)?,
        })
    }
}

// Instructions that do the same, in memory of their own.
fn copy_code(alloc: Global, code: &[Instr]) -> Result<Code, NoMemory>
    ensures { IfOk result (λ made. map step_of made ≡ map step_of code.now) }
{
    let mut made = Code::new(alloc);
    for instr in code {
        made.push(instr.copy(alloc)?)?;
    }
    Ok(made)
}

impl Out {
    /// The same again, in memory of its own.
    pub fn copy(&self, alloc: Global) -> Result<Self, NoMemory>
        ensures send { IfOk result (λ made. made.send ≡ self.now.send) }
        ensures port { IfOk result (λ made. made.port ≡ self.now.port) }
        ensures fields { IfOk result (λ made. made.fields.items ≡ self.now.fields.items) }
    {
        Ok(Out {
            send: self.send,
            port: self.port,
            fields: self.fields.to_vec(alloc)?,
        })
    }
}

impl Flat {
    /// The same program again, in memory of its own.
    pub fn copy(&self, alloc: Global) -> Result<Self, NoMemory>
        ensures { IfOk result (λ made. program_of made ≡ program_of self.now) }
    {
        Ok(Flat {
            objects: self.objects.copy(alloc)?,
            blocks: self.blocks.copy(alloc)?,
            code: copy_code(alloc, self.code.as_slice())?,
            out: self.out.copy(alloc)?,
        })
    }
}
