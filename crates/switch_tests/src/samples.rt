//! Flat programs that several tests split, each by a table of its instructions, and a packet on its way.
ghost use Rattle.std.specs.Prelude.{◌≡◌, ◌≤◌, ◌∷◌, [], map, IfOk};
ghost use Rattle.flat_ir.specs.Program.{program_of};
ghost use Rattle.resource_limits.specs.Limits.{AreInRange};
ghost use Rattle.split_model.specs.Bounds.{HasFewStages, IsBounded};
ghost use Rattle.split_model.specs.Legal.{IsLegal};
ghost use Rattle.state_store.specs.declared.object.Kind.TheVariants.{Map};
ghost use Rattle.state_store.specs.Kept.{IsKept};
ghost use Rattle.state_store.specs.Store.{start_store};

use flat_ir::{Blocks, Code, Flat, Instr, InstrKind, Out, ValueId};
use gal_bits::{Op, Width, Widths};
use gal_io::{Bytes, NoMemory};
use packet_fields::Field;
use partition::partition;
use resource_limits::Limits;
use split_model::{Split, is_bounded};
use state_store::{Kind, ObjectDecl, Objects, Rows};
use std::alloc::Global;
use std::test::Fail;

/// A value by its instruction, and by its place among the results of this one.
pub(crate) type At = (u32, u32);

/// What an instruction of the root does, by numbers alone. A width comes before what it is the width of.
#[derive(Clone, Copy)]
pub(crate) enum Step {
    Const(u32, u64),
    Field(Field),
    /// The lowest bits of a value.
    Cut(u32, At),
    Sum(u32, At, At),
    /// Objects have keys and values of one number.
    Look(u32, At),
    Put(u32, At, At),
}

pub(crate) fn value(at: At) -> ValueId {
    ValueId {
        instruction: at.0,
        result: at.1,
    }
}

pub(crate) fn width(bits: u32) -> Result<Width, Fail> {
    Ok(Width::new(bits).ok_or("no width")?)
}

fn one(alloc: Global, at: At) -> Result<Vec<ValueId>, Fail> {
    Ok(vec![in alloc; value(at)]?)
}

fn apply(op: Op, bits: u32, args: Vec<ValueId>) -> Result<InstrKind, Fail> {
    Ok(InstrKind::Apply {
        op,
        width: width(bits)?,
        args,
    })
}

fn kind_of(alloc: Global, step: Step) -> Result<InstrKind, Fail> {
    match step {
        Step::Const(bits, number) => Ok(InstrKind::Const(width(bits)?, number)),
        Step::Field(field) => Ok(InstrKind::Field(field)),
        Step::Cut(bits, arg) => apply(Op::Cast, bits, one(alloc, arg)?),
        Step::Sum(bits, first, second) => {
            apply(Op::Add, bits, vec![in alloc; value(first), value(second)]?)
        }
        Step::Look(object, key) => Ok(InstrKind::Look {
            object,
            keys: one(alloc, key)?,
        }),
        Step::Put(object, key, stored) => Ok(InstrKind::Put {
            object,
            keys: one(alloc, key)?,
            values: one(alloc, stored)?,
        }),
    }
}

// The code of a table, all of it in the root.
pub(crate) fn code_of(alloc: Global, steps: &[Step]) -> Result<Code, Fail> {
    let mut code = Code::new(alloc);
    for step in steps {
        let kind = kind_of(alloc, *step)?;
        code.push(Instr {
            block: 0,
            looped: false,
            kind,
        })?;
    }
    Ok(code)
}

// What becomes of packets that are sent where this value is 1, by this port, as they came.
pub(crate) fn out(alloc: Global, send: At, port: At) -> Out {
    Out {
        send: value(send),
        port: value(port),
        fields: Vec::new(alloc),
    }
}

// What is sent where nothing is, what is sent, and port 0; and then the length and 3, in 16 bits, cut to 8.
const CHAIN: [Step; 11] = [
    Step::Const(1, 0),
    Step::Const(1, 1),
    Step::Const(8, 0),
    Step::Field(Field::MetaLen),
    Step::Const(16, 1),
    Step::Sum(16, (3, 0), (4, 0)),
    Step::Const(16, 1),
    Step::Sum(16, (5, 0), (6, 0)),
    Step::Const(16, 1),
    Step::Sum(16, (7, 0), (8, 0)),
    Step::Cut(8, (9, 0)),
];

// Packets leave by the port of their length and 3.
pub(crate) fn chain(alloc: Global) -> Result<Flat, Fail>
    ensures { IfOk result (λ f. f.objects ≡ []) }
{
    let code = code_of(alloc, &CHAIN)?;
    Ok(Flat {
        objects: Objects::new(alloc),
        blocks: Blocks::new(alloc),
        code,
        out: out(alloc, (1, 0), (10, 0)),
    })
}

// Four rows from 8 bits to 8 bits.
fn four_rows(alloc: Global, name: &[u8]) -> Result<ObjectDecl, NoMemory>
    ensures { IfOk result (λ made. made ≡ record {
      name = name.now;
      kind = Map;
      keys = 8 ∷ [];
      values = 8 ∷ [];
      size = 4;
      start = 0;
      rows = [];
    }) }
{
    let mut widths = Widths::new();
    widths.push(8);
    Ok(ObjectDecl {
        name: Bytes::from_slice(alloc, name)?,
        kind: Kind::Map,
        keys: widths,
        values: widths,
        size: 4,
        start: 0,
        rows: Rows::new(alloc),
    })
}

// Two maps from ports to 8 bits.
fn marked_objects(alloc: Global, first: &[u8], second: &[u8]) -> Result<Objects, NoMemory>
    ensures { IfOk result (λ objects. objects ≡ map (λ name. record {
      name = name;
      kind = Map;
      keys = 8 ∷ [];
      values = 8 ∷ [];
      size = 4;
      start = 0;
      rows = [];
    }) (first.now ∷ second.now ∷ [])) }
{
    let mut objects = Objects::new(alloc);
    objects.push(four_rows(alloc, first)?)?;
    objects.push(four_rows(alloc, second)?)?;
    Ok(objects)
}

const MARKING: [Step; 7] = [
    Step::Field(Field::MetaPort),
    Step::Look(0, (0, 0)),
    Step::Const(8, 5),
    Step::Put(1, (0, 0), (2, 0)),
    Step::Put(0, (0, 0), (2, 0)),
    Step::Const(1, 1),
    Step::Const(8, 7),
];

// Each packet looks its port up in a map, marks it with 5 in another map and then in this one, and leaves by port 7.
pub(crate) fn marking(alloc: Global) -> Result<Flat, Fail>
    ensures { IfOk result (λ f. IsKept f.objects (start_store f.objects)) }
{
    let objects = marked_objects(alloc, b"seen", b"kept")?;
    let code = code_of(alloc, &MARKING)?;
    Ok(Flat {
        objects,
        blocks: Blocks::new(alloc),
        code,
        out: out(alloc, (5, 0), (6, 0)),
    })
}

// The first split that keeps these limits and is legal, of a program that may be split: the greatest one, or where the
// split may shrink the first of a list.
pub(crate) fn split_of(
    alloc: Global,
    f: &Flat,
    stages: u32,
    transfer_bytes: u32,
    shrink: bool,
) -> Result<Split, Fail>
    requires stages { stages ≤ 4096 }
    requires least { 2 ≤ transfer_bytes }
    requires most { transfer_bytes ≤ 65535 }
    ensures bounded { IfOk result (λ _. IsBounded (program_of f.now)) }
    ensures legal { IfOk result (λ split. IsLegal (program_of f.now) split) }
    ensures few_stages { IfOk result HasFewStages }
{
    if !is_bounded(f) {
        return Err(Fail::from("not bounded"));
    }
    let limits = Limits {
        table_bits: 100_000_000,
        stages,
        writeback: 16,
        transfer_bytes,
    };
    Ok(partition(alloc, f, &limits, shrink)?)
}

// An Ethernet header to all stations.
pub(crate) const PACKET: [u8; 14] = [
    0xff, 0xff, 0xff, 0xff, 0xff, 0xff, 0, 0, 0, 0, 0, 0x01, 0x08, 0,
];

// Packet 0 from port 3, with 17 in 16 bits.
pub(crate) const UP: [u8; 22] = [
    1, 0, 0, 0, 0, 3, 0, 0x11, 0xff, 0xff, 0xff, 0xff, 0xff, 0xff, 0, 0, 0, 0, 0, 0x01, 0x08, 0,
];

// Packet 0 from port 3, with 1 in 1 bit and 17 in 16 bits, and 7 bits of filling.
pub(crate) const DOWN: [u8; 23] = [
    2, 0, 0, 0, 0, 3, 0x80, 0x08, 0x80, 0xff, 0xff, 0xff, 0xff, 0xff, 0xff, 0, 0, 0, 0, 0, 0x01,
    0x08, 0,
];

// Packet 258 from port 9, of one byte.
pub(crate) const MARK: [u8; 7] = [1, 0, 0, 1, 2, 9, 0xaa];

// With 1 in 1 bit and 7 in 8 bits, and 7 bits of filling.
pub(crate) const MARKED: [u8; 9] = [2, 0, 0, 1, 2, 9, 0x83, 0x80, 0xaa];
