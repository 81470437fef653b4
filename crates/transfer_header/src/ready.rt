//! Instructions with the places of their operands and results among registers.
ghost use Rattle.std.specs.Prelude.{◌≡◌, ◌≤◌, ◌<◌, ◌^◌, ◌∷◌, [], false, length, map, slice_index, IfOk};
ghost use Rattle.gal_bits.specs.Operators.{bit};
ghost use Rattle.packet_fields.specs.declared.packet.Packet.{Packet};
ghost use Rattle.packet_fields.specs.Shape.{shape_of};
ghost use Rattle.packet_fields.specs.Sizes.{largest_packet};
ghost use Rattle.state_store.specs.Store.{Store as Objects};
ghost use Rattle.flat_ir.specs.declared.program.ValueId.{ValueId as Value};
ghost use Rattle.flat_ir.specs.Kinds.{is_write};
ghost use Rattle.flat_ir.specs.Operands.{CanRun};
ghost use Rattle.flat_ir.specs.Program.{work_of};
ghost use Rattle.flat_ir.specs.Registers.{packet_of};
ghost use Rattle.flat_ir.specs.Renaming.{renamed};
ghost use Rattle.flat_ir.specs.Run.{looked, results};
ghost use Rattle.transfer_header.specs.Ready.{all_placed, operator_work, placed_gives, places_of, reads_at, ready_work};

use crate::registers::Regs;
use flat_ir::{Arrival, InstrKind, Lookup, Numbers, Renaming, ValueId, given_number};
use gal_bits::{Op, Values, Width, eval};
use gal_io::NoMemory;
use state_store::Found;
use std::alloc::Global;

/// The places of an instruction's results among the registers, in order.
#[derive(Drop)]
pub enum Places {
    One(u32),
    Many(Vec<u32>),
}

/// An operator of up to three numbers, other than a shift and `Select`, with the places of these.
#[derive(Clone, Copy)]
pub enum PlacedOp {
    Unary(Op, Width, u32),
    Binary(Op, Width, u32, u32),
    Ternary(Op, Width, u32, u32, u32),
}

/// What an instruction does, where each operand is named by the place of its number.
#[derive(Drop)]
pub enum ReadyKind {
    Operator(PlacedOp),
    /// Any other instruction. The place of an operand is its value's instruction, and the value's result is 0.
    Other(InstrKind),
}

/// An instruction whose operands and results are known by their places.
#[derive(Drop)]
pub struct ReadyStep {
    pub kind: ReadyKind,
    pub places: Places,
}

// Numbers that are read by place.
#[derive(Clone, Copy)]
struct Placed<'a> {
    items: &'a [u64],
}

impl Numbers for Placed<'_> {
    ghost reads = { λ numbers. reads_at numbers.items.now };

    fn number(&self, value: ValueId) -> u64 {
        number_at(self.items, value.instruction)
    }
}

// The number at a place, 0 past all places.
fn number_at(items: &[u64], place: u32) -> u64
    ensures { result ≡ slice_index items.now place }
{
    let place = place as usize;
    if place < items.len() { items[place] } else { 0 }
}

impl PlacedOp {
    // The value of an operator, from numbers by place.
    fn value(&self, items: &[u64]) -> u64
        requires { CanRun (operator_work self.now) }
        ensures { (st : Objects) (packet : Packet)
            → results (reads_at items.now) false st packet (operator_work self.now) ≡ result ∷ [] }
    {
        match self {
            PlacedOp::Unary(op, width, x) => eval(*op, *width, &[number_at(items, *x)]),
            PlacedOp::Binary(op, width, x, y) => {
                eval(*op, *width, &[number_at(items, *x), number_at(items, *y)])
            }
            PlacedOp::Ternary(op, width, x, y, z) => eval(
                *op,
                *width,
                &[
                    number_at(items, *x),
                    number_at(items, *y),
                    number_at(items, *z),
                ],
            ),
        }
    }
}

impl ReadyKind {
    /// An instruction with other names for its operands, each of which is that of a place.
    pub fn of<N: Renaming>(
        alloc: Global,
        kind: &InstrKind,
        names: &N,
    ) -> Result<ReadyKind, NoMemory>
        requires { (value : Value) → (N.names names.now value).result ≡ 0 }
        ensures { IfOk result (λ made. ready_work made ≡ renamed (N.names names.now) (work_of kind.now)) }
    {
        match kind {
            InstrKind::Apply { op, width, args } => match args.as_slice() {
                [x] => Ok(ReadyKind::Operator(PlacedOp::Unary(
                    *op,
                    *width,
                    names.name(*x).instruction,
                ))),
                [x, y] => Ok(ReadyKind::Operator(PlacedOp::Binary(
                    *op,
                    *width,
                    names.name(*x).instruction,
                    names.name(*y).instruction,
                ))),
                [x, y, z] => Ok(ReadyKind::Operator(PlacedOp::Ternary(
                    *op,
                    *width,
                    names.name(*x).instruction,
                    names.name(*y).instruction,
                    names.name(*z).instruction,
                ))),
                _ => Ok(ReadyKind::Other(kind.renamed(alloc, names)?)),
            },
            _ => Ok(ReadyKind::Other(kind.renamed(alloc, names)?)),
        }
    }

    /// Whether it is a put or a del.
    pub fn is_write(&self) -> bool
        ensures { result ≡ is_write (ready_work self.now) }
    {
        match self {
            ReadyKind::Operator(_) => false,
            ReadyKind::Other(kind) => kind.is_write(),
        }
    }
}

// The key of at most 8 values that are named by places.
fn key_at(items: &[u64], keys: &[ValueId]) -> Values
    requires { length keys.now ≤ 8 }
    ensures { result ≡ map (reads_at items.now) keys.now }
{
    let mut key = Values::new();
    for value in keys {
        key.push(number_at(items, value.instruction));
    }
    key
}

// What a key has, 1 before its values, or zeros: the number at an index of these, 0 past all of them.
fn found_at(found: &Found, index: usize) -> u64
    ensures { result ≡ slice_index (bit found.now.found ∷ found.now.values) index }
{
    if index == 0 {
        u64::from(found.found)
    } else if index <= found.values.len() {
        found.values.at(index - 1)
    } else {
        0
    }
}

// Puts what was found into the register at each of some places.
fn put_found(places: &[u32], found: &Found, registers: &mut Regs)
    ensures { registers.new
        ≡ all_placed registers.old (placed_gives places.now (bit found.now.found ∷ found.now.values)) }
{
    for index in 0..places.len() {
        registers.set_at(places[index], found_at(found, index));
    }
}

// The number at an index of a list of one, 0 past it.
fn only_at(number: u64, index: usize) -> u64
    ensures { result ≡ slice_index (number ∷ []) index }
{
    if index == 0 { number } else { 0 }
}

// Puts a number into the register at the first of some places, and 0 at the others.
fn put_first(places: &[u32], number: u64, registers: &mut Regs)
    ensures { registers.new ≡ all_placed registers.old (placed_gives places.now (number ∷ [])) }
{
    for index in 0..places.len() {
        registers.set_at(places[index], only_at(number, index));
    }
}

impl Places {
    // Puts what was found into registers.
    fn put_found(&self, found: &Found, registers: &mut Regs)
        ensures { registers.new ≡ all_placed registers.old
            (placed_gives (places_of self.now) (bit found.now.found ∷ found.now.values)) }
    {
        match self {
            Places::One(place) => registers.set_at(*place, u64::from(found.found)),
            Places::Many(list) => put_found(list.as_slice(), found, registers),
        }
    }

    /// Puts the only result of an instruction into its register.
    pub fn put_number(&self, number: u64, registers: &mut Regs)
        ensures { registers.new ≡ all_placed registers.old (placed_gives (places_of self.now) (number ∷ [])) }
    {
        match self {
            Places::One(place) => registers.set_at(*place, number),
            Places::Many(list) => put_first(list.as_slice(), number, registers),
        }
    }
}

impl ReadyStep {
    // Looks a key up, and puts what was found into registers.
    fn look<L: Lookup>(&self, object: u32, keys: &[ValueId], tables: &L, registers: &mut Regs)
        requires { length keys.now ≤ 8 }
        ensures placed { registers.new ≡ all_placed registers.old (placed_gives (places_of self.now.places)
            (looked (L.seen tables.now) object (map (reads_at registers.old.numbers) keys.now))) }
        ensures bounded { length registers.old.numbers < 2 ^ 32 }
    {
        let key = key_at(registers.as_slice(), keys);
        let found = tables.find(object, &key);
        self.places.put_found(&found, registers);
    }

    // Computes an instruction whose operands are named by places.
    fn run_other<L: Lookup>(
        &self,
        kind: &InstrKind,
        tables: &L,
        arrival: &Arrival<'_>,
        registers: &mut Regs,
    )
        requires can { CanRun (work_of kind.now) }
        requires size { length arrival.now.bytes.now ≤ largest_packet }
        requires shape { arrival.now.shape ≡ shape_of arrival.now.bytes.now }
        ensures placed { registers.new ≡ all_placed registers.old (placed_gives (places_of self.now.places)
            (results (reads_at registers.old.numbers) false (L.seen tables.now) (packet_of arrival.now)
            (work_of kind.now))) }
        ensures bounded { length registers.old.numbers < 2 ^ 32 }
    {
        match kind {
            InstrKind::Look { object, keys } => self.look(*object, keys, tables, registers),
            kind => {
                let items = registers.as_slice();
                let number = given_number(arrival, &Placed { items }, kind);
                self.places.put_number(number, registers);
            }
        }
    }

    /// Computes the instruction from the numbers in registers, and puts its results there. Nothing is stored or
    /// removed: a put and a del give 0.
    pub fn run<L: Lookup>(&self, tables: &L, arrival: &Arrival<'_>, registers: &mut Regs)
        requires can { CanRun (ready_work self.now.kind) }
        requires size { length arrival.now.bytes.now ≤ largest_packet }
        requires shape { arrival.now.shape ≡ shape_of arrival.now.bytes.now }
        ensures placed { registers.new ≡ all_placed registers.old (placed_gives (places_of self.now.places)
            (results (reads_at registers.old.numbers) false (L.seen tables.now) (packet_of arrival.now)
            (ready_work self.now.kind))) }
        ensures bounded { length registers.old.numbers < 2 ^ 32 }
    {
        match &self.kind {
            ReadyKind::Operator(operator) => {
                let number = operator.value(registers.as_slice());
                self.places.put_number(number, registers);
            }
            ReadyKind::Other(kind) => self.run_other(kind, tables, arrival, registers),
        }
    }
}
