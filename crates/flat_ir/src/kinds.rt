//! Kinds of instructions, their operands, and the results that they have.
ghost use Rattle.std.specs.Prelude.{◌≡◌, ◌<◌, ◌≤◌, ◌++◌, List, length, slice_get, slice_index, Some};
ghost use Rattle.state_store.specs.declared.object.ObjectDecl.{ObjectDecl as Declared};
ghost use Rattle.flat_ir.specs.Kinds.{can_switch, fits_switch, is_field, is_input, is_mutable_look, is_write, looks_at};
ghost use Rattle.flat_ir.specs.Program.{program_of, step_of, work_of, operands, value_widths, result_widths, result_count};

use crate::program::{Flat, Instr, InstrKind, ValueId};
use gal_bits::{Width, on_switch};
use packet_fields::width;
use state_store::{ObjectDecl, is_constant};

// How many values the rows of an object have.
fn value_count(objects: &[ObjectDecl], object: u32) -> u32
    ensures value { result ≡ length (value_widths objects.now object) }
    ensures bounded { result ≤ 8 }
{
    match objects.get(object as usize) {
        Some(declared) => declared.values.len() as u32,
        None => 0,
    }
}

// The width of a value of an object's rows, 0 where there is none.
fn value_width(objects: &[ObjectDecl], object: u32, place: u32) -> u64
    ensures { result ≡ slice_index (value_widths objects.now object) place }
{
    match objects.get(object as usize) {
        Some(declared) => at(declared.values.as_slice(), place),
        None => 0,
    }
}

// The number at a place, 0 past the end.
fn at(numbers: &[u64], place: u32) -> u64
    ensures { result ≡ slice_index numbers.now place }
{
    let place = place as usize;
    if place < numbers.len() {
        numbers[place]
    } else {
        0
    }
}

// The value at a place of two lists, one behind the other.
fn at_either(first: &[ValueId], second: &[ValueId], place: usize) -> ValueId
    requires { place < length (first.now ++ second.now) }
    ensures { slice_get (first.now ++ second.now) place ≡ Some result }
{
    if place < first.len() {
        first[place]
    } else {
        second[place - first.len()]
    }
}

impl InstrKind {
    /// Whether it is a put or a del.
    pub fn is_write(&self) -> bool
        ensures { result ≡ is_write (work_of self.now) }
    {
        match self {
            InstrKind::Put { .. } | InstrKind::Del { .. } => true,
            _ => false,
        }
    }

    /// Whether it looks up a row of the object of this number.
    pub fn looks_at(&self, object: u32) -> bool
        ensures { result ≡ looks_at object (work_of self.now) }
    {
        match self {
            InstrKind::Look { object: looked, .. } => *looked == object,
            _ => false,
        }
    }

    /// Whether it reads a field of the packet.
    pub fn is_field(&self) -> bool
        ensures { result ≡ is_field (work_of self.now) }
    {
        match self {
            InstrKind::Field(_) => true,
            _ => false,
        }
    }

    // Whether the switch has this kind of work.
    fn can_switch(&self) -> bool
        ensures { result ≡ can_switch (work_of self.now) }
    {
        match self {
            InstrKind::Const(..) | InstrKind::Field(_) => true,
            InstrKind::Apply { op, .. } => on_switch(*op),
            InstrKind::Shift { .. } | InstrKind::Select { .. } | InstrKind::Look { .. } => true,
            InstrKind::Byte(_) | InstrKind::Put { .. } | InstrKind::Del { .. } => false,
        }
    }

    /// Whether it is a const or a field of the packet.
    pub fn is_input(&self) -> bool
        ensures { result ≡ is_input (work_of self.now) }
    {
        match self {
            InstrKind::Const(..) | InstrKind::Field(_) => true,
            _ => false,
        }
    }

    /// How many operands it has.
    pub fn operand_count(&self) -> usize
        ensures { result ≡ length (operands (work_of self.now)) }
    {
        match self {
            InstrKind::Const(..) | InstrKind::Field(_) => 0,
            InstrKind::Apply { args, .. } => args.len(),
            InstrKind::Shift { .. } | InstrKind::Byte(_) => 1,
            InstrKind::Select { .. } => 3,
            InstrKind::Look { keys, .. } | InstrKind::Del { keys, .. } => keys.len(),
            InstrKind::Put { keys, values, .. } => keys.len() + values.len(),
        }
    }

    /// The operand at a place: of a select first the condition, and of a put the keys and then the values.
    pub fn operand(&self, place: usize) -> ValueId
        requires { place < length (operands (work_of self.now)) }
        ensures { slice_get (operands (work_of self.now)) place ≡ Some result }
    {
        match self {
            InstrKind::Const(..) | InstrKind::Field(_) => unreachable!(),
            InstrKind::Apply { args, .. } => args[place],
            InstrKind::Shift { arg, .. } => *arg,
            InstrKind::Select {
                cond,
                first,
                second,
                ..
            } => [*cond, *first, *second][place],
            InstrKind::Byte(index) => *index,
            InstrKind::Look { keys, .. } | InstrKind::Del { keys, .. } => keys[place],
            InstrKind::Put { keys, values, .. } => at_either(keys, values, place),
        }
    }

    /// How many results it has, 9 at most.
    pub fn result_count(&self, objects: &[ObjectDecl]) -> u32
        ensures value { result ≡ result_count objects.now (work_of self.now) }
        ensures bounded { result ≤ 9 }
    {
        match self {
            InstrKind::Look { object, .. } => 1 + value_count(objects, *object),
            _ => 1,
        }
    }

    /// The width of the first result.
    pub fn first_width(&self) -> Width
        ensures { (objects : List Declared) → result ≡ slice_index (result_widths objects (work_of self.now)) 0 }
    {
        match self {
            InstrKind::Const(width, _) => *width,
            InstrKind::Field(field) => width(*field),
            InstrKind::Apply { width, .. } => *width,
            InstrKind::Shift { width, .. } => *width,
            InstrKind::Select { width, .. } => *width,
            InstrKind::Byte(_) => Width::new(8).unwrap(),
            InstrKind::Look { .. } | InstrKind::Put { .. } | InstrKind::Del { .. } => {
                Width::new(1).unwrap()
            }
        }
    }

    /// How many bits a result has, 0 where there is none.
    pub fn result_width(&self, objects: &[ObjectDecl], place: u32) -> u64
        ensures { result ≡ slice_index (result_widths objects.now (work_of self.now)) place }
    {
        if place == 0 {
            return u64::from(self.first_width().bits());
        }
        match self {
            InstrKind::Look { object, .. } => value_width(objects, *object, place - 1),
            _ => 0,
        }
    }
}

impl Instr {
    /// Whether the switch can compute it: its kind is one of the switch's, and it stands in no repeat.
    pub fn fits_switch(&self) -> bool
        ensures { result ≡ fits_switch (step_of self.now) }
    {
        !self.looped && self.kind.can_switch()
    }
}

impl Flat {
    /// Whether work of this kind looks up rows that can change.
    pub fn is_mutable_look(&self, kind: &InstrKind) -> bool
        ensures { result ≡ is_mutable_look (program_of self.now) (work_of kind.now) }
    {
        match kind {
            InstrKind::Look { object, .. } => !is_constant(self.objects.as_slice(), *object),
            _ => false,
        }
    }
}
