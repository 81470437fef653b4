//! Which values are handed up and down.
ghost use Rattle.std.specs.Prelude.{◌≡◌, ◌+◌, ◌*◌, ◌<◌, ◌≤◌, ◌^◌, ◌++◌, ◌∷◌, [], length, IfOk, OnOk, IsTrue};
ghost use Rattle.flat_ir.specs.Program.{program_of, work_of, is_named, step_at, result_count};
ghost use Rattle.split_model.specs.Bounds.{IsBounded};
ghost use Rattle.split_model.specs.Crossing.{is_written, is_at_hand, crosses_up, crosses_down, guards_write};
ghost use Rattle.split_model.specs.Layouts.{first_results, values_below, values_of, number_of};
ghost use Rattle.split_model.specs.Layouts.{up_layout, down_layout};
ghost use Rattle.split_model.specs.Marked.{crosses, crossings_of, AreFound, AreMarked};

use crate::guards::guard_values;
use crate::kinds::result_width;
use crate::layout::{Crossing, Layout};
use crate::readers::{Reader, read_by, written_values};
use crate::split::Split;
use crate::values::{ValueSet, is_value};
use flat_ir::{Flat, InstrKind, ValueId};
use gal_io::NoMemory;
use packet_fields::{Field, field_index};
use std::alloc::Global;

/// Which way a value crosses.
#[derive(Clone, Copy)]
enum Way {
    Up,
    Down,
}

/// What decides whether a value crosses.
#[derive(Drop)]
struct Crossings {
    /// Postprocessing reads it.
    post: ValueSet,
    /// The server reads it.
    server: ValueSet,
    /// The value decides whether a write takes effect.
    guards: ValueSet,
    /// The server sets a field to it.
    written: ValueSet,
}

// Whether the server sets a field.
fn is_written(f: &Flat, s: &Split, field: Field) -> bool
    ensures { result ≡ is_written (program_of f.now) s.now field }
{
    f.out.fields.iter().any(|written| {
        !s.is_post(written.value.instruction as usize)
            && field_index(written.field) == field_index(field)
    })
}

/// Whether postprocessing has the results of an instruction from the code or the packet.
pub fn is_at_hand(f: &Flat, s: &Split, kind: &InstrKind) -> bool
    ensures { result ≡ is_at_hand (program_of f.now) s.now (work_of kind.now) }
{
    match kind {
        InstrKind::Const(..) => true,
        InstrKind::Field(field) => !is_written(f, s, *field),
        _ => false,
    }
}

impl Crossings {
    // Looks for them in a program, but for what decides on writes, which is known.
    fn find(alloc: Global, f: &Flat, s: &Split, guards: ValueSet) -> Result<Crossings, NoMemory>
        requires few_instructions { length f.now.code < 2 ^ 32 }
        requires guards { AreMarked (length f.now.code) (guards_write (program_of f.now)) guards }
        ensures { IfOk result (λ found. AreFound (program_of f.now) s.now found) }
    {
        Ok(Crossings {
            post: read_by(alloc, f, s, Reader::Post)?,
            server: read_by(alloc, f, s, Reader::Server)?,
            guards,
            written: written_values(alloc, f, s)?,
        })
    }

    // Whether a value is handed down.
    fn go_down(&self, f: &Flat, s: &Split, value: ValueId) -> bool
        requires found { AreFound (program_of f.now) s.now self.now }
        requires named { IsTrue (is_named (program_of f.now) value) }
        requires bounded_result { value.result < 9 }
        ensures { result ≡ crosses_down (program_of f.now) s.now value }
    {
        let instruction = value.instruction as usize;
        let kind = &f.code.as_slice()[instruction].kind;
        !s.is_post(instruction)
            && (is_value(value, f.out.send)
                || is_value(value, f.out.port)
                || (!is_at_hand(f, s, kind) && self.post.has(value)))
    }

    // Whether a value is handed up.
    fn go_up(&self, f: &Flat, s: &Split, value: ValueId) -> bool
        requires found { AreFound (program_of f.now) s.now self.now }
        requires named { IsTrue (is_named (program_of f.now) value) }
        requires bounded_result { value.result < 9 }
        ensures { result ≡ crosses_up (program_of f.now) s.now value }
    {
        let instruction = value.instruction as usize;
        s.is_carried(instruction)
            && !f.code.as_slice()[instruction].kind.is_input()
            && (self.server.has(value)
                || self.guards.has(value)
                || self.go_down(f, s, value)
                || self.written.has(value))
    }

    // Whether a value crosses this way.
    fn cross(&self, f: &Flat, s: &Split, way: Way, value: ValueId) -> bool
        requires found { AreFound (program_of f.now) s.now self.now }
        requires named { IsTrue (is_named (program_of f.now) value) }
        requires bounded_result { value.result < 9 }
        ensures { result ≡ crosses way (program_of f.now) s.now value }
    {
        match way {
            Way::Up => self.go_up(f, s, value),
            Way::Down => self.go_down(f, s, value),
        }
    }

    // Puts a value of this number last, where it crosses.
    fn put(
        &self,
        f: &Flat,
        s: &Split,
        way: Way,
        value: ValueId,
        number: u32,
        layout: &mut Layout,
    ) -> Result<(), NoMemory>
        requires bounded { IsBounded (program_of f.now) }
        requires found { AreFound (program_of f.now) s.now self.now }
        requires named { IsTrue (is_named (program_of f.now) value) }
        requires bounded_result { value.result < 9 }
        requires numbered { number ≡ number_of (program_of f.now) value }
        ensures { OnOk result (
            layout.new ≡ layout.old ++ crossings_of way (program_of f.now) s.now (value ∷ [])) }
    {
        if self.cross(f, s, way, value) {
            let kind = &f.code.as_slice()[value.instruction as usize].kind;
            let width = result_width(f.objects.as_slice(), kind, value.result);
            layout.push(Crossing {
                value,
                number,
                width,
            })?;
        }
        Ok(())
    }

    // Puts the results of instruction `i` that cross last. `first` is the number of its first result. The answer is how
    // many results it has.
    fn put_results(
        &self,
        f: &Flat,
        s: &Split,
        way: Way,
        i: u32,
        first: u32,
        layout: &mut Layout,
    ) -> Result<u32, NoMemory>
        requires bounded { IsBounded (program_of f.now) }
        requires found { AreFound (program_of f.now) s.now self.now }
        requires inside { i < length f.now.code }
        requires numbered { first ≡ length (values_below (program_of f.now) i) }
        requires bounded_first { first ≤ 9 * i }
        ensures bounded { IfOk result (λ count. count ≤ 9) }
        ensures count { IfOk result (λ count.
            count ≡ result_count f.now.objects (step_at (program_of f.now) i).work) }
        ensures all { IfOk result (λ count.
            layout.new ≡ layout.old ++ crossings_of way (program_of f.now) s.now (first_results i count)) }
    {
        let count = f.code.as_slice()[i as usize]
            .kind
            .result_count(f.objects.as_slice());
        for place in 0..count {
            let value = ValueId {
                instruction: i,
                result: place,
            };
            self.put(f, s, way, value, first + place, layout)?;
        }
        Ok(count)
    }

    // The values that cross this way.
    fn layout(&self, alloc: Global, f: &Flat, s: &Split, way: Way) -> Result<Layout, NoMemory>
        requires bounded { IsBounded (program_of f.now) }
        requires found { AreFound (program_of f.now) s.now self.now }
        ensures exact { IfOk result (λ layout.
            layout ≡ crossings_of way (program_of f.now) s.now (values_of (program_of f.now))) }
        ensures bounded { IfOk result (λ layout. length layout < 2 ^ 26) }
    {
        let mut layout = Layout::new(alloc);
        let mut number = 0;
        for i in 0..f.code.len() {
            number += self.put_results(f, s, way, i as u32, number, &mut layout)?;
        }
        Ok(layout)
    }
}

/// The values that preprocessing hands up to the server, and those that the server hands down to postprocessing, values
/// that it was handed up among them.
#[derive(Drop)]
pub struct Layouts {
    pub up: Layout,
    pub down: Layout,
}

impl Layouts {
    /// The layouts of a split. Finding them takes one step an operand, a block and a value.
    pub fn of(alloc: Global, f: &Flat, s: &Split) -> Result<Layouts, NoMemory>
        requires { IsBounded (program_of f.now) }
        ensures up { IfOk result (λ both. both.up ≡ up_layout (program_of f.now) s.now) }
        ensures down { IfOk result (λ both. both.down ≡ down_layout (program_of f.now) s.now) }
        ensures few_up { IfOk result (λ both. length both.up < 2 ^ 26) }
        ensures few_down { IfOk result (λ both. length both.down < 2 ^ 26) }
    {
        let guards = guard_values(alloc, f)?;
        Layouts::find(alloc, f, s, &guards)
    }

    /// The layouts of a split, by what decides on the program's writes. Finding them takes one step an operand and a
    /// value.
    pub fn find(alloc: Global, f: &Flat, s: &Split, guards: &ValueSet) -> Result<Layouts, NoMemory>
        requires bounded { IsBounded (program_of f.now) }
        requires guards { AreMarked (length f.now.code) (guards_write (program_of f.now)) guards.now }
        ensures up { IfOk result (λ both. both.up ≡ up_layout (program_of f.now) s.now) }
        ensures down { IfOk result (λ both. both.down ≡ down_layout (program_of f.now) s.now) }
        ensures few_up { IfOk result (λ both. length both.up < 2 ^ 26) }
        ensures few_down { IfOk result (λ both. length both.down < 2 ^ 26) }
    {
        let found = Crossings::find(alloc, f, s, guards.copy(alloc)?)?;
        let up = found.layout(alloc, f, s, Way::Up)?;
        let down = found.layout(alloc, f, s, Way::Down)?;
        Ok(Layouts { up, down })
    }
}
