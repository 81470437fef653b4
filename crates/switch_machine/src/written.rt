//! Registers that a stage has written so far.
ghost use Rattle.std.specs.Prelude.{◌≡◌, ◌++◌, [], ◌∷◌, ℕ, List, true, false, map};
ghost use Rattle.std.specs.List.{AllByRecursion as Each};
ghost use Rattle.flat_ir.specs.declared.program.ValueId.{ValueId};
ghost use Rattle.flat_ir.specs.Program.{operands, work_of};
ghost use Rattle.transfer_header.specs.Steps.{is_among};
ghost use Rattle.switch_machine.specs.Ready.{places_of, ready_of, IsDirect};

use crate::ready::{Places, ReadyStep};
use flat_ir::InstrKind;
use gal_io::NoMemory;
use std::alloc::Global;

/// The places of registers that a stage has written so far: those with the stage's own stamp.
#[derive(Drop)]
pub(crate) struct Written {
    stamps: Vec<u32>,
    stamp: u32,
}

impl Written {
    ghost use Rattle.switch_machine.specs.Written.{Marks};

    /// For so many registers.
    pub fn new(alloc: Global, count: u32) -> Result<Written, NoMemory> {
        Ok(Written {
            stamps: vec![in alloc; 0u32; count as usize]?,
            stamp: 0,
        })
    }

    /// Whether no instruction of a stage reads a register that one before it writes. A stage may be said to have such
    /// instructions though it has none, where it reads a value without a register.
    pub fn is_direct(&mut self, steps: &[ReadyStep]) -> bool
        ensures { result ≡ true → IsDirect [] (map ready_of steps.now) }
    {
        self.stamp = self.stamp.saturating_add(1);
        for step in steps {
            if self.is_read_by(&step.kind) {
                return false;
            }
            self.put_all(&step.places);
        }
        true
    }

    // Whether an instruction reads one of them, or a value without a register.
    fn is_read_by(&self, kind: &InstrKind) -> bool
        ensures { result ≡ false → (places : List ℕ) → Marks places self.now
            → Each (λ (v : ValueId). is_among v.instruction places ≡ false) (operands (work_of kind.now)) }
    {
        for place in 0..kind.operand_count() {
            if self.has(kind.operand(place).instruction) {
                return true;
            }
        }
        false
    }

    // Whether a place is among them, or past all registers.
    fn has(&self, place: u32) -> bool
        ensures { result ≡ false → (places : List ℕ) → Marks places self.now → is_among place places ≡ false }
    {
        let place = place as usize;
        if place < self.stamps.len() {
            self.stamps[place] == self.stamp
        } else {
            true
        }
    }

    // Puts in the places of results.
    fn put_all(&mut self, places: &Places)
        ensures { (before : List ℕ) → Marks before self.old → Marks (before ++ places_of places.now) self.new }
    {
        match places {
            Places::One(place) => self.put(*place),
            Places::Many(list) => self.put_list(list.as_slice()),
        }
    }

    fn put_list(&mut self, places: &[u32])
        ensures { (before : List ℕ) → Marks before self.old → Marks (before ++ places.now) self.new }
    {
        for place in places {
            self.put(*place);
        }
    }

    // Puts in a place.
    fn put(&mut self, place: u32)
        ensures { (before : List ℕ) → Marks before self.old → Marks (before ++ place ∷ []) self.new }
    {
        let place = place as usize;
        if place < self.stamps.len() {
            self.stamps[place] = self.stamp;
        }
    }
}
