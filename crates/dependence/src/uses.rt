//! Which instructions use the results of each.
ghost use Rattle.std.specs.Prelude.{◌≡◌, ◌||◌, ◌++◌, [], replicate, length, IfOk, OnOk, false, slice_index_or};
ghost use Rattle.std.specs.List.{list_all};
ghost use Rattle.flat_ir.specs.Program.{program_of, work_of, operands};
ghost use Rattle.dependence.specs.Uses.{AreUses};
ghost use Rattle.dependence.specs.Noted.{noted, noted_at, noted_all};

use crate::marks::Marks;
use flat_ir::{Flat, InstrKind, ValueId};
use gal_io::NoMemory;
use std::alloc::Global;
use std::marker::Model;

// Numbers of instructions.
#[derive(Drop)]
struct Users {
    items: Vec<usize>,
}

impl Model for Users {
    ghost use Rattle.std.specs.Prelude.{List, ℕ};

    ghost Value = { List ℕ };

    ghost view = { λ users. users.items.items };
}

impl Users {
    fn new(alloc: Global) -> Users
        ensures { result ≡ [] }
    {
        Users {
            items: Vec::new(alloc),
        }
    }

    // Puts a number last, where it isn't the last one.
    fn note(&mut self, user: usize) -> Result<(), NoMemory>
        ensures { OnOk result (self.new ≡ noted self.old user) }
    {
        let count = self.items.len();
        if 0 < count && self.items[count - 1] == user {
            return Ok(());
        }
        self.items.push(user)?;
        Ok(())
    }

    // Whether each of them is in one of two sets.
    fn are_in(&self, one: &Marks, other: &Marks) -> bool
        ensures { result
            ≡ list_all (λ u. slice_index_or one.now u false || slice_index_or other.now u false) self.now }
    {
        self.items
            .iter()
            .all(|user| one.at(*user) || other.at(*user))
    }
}

/// For each instruction, in rising order those that have one of its results as an operand.
#[derive(Drop)]
pub struct Uses {
    rows: Vec<Users>,
}

impl Model for Uses {
    ghost use Rattle.std.specs.Prelude.{List, ℕ};

    ghost Value = { List (List ℕ) };

    ghost view = { λ uses. uses.rows.items };
}

impl Uses {
    /// The uses of a program. Finding them takes one step an operand.
    pub fn of(alloc: Global, f: &Flat) -> Result<Uses, NoMemory>
        ensures { IfOk result (λ uses. AreUses (program_of f.now) uses) }
    {
        let mut uses = Uses::unused(alloc, f.code.len())?;
        for i in 0..f.code.len() {
            uses.note_operands(i, &f.code.as_slice()[i].kind)?;
        }
        Ok(uses)
    }

    // So many instructions without users.
    fn unused(alloc: Global, count: usize) -> Result<Uses, NoMemory>
        ensures { IfOk result (λ uses. uses ≡ replicate count []) }
    {
        let mut rows = Vec::with_capacity(alloc, count)?;
        for _ in 0..count {
            rows.push(Users::new(alloc))?;
        }
        Ok(Uses { rows })
    }

    // Notes an instruction as a user of another one, where that one is there.
    fn note(&mut self, user: usize, instruction: usize) -> Result<(), NoMemory>
        ensures { OnOk result (self.new ≡ noted_at self.old user instruction) }
    {
        if instruction < self.rows.len() {
            let users = &mut self.rows[instruction];
            users.note(user)?;
        }
        Ok(())
    }

    // Notes it as a user of what it reads.
    fn note_operands(&mut self, user: usize, kind: &InstrKind) -> Result<(), NoMemory>
        ensures { OnOk result (self.new ≡ noted_all self.old user (operands (work_of kind.now))) }
    {
        for place in 0..kind.operand_count() {
            self.note(user, kind.operand(place).instruction as usize)?;
        }
        Ok(())
    }

    /// Whether each user of an instruction is in one of two sets.
    pub(crate) fn are_in(&self, instruction: usize, one: &Marks, other: &Marks) -> bool
        ensures { result
            ≡ list_all (λ u. slice_index_or one.now u false || slice_index_or other.now u false)
            (slice_index_or self.now instruction []) }
    {
        match self.rows.get(instruction) {
            None => true,
            Some(users) => users.are_in(one, other),
        }
    }
}
