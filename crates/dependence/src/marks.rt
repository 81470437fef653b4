//! Lists with one entry for each instruction.
ghost use Rattle.std.specs.Prelude.{◌≡◌, ◌++◌, ◌∷◌, [], length, IfOk, OnOk, OnErr, slice_set, replicate};
ghost use Rattle.std.specs.Prelude.{slice_index_or, slice_index, false, ◌<◌};

use gal_io::NoMemory;
use std::alloc::Global;
use std::marker::Model;

/// A truth value for each instruction.
#[derive(Drop)]
pub struct Marks {
    items: Vec<bool>,
}

impl Model for Marks {
    ghost use Rattle.std.specs.Prelude.{List, Bool};

    ghost Value = { List Bool };

    ghost view = { λ marks. marks.items.items };
}

impl Marks {
    pub fn new(alloc: Global) -> Marks
        ensures { result ≡ [] }
    {
        Marks {
            items: Vec::new(alloc),
        }
    }

    /// So many marks that are not set.
    pub fn unset(alloc: Global, count: usize) -> Result<Marks, NoMemory>
        ensures { IfOk result (λ marks. marks ≡ replicate count false) }
    {
        let items = vec![in alloc; false; count]?;
        Ok(Marks { items })
    }

    pub fn as_slice(&self) -> &[bool]
        ensures { result.now ≡ self.now }
    {
        self.items.as_slice()
    }

    pub fn len(&self) -> usize
        ensures { result ≡ length self.now }
    {
        self.items.len()
    }

    /// The mark of an instruction, or false where there is none.
    pub fn at(&self, instruction: usize) -> bool
        ensures { result ≡ slice_index_or self.now instruction false }
    {
        if instruction < self.items.len() {
            self.items[instruction]
        } else {
            false
        }
    }

    pub fn set(&mut self, instruction: usize, mark: bool)
        requires { instruction < length self.old }
        ensures { self.new ≡ slice_set self.old instruction mark }
    {
        self.items[instruction] = mark;
    }

    pub fn push(&mut self, mark: bool) -> Result<(), NoMemory>
        ensures ok { OnOk result (self.new ≡ self.old ++ mark ∷ []) }
        ensures err { OnErr result (self.new ≡ self.old) }
    {
        self.items.push(mark)?;
        Ok(())
    }
}

/// A number for each instruction.
#[derive(Drop)]
pub struct Depths {
    items: Vec<u32>,
}

impl Model for Depths {
    ghost use Rattle.std.specs.Prelude.{List, ℕ};

    ghost Value = { List ℕ };

    ghost view = { λ depths. depths.items.items };
}

impl Depths {
    pub fn new(alloc: Global) -> Depths
        ensures { result ≡ [] }
    {
        Depths {
            items: Vec::new(alloc),
        }
    }

    pub fn as_slice(&self) -> &[u32]
        ensures { result.now ≡ self.now }
    {
        self.items.as_slice()
    }

    pub fn len(&self) -> usize
        ensures { result ≡ length self.now }
    {
        self.items.len()
    }

    /// The number of an instruction, or 0 where there is none.
    pub fn at(&self, instruction: usize) -> u32
        ensures { result ≡ slice_index self.now instruction }
    {
        if instruction < self.items.len() {
            self.items[instruction]
        } else {
            0
        }
    }

    pub fn set(&mut self, instruction: usize, number: u32)
        requires { instruction < length self.old }
        ensures { self.new ≡ slice_set self.old instruction number }
    {
        self.items[instruction] = number;
    }

    pub fn push(&mut self, number: u32) -> Result<(), NoMemory>
        ensures ok { OnOk result (self.new ≡ self.old ++ number ∷ []) }
        ensures err { OnErr result (self.new ≡ self.old) }
    {
        self.items.push(number)?;
        Ok(())
    }
}
