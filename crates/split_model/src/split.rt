//! Which part of the work falls to whom.
ghost use Rattle.std.specs.Prelude.{◌≡◌, length, IfOk};
ghost use Rattle.split_model.specs.Counts.{stage_or_zero};
ghost use Rattle.split_model.specs.Split.{part_at, pre_stage, post_stage, stage_after};
ghost use Rattle.split_model.specs.Split.{is_pre, is_carried, is_carried_up, is_server, is_served, is_post};

use gal_io::NoMemory;
use std::alloc::Global;
use std::marker::Model;

/// Who gives an instruction's results for a packet that visits the server.
#[derive(Clone, Copy, PartialEq, Eq)]
pub enum Slow {
    /// Preprocessing, which hands them up.
    Carried,
    /// The server, which computes them.
    Server,
    /// Postprocessing, at this stage.
    Post(u32),
}

impl Slow {
    /// The stage in postprocessing, where it is computed there.
    pub fn stage(&self) -> Option<u32>
        ensures { result ≡ stage_after self.now }
    {
        match self {
            Slow::Carried | Slow::Server => None,
            Slow::Post(stage) => Some(*stage),
        }
    }

    pub fn is_carried(&self) -> bool
        ensures { result ≡ is_carried_up self.now }
    {
        match self {
            Slow::Carried => true,
            Slow::Server | Slow::Post(_) => false,
        }
    }

    pub fn is_server(&self) -> bool
        ensures { result ≡ is_served self.now }
    {
        match self {
            Slow::Server => true,
            Slow::Carried | Slow::Post(_) => false,
        }
    }
}

/// A stage, or 0 where there is none.
pub fn stage_or_zero(stage: Option<u32>) -> u32
    ensures { result ≡ stage_or_zero stage }
{
    stage.unwrap_or(0)
}

/// What a split says of an instruction.
#[derive(Clone, Copy, PartialEq, Eq)]
pub struct Part {
    /// The stage in preprocessing, where it is computed there.
    pub pre: Option<u32>,
    pub slow: Slow,
}

/// A part for each instruction, in order.
#[derive(Drop)]
pub struct Split {
    items: Vec<Part>,
}

impl Model for Split {
    ghost use Rattle.std.specs.Prelude.{List};
    ghost use Rattle.split_model.specs.declared.split.Part.{Part};

    ghost Value = { List Part };

    ghost view = { λ split. split.items.items };
}

impl Split {
    pub fn as_slice(&self) -> &[Part]
        ensures { result.now ≡ self.now }
    {
        self.items.as_slice()
    }

    pub fn len(&self) -> usize
        ensures { result ≡ length self.now }
    {
        self.items.len()
    }

    /// The part that has an instruction. One past the end is the server's alone.
    pub fn part(&self, instruction: usize) -> Part
        ensures { result ≡ part_at self.now instruction }
    {
        if instruction < self.len() {
            self.items[instruction]
        } else {
            Part {
                pre: None,
                slow: Slow::Server,
            }
        }
    }

    /// The instruction's stage in preprocessing, where it is computed there.
    pub fn stage_before(&self, instruction: usize) -> Option<u32>
        ensures { result ≡ pre_stage self.now instruction }
    {
        self.part(instruction).pre
    }

    /// The instruction's stage in postprocessing, where it is computed there.
    pub fn stage_after(&self, instruction: usize) -> Option<u32>
        ensures { result ≡ post_stage self.now instruction }
    {
        self.part(instruction).slow.stage()
    }

    /// Whether preprocessing computes the instruction.
    pub fn is_pre(&self, instruction: usize) -> bool
        ensures { result ≡ is_pre self.now instruction }
    {
        self.stage_before(instruction).is_some()
    }

    /// Whether preprocessing hands the instruction's results up.
    pub fn is_carried(&self, instruction: usize) -> bool
        ensures { result ≡ is_carried self.now instruction }
    {
        self.part(instruction).slow.is_carried()
    }

    /// Whether the server computes the instruction.
    pub fn is_server(&self, instruction: usize) -> bool
        ensures { result ≡ is_server self.now instruction }
    {
        self.part(instruction).slow.is_server()
    }

    /// Whether postprocessing computes the instruction.
    pub fn is_post(&self, instruction: usize) -> bool
        ensures { result ≡ is_post self.now instruction }
    {
        self.stage_after(instruction).is_some()
    }

    /// The same split again, in memory of its own.
    pub fn copy(&self, alloc: Global) -> Result<Split, NoMemory>
        ensures { IfOk result (λ made. made ≡ self.now) }
    {
        let items = self.items.to_vec(alloc)?;
        Ok(Split { items })
    }
}

impl From<Vec<Part>> for Split {
    ghost from_gives = { λ items split. split ≡ items.items };

    fn from(items: Vec<Part>) -> Split {
        Split { items }
    }
}
