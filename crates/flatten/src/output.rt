//! What is given so far of a flat program.
ghost use Rattle.std.specs.Prelude.{◌≡◌, ◌≤◌, length, IfOk, IfErr, OnOk};
ghost use Rattle.flat_ir.specs.Program.{work_of};
ghost use Rattle.flatten.specs.Flatten as pure;
ghost use Rattle.flatten.specs.Over.{IsOver};
ghost use Rattle.flatten.specs.Pending.{valued};

use crate::error::FlatError;
use crate::place::Place;
use crate::sizes::MAX_INSTRUCTIONS;
use flat_ir::{Block, Blocks, Code, Instr, InstrKind, ValueId};
use gal_io::NoMemory;
use std::marker::Model;

/// The instructions and blocks that are given so far, fewer than 2^32 of each.
#[derive(Drop)]
pub(crate) struct Output {
    pub code: Code,
    pub blocks: Blocks,
}

impl Model for Output {
    ghost use Rattle.std.specs.Prelude.{length, map, ◌<◌, ◌^◌};
    ghost use Rattle.flat_ir.specs.Program.{step_of};
    ghost use Rattle.flatten.specs.Flatten.{Emitted};

    ghost Value = { Emitted };

    ghost view = { λ out. record { code = map step_of out.code; blocks = out.blocks } };

    ghost invariant = { λ out. (length out.code < 2 ^ 32) × (length out.blocks < 2 ^ 32) };
}

impl Output {
    /// Gives one more instruction, and answers the first of its results. There is no memory for 2^32 instructions.
    pub fn give(&mut self, place: Place, kind: InstrKind) -> Result<ValueId, NoMemory>
        ensures { IfOk result (λ id. valued self.new id ≡ pure.give place (work_of kind) self.old) }
    {
        let instruction = self.code.len();
        if instruction >= u32::MAX as usize {
            return Err(NoMemory);
        }
        self.code.push(Instr {
            block: place.block,
            looped: place.looped,
            kind,
        })?;
        Ok(ValueId {
            instruction: instruction as u32,
            result: 0,
        })
    }

    /// Fails where there are more instructions than a flat program may have.
    pub fn keeps_size(&self) -> Result<(), FlatError>
        ensures ok { OnOk result (length self.now.code ≤ 4096) }
        ensures large { IfErr result (λ error. IsOver self.now error) }
    {
        if self.code.len() > MAX_INSTRUCTIONS {
            return Err(FlatError::TooLarge);
        }
        Ok(())
    }

    /// Opens a block below a place, and answers the place in it. There is no memory for 2^32 blocks.
    pub fn open(&mut self, place: Place, cond: ValueId, polarity: bool) -> Result<Place, NoMemory>
        ensures given { IfOk result (λ _. self.new ≡ pure.opened place cond polarity self.old) }
        ensures inner { IfOk result (λ inner. inner ≡ pure.below place self.old) }
    {
        let count = self.blocks.len();
        if count >= u32::MAX as usize {
            return Err(NoMemory);
        }
        self.blocks.push(Block {
            parent: place.block,
            cond,
            polarity,
        })?;
        Ok(Place {
            block: count as u32 + 1,
            looped: place.looped,
        })
    }
}
