//! Steps that reach blocks and those above them.
ghost use Rattle.std.specs.Prelude.{◌≡◌, ◌<◌, ℕ, suc, max, length, slice_index, Bool, IfOk};
ghost use Rattle.std.specs.List.{list_any};
ghost use Rattle.flat_ir.specs.Blocks.{line, HasLowParents};
ghost use Rattle.transfer_header.specs.BlockSteps.{greatest, step_if};

use flat_ir::Blocks;
use gal_io::NoMemory;
use std::alloc::Global;
use std::marker::Model;

/// A step for each block, the root first: the last one noted there. Contracts see the steps.
#[derive(Drop)]
pub struct BlockSteps {
    steps: Vec<u32>,
}

impl Model for BlockSteps {
    ghost use Rattle.std.specs.Prelude.{List, ℕ};

    ghost Value = { List ℕ };

    ghost view = { λ blocks. blocks.steps.items };
}

impl BlockSteps {
    /// Step 0 at the root and at each block.
    pub fn new(alloc: Global, blocks: &Blocks) -> Result<BlockSteps, NoMemory>
        ensures count { IfOk result (λ made. length made ≡ suc (length blocks.now)) }
        ensures none { IfOk result (λ made. (test : ℕ → Bool) → greatest test made ≡ 0) }
    {
        let steps = vec![in alloc; 0u32; blocks.as_slice().len() + 1]?;
        Ok(BlockSteps { steps })
    }

    /// The step of a block.
    pub fn at(&self, block: usize) -> u32
        requires { block < length self.now }
        ensures { result ≡ slice_index self.now block }
    {
        self.steps[block]
    }

    /// Notes a step at a block.
    pub fn note(&mut self, block: u32, step: u32)
        requires { block < length self.old }
        ensures count { length self.new ≡ length self.old }
        ensures greatest { (test : ℕ → Bool)
            → greatest test self.new ≡ max (greatest test self.old) (step_if (test block) step) }
    {
        let place = block as usize;
        self.steps[place] = self.steps[place].max(step);
    }

    /// Notes the step of each block at all blocks above it. This takes one step a block.
    pub fn hand_up(&mut self, blocks: &Blocks)
        requires parents { HasLowParents blocks.now }
        requires count { length self.old ≡ suc (length blocks.now) }
        ensures count { length self.new ≡ length self.old }
        ensures greatest { (test : ℕ → Bool)
            → greatest test self.new ≡ greatest (λ b. list_any test (line blocks.now b)) self.old }
    {
        let mut block = blocks.len();
        while block > 0 {
            let parent = blocks.as_slice()[block - 1].parent;
            self.note(parent, self.at(block));
            block -= 1;
        }
    }
}
