//! Blocks and those above them.
ghost use Rattle.std.specs.Prelude.{◌≡◌, ◌≤◌, length};
ghost use Rattle.flat_ir.specs.Blocks.{is_live, is_above, is_on, same, HasLowParents};

use crate::program::Block;
use crate::reading::Numbers;

// Whether the condition of a block has its polarity.
#[tactic(auto, using(crate::proofs::Lines::beq_same))]
fn holds<R: Numbers>(block: Block, numbers: &R) -> bool
    ensures { result ≡ same block.polarity (is_on (R.reads numbers.now block.cond)) }
{
    (numbers.number(block.cond) == 1) == block.polarity
}

/// Whether a block is live: its condition and those of all blocks above it have their polarity.
pub fn is_live<R: Numbers>(blocks: &[Block], numbers: &R, block: u32) -> bool
    requires parents { HasLowParents blocks.now }
    requires block_in_range { block ≤ length blocks.now }
    ensures { result ≡ is_live blocks.now (R.reads numbers.now) block }
{
    let mut number = block;
    while number > 0 {
        let at = blocks[number as usize - 1];
        if !holds(at, numbers) {
            return false;
        }
        number = at.parent;
    }
    true
}

/// Whether a block is another one, or stands above it.
pub(crate) fn is_above(blocks: &[Block], above: u32, block: u32) -> bool
    requires parents { HasLowParents blocks.now }
    requires block_in_range { block ≤ length blocks.now }
    ensures { result ≡ is_above blocks.now above block }
{
    let mut number = block;
    while number > 0 {
        if number == above {
            return true;
        }
        number = blocks[number as usize - 1].parent;
    }
    above == 0
}
