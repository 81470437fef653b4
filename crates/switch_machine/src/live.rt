//! Which blocks are live.
ghost use Rattle.std.specs.Prelude.{◌≡◌, ◌<◌, ◌≤◌, ◌&&◌, suc, false, length, slice_index_or};
ghost use Rattle.std.specs.List.{list_any, AllByRecursion as Each};
ghost use Rattle.flat_ir.specs.Blocks.{is_live, is_on, same, HasLowParents};
ghost use Rattle.switch_ir.specs.Code.{pass_of};
ghost use Rattle.switch_machine.specs.Live.{AreLive};

use flat_ir::{Block, Numbers};
use switch_ir::Pass;

// Whether the condition of a block has its polarity.
fn holds<R: Numbers>(block: &Block, numbers: &R) -> bool
    ensures { result ≡ same block.now.polarity (is_on (R.reads numbers.now block.now.cond)) }
{
    let is_on = numbers.number(block.cond) == 1;
    if block.polarity { is_on } else { !is_on }
}

// Whether a block is live below its parent, which has a mark.
fn is_live_below<R: Numbers>(marks: &[bool], block: &Block, numbers: &R) -> bool
    requires { block.now.parent < length marks.now }
    ensures { result ≡ (same block.now.polarity (is_on (R.reads numbers.now block.now.cond))
        && slice_index_or marks.now block.now.parent false) }
{
    marks[block.parent as usize] && holds(block, numbers)
}

// Marks of the root, which is live, and of each block, in one walk: a block is live where its parent is live and its
// condition has its polarity.
fn mark_live<R: Numbers>(blocks: &[Block], numbers: &R, marks: &mut Vec<bool>)
    requires parents { HasLowParents blocks.now }
    requires room { length marks.old.items ≡ suc (length blocks.now) }
    ensures { AreLive blocks.now (R.reads numbers.now) marks.new.items }
{
    marks[0] = true;
    for index in 0..blocks.len() {
        let live = is_live_below(marks.as_slice(), &blocks[index], numbers);
        marks[index + 1] = live;
    }
}

/// Whether a block is live in which the pass leaves work to the server. It takes one step a block, and no memory:
/// `marks` has one for the root and one for each block.
pub(crate) fn leaves_work<R: Numbers>(pass: &Pass, numbers: &R, marks: &mut Vec<bool>) -> bool
    requires parents { HasLowParents (pass_of pass.now).blocks }
    requires blocks_in_range { Each (λ b. b ≤ length (pass_of pass.now).blocks) (pass_of pass.now).rest }
    requires room { length marks.old.items ≡ suc (length (pass_of pass.now).blocks) }
    ensures leaves { result
        ≡ list_any (is_live (pass_of pass.now).blocks (R.reads numbers.now)) (pass_of pass.now).rest }
    ensures room { length marks.new.items ≡ length marks.old.items }
{
    mark_live(pass.blocks.as_slice(), numbers, marks);
    for block in &pass.rest {
        if marks[*block as usize] {
            return true;
        }
    }
    false
}
