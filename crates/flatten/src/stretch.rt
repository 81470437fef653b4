//! Pieces in order, where the run may have ended in front of each.
ghost use Rattle.std.specs.Prelude.{◌≡◌, [], ℕ, List, length, IfOk, IfErr, OnOk, if◌then◌else◌};
ghost use Rattle.flatten.specs.Flatten as pure;
ghost use Rattle.flatten.specs.Open.{closed, outermost};
ghost use Rattle.flatten.specs.Over.{IsOver};
ghost use Rattle.flatten.specs.Pending.{placed};
ghost use Rattle.flatten.specs.Tracked.{started};

use crate::error::FlatError;
use crate::frame::Frame;
use crate::journal::{Journal, Tracked};
use crate::output::Output;
use crate::place::{Ending, Place};
use flat_ir::ValueId;
use gal_io::NoMemory;
use std::alloc::Global;

/// A block that is open because the run may have ended in front of it.
#[derive(Drop)]
pub(crate) struct Pending {
    /// Where the block was opened.
    pub place: Place,
    /// 1 where the run has ended.
    pub ended: ValueId,
    /// The journal that was kept in front of the block.
    pub outer: Journal,
}

/// Where the next piece stands, and the blocks that are open, the innermost last.
#[derive(Drop)]
pub(crate) struct Stretch {
    pub place: Place,
    pub pending: Vec<Pending>,
}

impl Stretch {
    pub fn new(alloc: Global, place: Place) -> Stretch
        ensures place { result.place ≡ place }
        ensures pending { result.pending.items ≡ [] }
    {
        Stretch {
            place,
            pending: Vec::new(alloc),
        }
    }
}

impl Output {
    /// Whether another piece follows, which none does where the run has ended. Where it may have ended, a block is
    /// opened for what follows.
    #[tactic(auto, using(crate::proofs::Steps::closed_last, crate::proofs::Steps::outermost_last))]
    pub fn goes_on(
        &mut self,
        alloc: Global,
        stretch: &mut Stretch,
        w: &mut Tracked,
    ) -> Result<bool, NoMemory>
        ensures told { IfOk result (λ goes. (widths : List ℕ) (go : pure.Flattener) →
            closed widths stretch.new.pending.items (started w.new)
            (if goes then go stretch.new.place self.new w.new.state else placed self.new w.new.state)
            ≡ closed widths stretch.old.pending.items (started w.old)
            (pure.go_on widths w.old.state.ended stretch.old.place go self.old w.old.state)) }
        ensures start { OnOk result (outermost stretch.new.pending.items (started w.new)
            ≡ outermost stretch.old.pending.items (started w.old)) }
        ensures wide { OnOk result (length w.new.state.locals ≡ length w.old.state.locals) }
    {
        match w.state.ended {
            Ending::No => Ok(true),
            Ending::Yes => Ok(false),
            Ending::Maybe(ended) => {
                let inner = self.open(stretch.place, ended, false)?;
                w.state.end(Ending::Yes);
                let outer = w.enter(alloc)?;
                stretch.pending.push(Pending {
                    place: stretch.place,
                    ended,
                    outer,
                })?;
                stretch.place = inner;
                w.state.end(Ending::No);
                Ok(true)
            }
        }
    }

    /// The state behind all pieces: that in front of each open block, joined with what came of the block. It stops in
    /// front of the first block before which there are too many instructions.
    #[tactic(auto, using(crate::proofs::Steps::closed_last, crate::proofs::Steps::outermost_last))]
    pub fn close(
        &mut self,
        alloc: Global,
        frame: &Frame,
        stretch: Stretch,
        w: &mut Tracked,
    ) -> Result<(), FlatError>
        requires fields { frame.now.fields.items ≡ pure.field_widths }
        requires wide { length w.old.state.locals ≡ length frame.now.locals.items }
        ensures told { OnOk result (placed self.new w.new.state ≡ closed frame.now.locals.items stretch.pending.items
            (started w.old) (placed self.old w.old.state)) }
        ensures start { OnOk result (started w.new ≡ outermost stretch.pending.items (started w.old)) }
        ensures large { IfErr result
            (λ error. IsOver (closed frame.now.locals.items stretch.pending.items (started w.old)
            (placed self.old w.old.state)).given error) }
    {
        let mut pending = stretch.pending;
        while let Some(open) = pending.pop() {
            self.keeps_size()?;
            let first = w.unchanged(alloc)?;
            self.join(alloc, frame, open.place, open.ended, first, open.outer, w)?;
        }
        Ok(())
    }
}
