//! How many changes of each object a batch has.
ghost use Rattle.std.specs.Prelude.{◌≡◌, ◌<◌, ◌++◌, [], ℕ, List, length, get_or, true, OnOk};
ghost use Rattle.std.specs.List.{AllByRecursion as Each};
ghost use Rattle.writeback_table.specs.declared.command.Update.{Update};
ghost use Rattle.output_commit.specs.Batches.{fits};
ghost use Rattle.output_commit.specs.Spans.{AreTallied, IsTallied};

use gal_io::NoMemory;
use std::alloc::Global;
use writeback_table::Update;

/// How many changes there are of each object, by its number.
#[derive(Drop)]
pub struct Tally {
    pub counts: Vec<u32>,
}

impl Tally {
    /// No changes, and no objects. This takes no memory.
    pub fn new(alloc: Global) -> Tally
        ensures { result.counts.items ≡ [] }
    {
        Tally {
            counts: Vec::new(alloc),
        }
    }

    /// Takes the memory for the objects of these changes.
    pub fn reserve(&mut self, updates: &[Update]) -> Result<(), NoMemory>
        ensures kept { (others : List Update) → AreTallied self.old others → AreTallied self.new others }
        ensures room { OnOk result (AreTallied self.new updates.now) }
    {
        for update in updates {
            let object = update.object as usize;
            if self.counts.len() <= object {
                self.counts.resize(object + 1, 0)?;
            }
        }
        Ok(())
    }

    /// No changes again.
    pub fn clear(&mut self)
        ensures tallied { IsTallied self.new [] }
        ensures kept { (others : List Update) → AreTallied self.old others → AreTallied self.new others }
    {
        self.counts.as_mut_slice().fill(0);
    }

    /// Counts these changes too, while no object has more than `most`. It is false exactly where one would have.
    pub fn count(&mut self, updates: &[Update], most: u32) -> bool
        requires room { AreTallied self.old updates.now }
        ensures fits { (before : List Update) → IsTallied self.old before → fits most before ≡ true
            → result ≡ fits most (before ++ updates.now) }
        ensures tallied { (before : List Update) → IsTallied self.old before → result ≡ true
            → IsTallied self.new (before ++ updates.now) }
        ensures kept { (others : List Update) → AreTallied self.old others → AreTallied self.new others }
    {
        for update in updates {
            let object = update.object as usize;
            if self.counts[object] >= most {
                return false;
            }
            self.counts[object] += 1;
        }
        true
    }
}
