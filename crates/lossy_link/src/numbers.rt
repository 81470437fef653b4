//! The numbers of what was delivered over a link that may deliver out of order.
ghost use Rattle.std.specs.Prelude.{◌≡◌, ◌*◌, ◌≤◌, [], length, OnOk, OnErr};
ghost use Rattle.std.specs.BTreeSet.{IsEmpty};
ghost use Rattle.lossy_link.specs.Numbers.{HasOneMore, HaveReached, HaveStayed, are_marked_or_other};

use gal_io::NoMemory;
use std::alloc::Global;
use std::collections::BTreeSet;

// How many marks there may be for each number.
const MARKS_EACH: usize = 16;

/// Some numbers. A number has a mark at its place, where the marks up to it are few for how many numbers there are: so
/// one high number takes no memory for those below it. The other numbers are in an ordered set.
#[derive(Drop)]
pub(crate) struct Numbers {
    marks: Vec<bool>,
    others: BTreeSet<u32>,
}

impl Numbers {
    /// No numbers. This takes no memory.
    pub(crate) fn new(alloc: Global) -> Numbers
        ensures marks { result.marks.items ≡ [] }
        ensures others { IsEmpty result.others }
    {
        Numbers {
            marks: Vec::new(alloc),
            others: BTreeSet::new(alloc),
        }
    }

    /// Whether this number is one of them. This takes one look where all have marks.
    pub(crate) fn has(&self, number: u32) -> bool
        ensures { result ≡ are_marked_or_other self.now number }
    {
        let place = number as usize;
        place < self.marks.len() && self.marks[place] || self.others.contains(&number)
    }

    // There are marks up to that of a number. The new ones aren't set.
    fn reach(&mut self, number: u32) -> Result<(), NoMemory>
        ensures ok { OnOk result (HaveReached self.old self.new number) }
        ensures err { OnErr result (HaveStayed self.old self.new) }
    {
        let place = number as usize;
        if place < self.marks.len() {
            return Ok(());
        }
        self.marks.resize(place + 1, false)?;
        Ok(())
    }

    /// One number more, with which there are `count`.
    pub(crate) fn add(&mut self, number: u32, count: usize) -> Result<(), NoMemory>
        requires few_marks { length self.old.marks.items ≤ 16 * count }
        ensures ok { OnOk result (HasOneMore self.old self.new number count) }
        ensures err { OnErr result (HaveStayed self.old self.new) }
    {
        let place = number as usize;
        if place / MARKS_EACH >= count {
            self.others.insert(number)?;
            return Ok(());
        }
        self.reach(number)?;
        self.marks[place] = true;
        Ok(())
    }
}
