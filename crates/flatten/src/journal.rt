//! States from which those before are had again.
ghost use Rattle.std.specs.Prelude.{◌≡◌, [], length, IfOk, OnOk, Some};
ghost use Rattle.flatten.specs.Flatten as pure;
ghost use Rattle.flatten.specs.Journal.{before, past_of, with_local, with_locals, leave_each, AreSides};
ghost use Rattle.flatten.specs.Tracked.{started};

use crate::entry::{Change, Entry};
use crate::place::Ending;
use crate::sides::{set, sides, undo};
use crate::state::State;
use flat_ir::ValueId;
use std::alloc::{AllocError, Global};
use std::marker::Model;
use std::mem;

/// How the state at some place is had again: what was assigned to locals since then, the latest last, and the other
/// variables there.
#[derive(Drop)]
pub(crate) struct Journal {
    pub entries: Vec<Entry>,
    pub fields: Vec<Option<ValueId>>,
    pub send: ValueId,
    pub port: ValueId,
    pub ended: Ending,
}

impl Model for Journal {
    ghost use Rattle.flatten.specs.Journal.{Past};

    ghost Value = { Past };

    ghost view = { λ j. record {
      entries = j.entries.items;
      fields = j.fields.items;
      send = j.send;
      port = j.port;
      ended = j.ended;
    } };
}

/// A state, and how the one where the innermost block was opened is had again.
#[derive(Drop)]
pub(crate) struct Tracked {
    pub state: State,
    pub journal: Journal,
}

impl Journal {
    /// The journal of a state behind which nothing was assigned yet.
    fn at(alloc: Global, state: &State) -> Result<Journal, AllocError>
        ensures { IfOk result (λ made. made ≡ past_of [] state.now) }
    {
        Ok(Journal {
            entries: Vec::new(alloc),
            fields: state.fields.to_vec(alloc)?,
            send: state.send,
            port: state.port,
            ended: state.ended,
        })
    }
}

// The value of a local, where it was in scope before.
fn kept(before: Option<ValueId>, now: Option<ValueId>) -> Option<ValueId>
    ensures { result ≡ pure.kept before now }
{
    if before.is_some() { now } else { None }
}

impl Tracked {
    /// A state in which the journal begins.
    pub fn new(alloc: Global, state: State) -> Result<Tracked, AllocError>
        ensures state { IfOk result (λ made. made.state ≡ state) }
        ensures start { IfOk result (λ made. started made ≡ state) }
    {
        let journal = Journal::at(alloc, &state)?;
        Ok(Tracked { state, journal })
    }

    /// Gives a local another value, or none.
    pub fn set(&mut self, x: u32, value: Option<ValueId>) -> Result<(), AllocError>
        ensures state { OnOk result (self.new.state ≡ with_local x value self.old.state) }
        ensures start { OnOk result (started self.new ≡ started self.old) }
    {
        set(&mut self.state.locals, &mut self.journal.entries, x, value)
    }

    /// Gives a local another value.
    pub fn bind(&mut self, x: u32, id: ValueId) -> Result<(), AllocError>
        ensures state { OnOk result (self.new.state ≡ pure.bound x id self.old.state) }
        ensures start { OnOk result (started self.new ≡ started self.old) }
    {
        self.set(x, Some(id))
    }

    /// Begins the journal anew, and answers the one so far.
    pub fn enter(&mut self, alloc: Global) -> Result<Journal, AllocError>
        ensures state { OnOk result (self.new.state ≡ self.old.state) }
        ensures start { OnOk result (started self.new ≡ self.old.state) }
        ensures wide { OnOk result (length self.new.state.locals ≡ length self.old.state.locals) }
        ensures outer { IfOk result (λ outer. outer ≡ self.old.journal) }
    {
        let journal = Journal::at(alloc, &self.state)?;
        Ok(mem::replace(&mut self.journal, journal))
    }

    /// Goes back to where the journal began, and answers how the state here is had again from there.
    pub fn flip(&mut self, alloc: Global) -> Result<Journal, AllocError>
        ensures state { OnOk result (self.new.state ≡ started self.old) }
        ensures start { OnOk result (started self.new ≡ started self.old) }
        ensures first { IfOk result (λ first. before first (started self.old) ≡ self.old.state) }
    {
        let entries = mem::replace(&mut self.journal.entries, Vec::new(alloc));
        let entries = undo(alloc, &mut self.state.locals, entries)?;
        let fields = self.journal.fields.to_vec(alloc)?;
        let first = Journal {
            entries,
            fields: mem::replace(&mut self.state.fields, fields),
            send: self.state.send,
            port: self.state.port,
            ended: self.state.ended,
        };
        self.state.send = self.journal.send;
        self.state.port = self.journal.port;
        self.state.ended = self.journal.ended;
        Ok(first)
    }

    /// How the state where the journal began is had again from there.
    pub fn unchanged(&self, alloc: Global) -> Result<Journal, AllocError>
        ensures { IfOk result (λ first. before first (started self.now) ≡ started self.now) }
    {
        Ok(Journal {
            entries: Vec::new(alloc),
            fields: self.journal.fields.to_vec(alloc)?,
            send: self.journal.send,
            port: self.journal.port,
            ended: self.journal.ended,
        })
    }

    // Gives locals the values that they have where they are in scope.
    fn keep(&mut self, changes: &[Change]) -> Result<(), AllocError>
        ensures state { OnOk result (self.new.state
            ≡ with_locals (leave_each changes.now self.old.state.locals) self.old.state) }
        ensures start { OnOk result (started self.new ≡ started self.old) }
    {
        for change in changes {
            self.set(change.local, kept(change.first, change.second))?;
        }
        Ok(())
    }

    /// Gives the locals the values that they had where the journal began, and answers the changes of two sides that began
    /// there: of one that is had again from there, and of the one here. What was assigned is no longer in the journal.
    pub fn sides(&mut self, alloc: Global, first: &Journal) -> Result<Vec<Change>, AllocError>
        ensures state { OnOk result (self.new.state ≡ with_locals (started self.old).locals self.old.state) }
        ensures changes { let start = started self.old in IfOk result (λ changes.
            AreSides (before first.now start).locals self.old.state.locals start.locals changes.items) }
    {
        let first = first.entries.to_vec(alloc)?;
        let second = mem::replace(&mut self.journal.entries, Vec::new(alloc));
        sides(alloc, &mut self.state.locals, first, second)
    }

    /// Lets go of the locals that were not in scope where the journal began, and goes on with another journal, which
    /// was kept until there.
    pub fn leave(&mut self, alloc: Global, outer: Journal) -> Result<(), AllocError>
        ensures state { OnOk result (self.new.state ≡ pure.leave (started self.old) self.old.state) }
        ensures start { OnOk result (started self.new ≡ before outer (started self.old)) }
    {
        let first = self.unchanged(alloc)?;
        let changes = self.sides(alloc, &first)?;
        self.journal = outer;
        self.keep(&changes)?;
        Ok(())
    }
}
