//! Two states made one.
ghost use Rattle.std.specs.Prelude.{◌≡◌, ◌≤◌, length, IfOk, OnOk};
ghost use Rattle.flatten.specs.Flatten as pure;
ghost use Rattle.flatten.specs.Journal.{before, merge_each, merge_rest};
ghost use Rattle.flatten.specs.Pending.{valued, scoped, merged, ended_at, placed};
ghost use Rattle.flatten.specs.Tracked.{started};

use crate::entry::Change;
use crate::frame::Frame;
use crate::journal::{Journal, Tracked};
use crate::output::Output;
use crate::place::{Ending, Place};
use crate::state::{NOUGHT, ONE, State};
use flat_ir::{InstrKind, ValueId};
use gal_bits::Width;
use gal_io::NoMemory;
use std::alloc::Global;

// The value that says whether a run has ended.
fn ended_id(ended: Ending) -> ValueId
    ensures { result ≡ pure.ended_id ended }
{
    match ended {
        Ending::No => NOUGHT,
        Ending::Yes => ONE,
        Ending::Maybe(id) => id,
    }
}

// A width of so many bits, from 1 to 64.
fn width(bits: u32) -> Width
    requires { (1 ≤ bits) × (bits ≤ 64) }
    ensures { result ≡ bits }
{
    Width::new(bits).unwrap()
}

impl Output {
    // The one value where the condition is 1, and else the other.
    fn merge_id(
        &mut self,
        place: Place,
        cond: ValueId,
        bits: Width,
        a: ValueId,
        b: ValueId,
    ) -> Result<ValueId, NoMemory>
        ensures { IfOk result (λ id. valued self.new id ≡ pure.merge_id place cond bits a b self.old) }
    {
        if a == b {
            Ok(a)
        } else {
            self.give(
                place,
                InstrKind::Select {
                    width: bits,
                    cond,
                    first: a,
                    second: b,
                },
            )
        }
    }

    // The same of a variable, which is in scope where both sides have it.
    fn merge_option(
        &mut self,
        place: Place,
        cond: ValueId,
        bits: Width,
        a: Option<ValueId>,
        b: Option<ValueId>,
    ) -> Result<Option<ValueId>, NoMemory>
        ensures { IfOk result (λ id. merged self.new id ≡ pure.merge_option place cond bits a b self.old) }
    {
        match (a, b) {
            (Some(a), Some(b)) => Ok(Some(self.merge_id(place, cond, bits, a, b)?)),
            _ => Ok(None),
        }
    }

    // The same of variables of these widths.
    fn merge_ids(
        &mut self,
        alloc: Global,
        place: Place,
        cond: ValueId,
        widths: &[Width],
        a: &[Option<ValueId>],
        b: &[Option<ValueId>],
    ) -> Result<Vec<Option<ValueId>>, NoMemory>
        ensures { IfOk result (λ ids.
            scoped self.new ids.items ≡ pure.merge_ids place cond widths.now a.now b.now self.old) }
    {
        let count = widths.len().min(a.len()).min(b.len());
        let mut ids = Vec::with_capacity(alloc, count)?;
        for i in 0..count {
            ids.push(self.merge_option(place, cond, widths[i], a[i], b[i])?)?;
        }
        Ok(ids)
    }

    // Whether the run has ended, the one where the condition is 1, and else the other.
    fn merge_ended(
        &mut self,
        place: Place,
        cond: ValueId,
        a: Ending,
        b: Ending,
    ) -> Result<Ending, NoMemory>
        ensures { IfOk result (λ ended. ended_at self.new ended ≡ pure.merge_ended place cond a b self.old) }
    {
        match (a, b) {
            (Ending::No, Ending::No) => Ok(Ending::No),
            (Ending::Yes, Ending::Yes) => Ok(Ending::Yes),
            (Ending::Yes, Ending::No) => Ok(Ending::Maybe(cond)),
            _ => {
                let select = InstrKind::Select {
                    width: width(1),
                    cond,
                    first: ended_id(a),
                    second: ended_id(b),
                };
                Ok(Ending::Maybe(self.give(place, select)?))
            }
        }
    }

    // The locals that changed, one after the other.
    fn merge_each(
        &mut self,
        frame: &Frame,
        place: Place,
        cond: ValueId,
        changes: &[Change],
        w: &mut Tracked,
    ) -> Result<(), NoMemory>
        ensures told { OnOk result (placed self.new w.new.state
            ≡ merge_each place cond frame.now.locals.items changes.now (placed self.old w.old.state)) }
        ensures start { OnOk result (started w.new ≡ started w.old) }
    {
        for change in changes {
            let width = frame.width_at(change.local);
            let value = self.merge_option(place, cond, width, change.first, change.second)?;
            w.set(change.local, value)?;
        }
        Ok(())
    }

    // The variables other than locals.
    fn merge_rest(
        &mut self,
        alloc: Global,
        frame: &Frame,
        place: Place,
        cond: ValueId,
        a: &Journal,
        w: &mut State,
    ) -> Result<(), NoMemory>
        requires { frame.now.fields.items ≡ pure.field_widths }
        ensures { OnOk result (placed self.new w.new ≡ merge_rest place cond a.now (placed self.old w.old)) }
    {
        w.fields = self.merge_ids(alloc, place, cond, &frame.fields, &a.fields, &w.fields)?;
        w.send = self.merge_id(place, cond, width(1), a.send, w.send)?;
        w.port = self.merge_id(place, cond, width(8), a.port, w.port)?;
        w.ended = self.merge_ended(place, cond, a.ended, w.ended)?;
        Ok(())
    }

    /// Makes two states one: the first, which is had again from where the journal began, where the condition is 1, and
    /// else the one here. It goes on with another journal, which was kept until there.
    pub fn join(
        &mut self,
        alloc: Global,
        frame: &Frame,
        place: Place,
        cond: ValueId,
        first: Journal,
        outer: Journal,
        w: &mut Tracked,
    ) -> Result<(), NoMemory>
        requires fields { frame.now.fields.items ≡ pure.field_widths }
        requires wide { length w.old.state.locals ≡ length frame.now.locals.items }
        ensures told { OnOk result (placed self.new w.new.state
            ≡ pure.join frame.now.locals.items place cond (before first (started w.old)) (placed self.old w.old.state)) }
        ensures start { OnOk result (started w.new ≡ before outer (started w.old)) }
    {
        let changes = w.sides(alloc, &first)?;
        w.journal = outer;
        self.merge_each(frame, place, cond, &changes, w)?;
        self.merge_rest(alloc, frame, place, cond, &first, &mut w.state)?;
        Ok(())
    }
}
