//! All changes in batches, of which the first ones were begun.
ghost use Rattle.std.specs.Prelude.{◌≡◌, ◌<◌, ◌+◌, ◌^◌, [], length, OnOk, OnErr};
ghost use Rattle.output_commit.specs.Commit.{batch_len, batch_of};
ghost use Rattle.output_commit.specs.Kept.{AreKept, IsBegun, IsPushed, Takes, begun_in, spans_in};
ghost use Rattle.output_commit.specs.Spans.{AreJoined, AreTallied, first_of, total};

use crate::span::Span;
use crate::tally::Tally;
use gal_io::NoMemory;
use std::alloc::Global;
use writeback_table::Update;

/// All changes in order, and the spans of their batches: first those of which a command was sent, and from `next` on
/// those that wait. What lies between was taken up.
#[derive(Drop)]
pub struct Batches {
    pub updates: Vec<Update>,
    pub spans: Vec<Span>,
    pub begun: usize,
    pub next: usize,
    pub commands: u32,
    pub tally: Tally,
}

/// The batches that one takes up: the span of all of them, and how many spans these are.
#[derive(Clone, Copy)]
pub struct Taken {
    pub span: Span,
    pub count: usize,
}

// The first batch takes up those behind it, while no object has more than `most` changes.
fn take_up(spans: &[Span], updates: &[Update], tally: &mut Tally, most: u32) -> Taken
    requires nonempty { 0 < length spans.now }
    requires few_commands { total spans.now < 2 ^ 32 }
    requires joined { AreJoined (first_of spans.now) spans.now (length updates.now) }
    requires tallied { AreTallied tally.old updates.now }
    ensures takes { Takes most updates.now spans.now result.span result.count }
    ensures tallied { AreTallied tally.new updates.now }
{
    let mut span = spans[0];
    tally.clear();
    if !tally.count(span.of(updates), most) {
        return Taken { span, count: 1 };
    }
    for count in 1..spans.len() {
        let behind = spans[count];
        if !tally.count(behind.of(updates), most) {
            return Taken { span, count };
        }
        span = span.joined(&behind);
    }
    Taken {
        span,
        count: spans.len(),
    }
}

impl Batches {
    /// None. This takes no memory.
    pub fn new(alloc: Global) -> Batches
        ensures kept { AreKept result }
        ensures spans { result.spans.items ≡ [] }
        ensures begun { result.begun ≡ 0 }
    {
        Batches {
            updates: Vec::new(alloc),
            spans: Vec::new(alloc),
            begun: 0,
            next: 0,
            commands: 0,
            tally: Tally::new(alloc),
        }
    }

    /// The spans of those of which a command was sent.
    pub fn begun(&self) -> &[Span]
        requires { AreKept self.now }
        ensures { result.now ≡ begun_in self.now }
    {
        &self.spans[..self.begun]
    }

    /// Puts a batch of these changes behind the others, where there are any. After want of memory all is as before.
    pub fn push(&mut self, updates: &[Update]) -> Result<(), NoMemory>
        requires kept { AreKept self.old }
        requires few_commands { total (spans_in self.old) + batch_len (length updates.now) < 2 ^ 32 }
        ensures ok { OnOk result (IsPushed self.old self.new (batch_of updates.now)) }
        ensures err { OnErr result (IsPushed self.old self.new []) }
    {
        if updates.is_empty() {
            return Ok(());
        }
        self.tally.reserve(updates)?;
        self.spans.push(Span {
            first: self.updates.len(),
            changes: updates.len() as u32,
            versions: 1,
        })?;
        if self.updates.extend_from_slice(updates).is_err() {
            let _ = self.spans.pop();
            return Err(NoMemory);
        }
        self.commands += 3 * updates.len() as u32 + 2;
        Ok(())
    }

    /// The first batch that waits takes up those behind it, and is begun. The answer is its span.
    pub fn begin(&mut self, most: u32) -> Span
        requires kept { AreKept self.old }
        requires waits { self.old.next < length self.old.spans.items }
        ensures { IsBegun most self.old self.new result }
    {
        let taken = take_up(
            &self.spans[self.next..],
            self.updates.as_slice(),
            &mut self.tally,
            most,
        );
        self.next += taken.count;
        self.commands -= 2 * (taken.count - 1) as u32;
        self.spans[self.begun] = taken.span;
        self.begun += 1;
        taken.span
    }
}
