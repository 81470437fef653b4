//! Held outputs, and the batches of changes with their commands.
ghost use Rattle.std.specs.Prelude.{◌≡◌, ◌<◌, ◌+◌, ◌-◌, ◌^◌, ◌∷◌, [], length, min, nat_lt, slice_get};
ghost use Rattle.std.specs.Prelude.{OnOk, OnErr};
ghost use Rattle.output_commit.specs.Batches.{commands_in};
ghost use Rattle.output_commit.specs.Commit as spec;
ghost use Rattle.output_commit.specs.Spans as spans;

use crate::batches::Batches;
use crate::output::{Output, Release};
use crate::place::Place;
use crate::span::{Span, command_at};
use gal_io::{Bytes, NoMemory};
use std::alloc::Global;
use std::collections::VecDeque;
use std::marker::Model;
use writeback_table::{Command, Updates};

/// The outputs that wait, and all batches of changes, with how many of their commands were sent, applied and
/// acknowledged. Lookups on the switch see the changes of a batch, which may be several versions, once its command that
/// sets the bit is applied. A command is found by its place in its batch: none is stored.
#[derive(Drop)]
pub struct Commit {
    writeback: u32,
    batches: Batches,
    sent: u32,
    done: u32,
    acked: u32,
    // how many commands of the batches that were begun aren't sent
    left: u32,
    applied: Place,
    known: Place,
    visible: u32,
    acknowledged: u32,
    held: VecDeque<Output>,
}

impl Model for Commit {
    ghost use Rattle.output_commit.specs.Commit as spec;
    ghost use Rattle.output_commit.specs.Kept.{IsCounted, batches_in};

    ghost Value = { spec.Commit };

    ghost view = { λ c. record {
      writeback = c.writeback;
      batches = batches_in c.batches;
      sent = c.sent;
      done = c.done;
      acked = c.acked;
      held = c.held.items;
    } };

    ghost invariant = { λ c. IsCounted c.batches c.sent c.done c.acked c.left c.applied c.known c.visible c.acknowledged };
}

// How many versions the command at a place of a batch makes visible.
fn shown_by(span: &Span, step: u32) -> u32
    ensures { result ≡ spans.shown_by span.now step }
{
    if step == span.changes {
        span.versions
    } else {
        0
    }
}

// How many commands there are for so many changes, or the greatest number that there is.
fn batch_len(changes: usize) -> usize
    ensures { result ≡ min (spec.batch_len changes) (2 ^ 64 - 1) }
{
    if changes == 0 {
        0
    } else {
        changes.saturating_mul(3).saturating_add(2)
    }
}

impl Commit {
    /// No outputs and no batches. A batch may take up others while it has at most `writeback` changes of each object.
    /// This takes no memory; `hold` takes it from `alloc`.
    pub fn new(alloc: Global, writeback: u32) -> Commit
        ensures { result ≡ spec.first writeback }
    {
        Commit {
            writeback,
            batches: Batches::new(alloc),
            sent: 0,
            done: 0,
            acked: 0,
            left: 0,
            applied: Place::start(),
            known: Place::start(),
            visible: 0,
            acknowledged: 0,
            held: VecDeque::new(alloc),
        }
    }

    /// Whether the number of commands, with those for these changes, stays below 2^32.
    pub fn has_room_for(&self, updates: &Updates) -> bool
        ensures { result ≡ nat_lt (length (spec.commands self.now) + length (commands_in (spec.batch_of updates.now))) (2 ^ 32) }
    {
        let batch = batch_len(updates.len());
        (self.batches.commands as usize).saturating_add(batch) < 1 << 32
    }

    /// Lets an output wait behind the others until the version `need` is acknowledged. Its changes, if there are any,
    /// become one batch behind all others, which makes one version. After want of memory all is as before.
    pub fn hold(
        &mut self,
        number: u32,
        need: u32,
        frame: Bytes,
        updates: &Updates,
    ) -> Result<(), NoMemory>
        requires few_commands { length (spec.commands self.old) + length (commands_in (spec.batch_of updates.now)) < 2 ^ 32 }
        ensures ok { OnOk result (self.new
            ≡ spec.with_output self.old (record { number = number; need = need; frame = frame }) updates.now) }
        ensures err { OnErr result (self.new ≡ self.old) }
    {
        self.held.push_back(Output {
            number,
            need,
            frame,
        })?;
        if self.batches.push(updates.as_slice()).is_err() {
            let _ = self.held.pop_back();
            return Err(NoMemory);
        }
        Ok(())
    }

    /// Sends one more command. It is false exactly where all commands are sent. A batch of which none was sent first
    /// takes up those behind it, one after the other, while no object has more changes than may be staged.
    pub fn send_command(&mut self) -> bool
        ensures did { result ≡ nat_lt self.old.sent (length (spec.commands self.old)) }
        ensures after { self.new ≡ spec.after_send self.old }
    {
        if self.sent == self.batches.commands {
            return false;
        }
        self.sent += 1;
        if self.left > 0 {
            self.left -= 1;
            return true;
        }
        self.left = self.batches.begin(self.writeback).commands() - 1;
        true
    }

    /// The last command that was sent. It is `None` exactly where none was sent.
    pub fn sent_command(&self) -> Option<Command>
        ensures { result ≡ spec.last_sent self.now }
    {
        let Some(span) = self.batches.begun().last() else {
            return None;
        };
        let step = span.commands() - 1 - self.left;
        Some(command_at(span.of(self.batches.updates.as_slice()), step as usize))
    }

    /// The next command that the switch is to apply, which counts as applied from then on. It is `None` exactly where
    /// all sent ones are applied.
    pub fn next_command(&mut self) -> Option<Command>
        ensures did { result ≡ spec.next self.old }
        ensures after { self.new ≡ spec.after_next self.old }
    {
        if self.done == self.sent {
            return None;
        }
        let (span, step) = self.applied.pass(self.batches.begun());
        self.visible += shown_by(&span, step);
        self.done += 1;
        Some(command_at(span.of(self.batches.updates.as_slice()), step as usize))
    }

    /// The next command that the switch is to apply, which isn't applied by this. It is `None` exactly where all sent
    /// ones are applied.
    pub fn peek(&self) -> Option<Command>
        ensures { result ≡ spec.next self.now }
    {
        if self.done == self.sent {
            return None;
        }
        let mut place = self.applied;
        let (span, step) = place.pass(self.batches.begun());
        Some(command_at(span.of(self.batches.updates.as_slice()), step as usize))
    }

    /// One more applied command is acknowledged. It is false exactly where all applied ones are.
    pub fn acknowledge(&mut self) -> bool
        ensures did { result ≡ nat_lt self.old.acked self.old.done }
        ensures after { self.new ≡ spec.after_acknowledge self.old }
    {
        if self.acked == self.done {
            return false;
        }
        let (span, step) = self.known.pass(self.batches.begun());
        self.acknowledged += shown_by(&span, step);
        self.acked += 1;
        true
    }

    /// The version that lookups on the switch see: the versions of all batches whose command that sets the bit is
    /// applied.
    pub fn visible(&self) -> u32
        ensures { result ≡ spec.visible self.now }
    {
        self.visible
    }

    /// The version that lookups on the switch are known to see: the same of acknowledged commands.
    pub fn acknowledged(&self) -> u32
        ensures { result ≡ spec.acknowledged self.now }
    {
        self.acknowledged
    }

    /// The bit of the switch: whether the commands that were applied set it, and didn't clear it since.
    pub fn bit(&self) -> bool
        ensures { result ≡ spec.bit self.now }
    {
        self.applied.bit(self.batches.begun())
    }

    /// How many commands there are in all, sent or not. It falls by 2 for each batch that another takes up.
    pub fn commands(&self) -> u32
        ensures { result ≡ length (spec.commands self.now) }
    {
        self.batches.commands
    }

    /// How many of them were sent.
    pub fn sent(&self) -> u32
        ensures { result ≡ self.now.sent }
    {
        self.sent
    }

    /// How many of them were applied.
    pub fn applied(&self) -> u32
        ensures { result ≡ self.now.done }
    {
        self.done
    }

    /// How many of them were acknowledged.
    pub fn acked(&self) -> u32
        ensures { result ≡ self.now.acked }
    {
        self.acked
    }

    /// How many outputs wait.
    pub fn held(&self) -> usize
        ensures { result ≡ length self.now.held }
    {
        self.held.len()
    }

    /// How many commands aren't applied, sent or not.
    pub fn unapplied(&self) -> u32
        ensures { result ≡ length (spec.commands self.now) - self.now.done }
    {
        self.commands() - self.done
    }

    /// Whether no output waits, and all commands are acknowledged.
    pub fn is_quiet(&self) -> bool
        ensures { result ≡ spec.is_quiet self.now }
    {
        self.held.is_empty() && self.acked == self.commands()
    }

    /// Whether the output at place `j` may go, counted from 0 in the order in which they came: it is there, and its version
    /// is acknowledged.
    pub fn may_release(&self, j: usize) -> bool
        ensures { result ≡ spec.may_release self.now (slice_get self.now.held j) }
    {
        match self.held.get(j) {
            Some(output) => output.need <= self.acknowledged(),
            None => false,
        }
    }

    /// Lets the output at place `j` go, counted from 0 in the order in which they came, where its version is
    /// acknowledged. Those behind it close up.
    #[tactic(auto, using(crate::proofs::KeptCommit::answer_goes, crate::proofs::KeptCommit::after_goes))]
    pub fn release(&mut self, j: usize) -> Release
        ensures answer { result ≡ spec.answer self.old (slice_get self.old.held j) }
        ensures after { self.new ≡ spec.after_release self.old j (slice_get self.old.held j) }
    {
        let acknowledged = self.acknowledged();
        let Some(output) = self.held.get(j) else {
            return Release::NoSuch(self.held.len());
        };
        if acknowledged < output.need {
            return Release::NotYet {
                need: output.need,
                acknowledged,
            };
        }
        match self.held.remove(j) {
            Some(output) => Release::Frame {
                number: output.number,
                frame: output.frame,
            },
            None => Release::NoSuch(self.held.len()),
        }
    }
}
