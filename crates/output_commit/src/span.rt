//! Where a batch stands among all changes, and its commands by their place.
ghost use Rattle.std.specs.Prelude.{◌≡◌, ◌≤◌, ◌<◌, ◌+◌, ◌*◌, ◌^◌, Some, length, slice_get};
ghost use Rattle.writeback_table.specs.Commands.{commands_of};
ghost use Rattle.output_commit.specs.Spans.{batch_in, has_bit, joined, span_len};

use writeback_table::{Command, Update};

/// A batch: the place of its first change among all changes, how many it has, and how many versions these are.
#[derive(Clone, Copy)]
pub struct Span {
    pub first: usize,
    pub changes: u32,
    pub versions: u32,
}

impl Span {
    /// How many commands the batch has.
    pub fn commands(&self) -> u32
        requires { span_len self.now < 2 ^ 32 }
        ensures { result ≡ span_len self.now }
    {
        3 * self.changes + 2
    }

    /// Whether the bit stands behind so many of its commands.
    pub fn has_bit(&self, step: u32) -> bool
        requires { span_len self.now < 2 ^ 32 }
        ensures { result ≡ has_bit self.now step }
    {
        self.changes < step && step < 2 * self.changes + 2
    }

    /// The changes of the batch, out of those of all batches.
    pub fn of<'a>(&self, updates: &'a [Update]) -> &'a [Update]
        requires { self.now.first + self.now.changes ≤ length updates.now }
        ensures { result.now ≡ (batch_in updates.now self.now).updates }
    {
        &updates[self.first..self.first + self.changes as usize]
    }

    /// The batch and the one behind it as one.
    pub fn joined(&self, behind: &Span) -> Span
        requires changes { self.now.changes + behind.now.changes < 2 ^ 32 }
        requires versions { self.now.versions + behind.now.versions < 2 ^ 32 }
        ensures { result ≡ joined self.now behind.now }
    {
        Span {
            first: self.first,
            changes: self.changes + behind.changes,
            versions: self.versions + behind.versions,
        }
    }
}

/// The command at a place among those for these changes: all changes are staged, the bit is set, all are made, the bit
/// is cleared, and all staged keys are cleared.
pub fn command_at(changes: &[Update], place: usize) -> Command
    requires few_changes { 3 * length changes.now + 2 < 2 ^ 64 }
    requires within { place < 3 * length changes.now + 2 }
    ensures { Some result ≡ slice_get (commands_of changes.now) place }
{
    let count = changes.len();
    if place < count {
        Command::Stage(changes[place])
    } else if place == count {
        Command::On
    } else if place <= 2 * count {
        Command::Main(changes[place - count - 1])
    } else if place == 2 * count + 1 {
        Command::Off
    } else {
        let update = changes[place - 2 * count - 2];
        Command::Clear(update.object, update.key)
    }
}
