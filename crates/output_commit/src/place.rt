//! Places among the commands of batches.
ghost use Rattle.std.specs.Prelude.{◌≡◌, ◌<◌, ◌+◌, ◌^◌, Some};
ghost use Rattle.output_commit.specs.Spans.{IsIn, bit_at, passed, stands, total};

use crate::span::Span;

/// A place between commands: so many of a batch stand before it, and all those of the batches before this one. Behind
/// the last command of a batch it stays in that batch.
#[derive(Clone, Copy)]
pub struct Place {
    pub batch: usize,
    pub step: u32,
}

impl Place {
    /// Before all commands.
    pub fn start() -> Place
        ensures { result ≡ record { batch = 0; step = 0 } }
    {
        Place { batch: 0, step: 0 }
    }

    /// The bit here: whether the command that sets it stands before this place, and the one that clears it doesn't, in
    /// the same batch.
    pub fn bit(&self, spans: &[Span]) -> bool
        requires at { IsIn spans.now self.now }
        requires few_commands { total spans.now < 2 ^ 32 }
        ensures { result ≡ bit_at spans.now self.now }
    {
        match spans.get(self.batch) {
            Some(span) => span.has_bit(self.step),
            None => false,
        }
    }

    /// Goes on by a command. The answer is the batch of this command, and its place there.
    pub fn pass(&mut self, spans: &[Span]) -> (Span, u32)
        requires at { IsIn spans.now self.old }
        requires within { passed spans.now self.old < total spans.now }
        requires few_commands { total spans.now < 2 ^ 32 }
        ensures at { IsIn spans.now self.new }
        ensures passed { passed spans.now self.new ≡ passed spans.now self.old + 1 }
        ensures stands { stands spans.now (passed spans.now self.old) ≡ Some result }
    {
        let span = spans[self.batch];
        if self.step < span.commands() {
            let step = self.step;
            self.step += 1;
            return (span, step);
        }
        self.batch += 1;
        self.step = 1;
        (spans[self.batch], 0)
    }
}
