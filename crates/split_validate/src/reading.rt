//! A split that is read.
ghost use Rattle.std.specs.Prelude.{◌≡◌, ◌⊎◌, List, [], length, IfOk, IfErr};
ghost use Rattle.split_model.specs.declared.split.Part.{Part as PartOf};
ghost use Rattle.split_validate.specs.SplitLines.{IsRefused, IsSplitText};
ghost use Rattle.split_validate.specs.SplitSteps.{ended, line_read, part_of, step, taken, with_part};

use crate::part_line::{is_title, read_part};
use flat_ir::Flat;
use gal_io::{NoMemory, is_skipped, split_line};
use split_model::{Part, Split};
use std::alloc::Global;
use thiserror::Error;

/// Why a text is no split of a program.
#[derive(Clone, Copy, Debug, PartialEq, Eq, Error)]
pub enum SplitTextError {
    /// The first line such that no split text of the program begins with the lines up to it, or the number of lines and
    /// one more, where the text ends too early. Lines count from 1, skipped ones too.
    #[error("line {0} is refused")]
    Line(usize),
    /// No memory was found.
    #[error("no memory")]
    NoMemory,
}

impl From<NoMemory> for SplitTextError {
    ghost use Rattle.split_validate.specs.declared.reading.SplitTextError.{SplitTextError};

    ghost from_gives = { λ _ e. e ≡ SplitTextError.NoMemory };

    fn from(_: NoMemory) -> SplitTextError {
        SplitTextError::NoMemory
    }
}

// Which lines were read.
#[derive(Clone, Copy)]
enum Progress {
    Nothing,
    // the first line, and the lines of the parts so far
    Title,
    All,
}

// What the lines so far have told.
#[derive(Drop)]
struct Reading {
    progress: Progress,
    parts: Vec<Part>,
}

impl Reading {
    // Before the first line.
    fn new(alloc: Global) -> Reading
        ensures progress { result.progress ≡ Progress.Nothing }
        ensures parts { result.parts.items ≡ [] }
    {
        Reading {
            progress: Progress::Nothing,
            parts: Vec::new(alloc),
        }
    }

    // Takes the next line of a text for so many instructions, and answers whether such a text goes on with it.
    fn take_line(&mut self, count: usize, line: &[u8]) -> Result<bool, NoMemory>
        ensures { IfOk result (λ ok. taken ok self.new.progress self.new.parts.items
            (line_read count line.now self.old.progress self.old.parts.items)) }
    {
        if is_skipped(line) {
            return Ok(true);
        }
        self.take_told(count, line)
    }

    // The same of a line that isn't skipped.
    fn take_told(&mut self, count: usize, line: &[u8]) -> Result<bool, NoMemory>
        ensures { IfOk result (λ ok. taken ok self.new.progress self.new.parts.items
            (step count line.now self.old.progress self.old.parts.items)) }
    {
        match self.progress {
            Progress::Nothing => {
                self.progress = Progress::Title;
                Ok(is_title(line, count))
            }
            Progress::Title => self.take_next(count, line),
            Progress::All => Ok(false),
        }
    }

    // Takes the line of the next part, or behind all of them the last line.
    fn take_next(&mut self, count: usize, line: &[u8]) -> Result<bool, NoMemory>
        requires { self.old.progress ≡ Progress.Title }
        ensures { IfOk result (λ ok. taken ok self.new.progress self.new.parts.items
            (step count line.now Progress.Title self.old.parts.items)) }
    {
        if self.parts.len() < count {
            return self.take_part(line);
        }
        self.progress = Progress::All;
        Ok(line == b"end".as_slice())
    }

    // Takes the line of the next part.
    fn take_part(&mut self, line: &[u8]) -> Result<bool, NoMemory>
        requires { self.old.progress ≡ Progress.Title }
        ensures { IfOk result (λ ok. taken ok self.new.progress self.new.parts.items
            (with_part self.old.parts.items (part_of (length self.old.parts.items) line.now))) }
    {
        match read_part(line, self.parts.len()) {
            Some(part) => {
                self.parts.push(part)?;
                Ok(true)
            }
            None => Ok(false),
        }
    }

    // The split, where all lines were read.
    fn finish(self) -> Option<Split>
        ensures { result ≡ ended self.progress self.parts.items }
    {
        match self.progress {
            Progress::All => Some(Split::from(self.parts)),
            Progress::Nothing | Progress::Title => None,
        }
    }
}

/// The split of a program that a text spells, as `print_split` writes it: `split 1 N` with the
/// number of the program's instructions, a line for each of them in order, and `end`. A stage is at most 4,096. Lines
/// that are empty or begin with `#` are skipped, and a line may end with CR and LF. Whether the split is legal isn't
/// asked.
pub fn read_split(alloc: Global, f: &Flat, text: &[u8]) -> Result<Split, SplitTextError>
    ensures ok { IfOk result (IsSplitText (length f.now.code) text.now) }
    ensures only { IfOk result (λ split.
        (other : List PartOf) → IsSplitText (length f.now.code) text.now other → other ≡ split) }
    ensures err { IfErr result (λ e.
        (e ≡ SplitTextError.NoMemory) ⊎ IsRefused (length f.now.code) text.now e) }
{
    let count = f.code.len();
    let mut reading = Reading::new(alloc);
    let mut number: usize = 0;
    let mut ahead = text;
    while let Some((line, behind)) = split_line(ahead) {
        number += 1;
        ahead = behind;
        let taken = reading.take_line(count, line)?;
        if !taken {
            return Err(SplitTextError::Line(number));
        }
    }
    match reading.finish() {
        Some(split) => Ok(split),
        None => Err(SplitTextError::Line(number + 1)),
    }
}
