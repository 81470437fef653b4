//! The text of a split.
ghost use Rattle.std.specs.Prelude.{◌≡◌, ◌++◌, ◌<◌, ◌^◌, length, OnOk, IfOk, string_bytes};
ghost use Rattle.split_model.specs.Bounds.{HasFewStages};
ghost use Rattle.split_validate.specs.SplitLines.{IsSplitText};
ghost use Rattle.split_validate.specs.SplitText.{part_line, part_lines, pre_text, slow_text, split_text};

use gal_io::{NoMemory, Text};
use split_model::{Part, Slow, Split};
use std::alloc::Global;

// The stage in preprocessing, or a dash.
fn pre_text(alloc: Global, pre: Option<u32>) -> Result<String, NoMemory>
    ensures { IfOk result (λ text. string_bytes text ≡ pre_text pre) }
{
    match pre {
        Some(stage) => Ok(format!(in alloc; "{stage}")?),
        None => Ok(String::from_str(alloc, "-")?),
    }
}

// Who gives the results for a packet that visits the server.
fn slow_text(alloc: Global, slow: Slow) -> Result<String, NoMemory>
    ensures { IfOk result (λ text. string_bytes text ≡ slow_text slow) }
{
    match slow {
        Slow::Carried => Ok(String::from_str(alloc, "carried")?),
        Slow::Server => Ok(String::from_str(alloc, "server")?),
        Slow::Post(stage) => Ok(format!(in alloc; "post {stage}")?),
    }
}

// The line of the instruction of a number.
fn part_line(alloc: Global, number: usize, part: Part) -> Result<String, NoMemory>
    ensures { IfOk result (λ line. string_bytes line ≡ part_line number part) }
{
    let pre = pre_text(alloc, part.pre)?;
    let slow = slow_text(alloc, part.slow)?;
    Ok(format!(in alloc; "{number} {pre} {slow}\n")?)
}

// The line of each instruction.
fn put_parts(alloc: Global, parts: &[Part], text: &mut Text) -> Result<(), NoMemory>
    ensures { OnOk result (text.new ≡ text.old ++ part_lines 0 parts.now) }
{
    for number in 0..parts.len() {
        text.extend(part_line(alloc, number, parts[number])?.as_bytes())?;
    }
    Ok(())
}

// The whole text.
fn whole_text(alloc: Global, s: &Split) -> Result<Text, NoMemory>
    ensures text { IfOk result (λ text. text ≡ split_text s.now) }
    ensures bounded { length s.now < 2 ^ 64 }
{
    let parts = s.as_slice();
    let number = parts.len();
    let mut text = Text::from_slice(alloc, format!(in alloc; "split 1 {number}\n")?.as_bytes())?;
    put_parts(alloc, parts, &mut text)?;
    text.extend(b"end\n")?;
    Ok(text)
}

/// The text of a split: a line `split 1 N` with the number of its instructions, a line for each of them in order, and
/// the line `end`. The line of an instruction has its number, its stage in preprocessing or `-`, and `carried`,
/// `server`, or `post` and a stage. One space stands between words. It is read back as that split, where no stage is
/// above 4,096.
pub fn print_split(alloc: Global, s: &Split) -> Result<Text, NoMemory>
    ensures text { IfOk result (λ text. text ≡ split_text s.now) }
    ensures back { IfOk result (λ text. HasFewStages s.now → IsSplitText (length s.now) text s.now) }
{
    let text = whole_text(alloc, s)?;
    Ok(text)
}
