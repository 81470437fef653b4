//! The text of what a split takes.
ghost use Rattle.std.specs.Prelude.{◌≡◌, IfOk, string_bytes};
ghost use Rattle.split_validate.specs.CountsText.{counts_text};

use gal_io::{NoMemory, Text};
use resource_limits::Counts;
use std::alloc::Global;

fn counts_text(alloc: Global, c: &Counts) -> Result<String, NoMemory>
    ensures { IfOk result (λ text. string_bytes text ≡ counts_text c.now) }
{
    let accesses = c.accesses.greatest();
    let stages = c.stages;
    let table_bits = c.table_bits;
    let writeback = c.writes.greatest();
    let bytes = c.transfer_bytes;
    Ok(format!(in alloc;
        "accesses {accesses} stages {stages} table_bits {table_bits} writeback {writeback} transfer_bytes {bytes}"
    )?)
}

/// What a split takes, in words: each count behind its name, in the order of the limits. Of the counts that are for
/// each object the greatest stands there. No line end follows.
pub fn print_counts(alloc: Global, c: &Counts) -> Result<Text, NoMemory>
    ensures { IfOk result (λ text. text ≡ counts_text c.now) }
{
    Text::from_slice(alloc, counts_text(alloc, c)?.as_bytes())
}
