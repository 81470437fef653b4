//! The text that a run alone writes.
ghost use Rattle.std.specs.Prelude.{◌≡◌, ◌++◌, IfOk, OnOk};
ghost use Rattle.run_text.specs.Answer.{answer_of, verdict_line, verdict_lines};

use crate::parts::put_parts;
use crate::report::{put_packet_number, put_verdict};
use gal_io::{NoMemory, Text};
use packet_fields::Verdict;
use run_model::StoreRows;
use state_store::Objects;
use std::alloc::Global;

fn put_verdict_line(
    alloc: Global,
    number: usize,
    verdict: &Verdict,
    text: &mut Text,
) -> Result<(), NoMemory>
    ensures { OnOk result (text.new ≡ text.old ++ verdict_line number verdict.now) }
{
    put_packet_number(number, text)?;
    put_verdict(alloc, verdict, text)?;
    text.push(b'\n')
}

fn put_verdicts(alloc: Global, verdicts: &[Verdict], text: &mut Text) -> Result<(), NoMemory>
    ensures { OnOk result (text.new ≡ text.old ++ verdict_lines 0 verdicts.now) }
{
    for number in 0..verdicts.len() {
        put_verdict_line(alloc, number, &verdicts[number], text)?;
    }
    Ok(())
}

/// What a middlebox with these objects did to packets, by number, and the rows that it left.
pub fn print_answer(
    alloc: Global,
    objects: &Objects,
    verdicts: &[Verdict],
    parts: &StoreRows,
) -> Result<Text, NoMemory>
    ensures { IfOk result (λ text. text ≡ answer_of objects.now verdicts.now parts.now) }
{
    let mut text = Text::new(alloc);
    put_verdicts(alloc, verdicts, &mut text)?;
    put_parts("object", objects.as_slice(), parts.as_slice(), &mut text)?;
    text.extend(b"end\n")?;
    Ok(text)
}
