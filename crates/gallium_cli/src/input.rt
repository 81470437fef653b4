//! A middlebox and the packets of a trace.
ghost use Rattle.std.specs.Prelude.{◌≤◌, ◌<◌, ◌^◌, IsTrue, IfOk, length};
ghost use Rattle.packet_fields.specs.Arrivals.{AreArrivals};
ghost use Rattle.element_lang.specs.View.{tree};
ghost use Rattle.element_lang.specs.Rules.{is_good};
ghost use Rattle.report_text.specs.Form.{are_declared};
ghost use Rattle.run_model.specs.Sizes.{most_packets};
ghost use Rattle.gallium_cli.specs.Words.{Run};
ghost use Rattle.gallium_cli.specs.Roles.{gates_of};
ghost use Rattle.gallium_cli.specs.Answers.{IsInput};
ghost use Rattle.gallium_cli.specs.Causes.{HasRead};

use crate::formats::{SourceFormat, TraceFormat};
use crate::load::load;
use crate::refusal::Refusal;
use element_lang::Middlebox;
use gal_io::Files;
use packet_fields::Packets;
use std::alloc::Global;

/// The middlebox and the packets that two files spell.
pub fn load_input<'a, F: Files>(
    alloc: Global,
    source: &'a str,
    trace: &'a str,
    files: &mut F,
) -> Result<(Middlebox, Packets), Refusal<'a>>
    ensures ok { IfOk result (λ x. IsInput (F.seen files.old).told source.now trace.now (tree x.0) x.1) }
    ensures good { IfOk result (λ x. IsTrue (is_good (tree x.0))) }
    ensures few_objects { IfOk result (λ x. length x.0.objects < 2 ^ 32) }
    ensures declared { IfOk result (λ x. IsTrue (are_declared (tree x.0).objects)) }
    ensures few_packets { IfOk result (λ x. length x.1 ≤ most_packets) }
    ensures arrivals { IfOk result (λ x. AreArrivals x.1) }
    ensures reads { HasRead result (gates_of (Run source.now trace.now)) 2
        (F.seen files.old) (F.seen files.new) }
{
    let middlebox = load(alloc, files, &SourceFormat, source)?;
    match load(alloc, files, &TraceFormat, trace) {
        Ok(packets) => Ok((middlebox, packets)),
        Err(refusal) => Err(refusal),
    }
}
