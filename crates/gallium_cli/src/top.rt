//! The whole program.
ghost use Rattle.std.specs.Prelude.{◌≡◌, ◌<◌, ◌^◌, Some, IsTrue, IfOk};
ghost use Rattle.std.specs.Prelude.{map, length, string_bytes};
ghost use Rattle.packet_fields.specs.Arrivals.{AreArrivals};
ghost use Rattle.element_lang.specs.View.{tree};
ghost use Rattle.element_lang.specs.Rules.{is_good};
ghost use Rattle.gallium_cli.specs.Words.{asked_by, request_of, Run};
ghost use Rattle.gallium_cli.specs.Answers.{serial_answer};
ghost use Rattle.switch_ir.specs.Port.{PortState};
ghost use Rattle.gallium_cli.specs.Causes.{HasEnded};
ghost use Rattle.gallium_cli.specs.Call.{Call, work_of};
ghost use Rattle.gallium_cli.specs.Promises.{Promises};

use crate::audit::perform_audit;
use crate::captures::{perform_pcap_in, perform_pcap_out};
use crate::chain::perform_chain;
use crate::check::perform_check;
use crate::compile::perform_compile;
use crate::generated::perform_gen;
use crate::input::load_input;
use crate::lossy::perform_lossy;
use crate::output::put;
use crate::refusal::{Refusal, tell};
use crate::replay::perform_replay;
use crate::status::Status;
use crate::words::{Form, form_of};
use element_interp::run_all;
use element_lang::Middlebox;
use gal_io::{Files, NoMemory, Sink, Text};
use packet_fields::Packet;
use run_model::store_rows;
use run_text::print_answer;
use std::alloc::Global;
use switch_ir::SwitchPort;

// What a middlebox does to packets that come one after the other.
fn answer(alloc: Global, m: &Middlebox, packets: &[Packet]) -> Result<Text, NoMemory>
    requires good { IsTrue (is_good (tree m.now)) }
    requires few_objects { length m.now.objects < 2 ^ 32 }
    requires arrivals { AreArrivals packets.now }
    ensures { IfOk result (λ text. text ≡ serial_answer (tree m.now) packets.now) }
{
    let served = run_all(alloc, m, packets)?;
    let parts = store_rows(alloc, m.objects.as_slice(), &served.store)?;
    print_answer(alloc, &m.objects, served.verdicts.as_slice(), &parts)
}

// Runs what two files spell, and writes what came of it.
fn perform_run<'a, F: Files, O: Sink>(
    alloc: Global,
    source: &'a str,
    trace: &'a str,
    files: &mut F,
    out: &mut O,
) -> Result<(), Refusal<'a>>
    ensures { (port : PortState) → HasEnded result (Some (Run source.now trace.now))
        (work_of (F.seen files.old) (F.seen files.new) port port (O.seen out.old) (O.seen out.new)) }
{
    let (middlebox, packets) = load_input(alloc, source, trace, files)?;
    let Ok(told) = answer(alloc, &middlebox, packets.as_slice()) else {
        return Err(Refusal::NoMemory);
    };
    put(out, told.as_slice())
}

// Does what a form asks for.
fn perform_form<'a, F: Files, S: SwitchPort, O: Sink>(
    alloc: Global,
    form: Form<'a>,
    files: &mut F,
    port: &mut S,
    out: &mut O,
) -> Result<(), Refusal<'a>>
    ensures { HasEnded result (Some (asked_by form.entry))
        (work_of (F.seen files.old) (F.seen files.new) (S.seen port.old) (S.seen port.new)
        (O.seen out.old) (O.seen out.new)) }
{
    match form {
        Form::Run(source, trace) => perform_run(alloc, source, trace, files, out),
        Form::Compile(source, limits, shrink) => {
            perform_compile(alloc, source, limits, shrink, files, out)
        }
        Form::Replay(source, trace, schedule, split) => {
            perform_replay(alloc, source, trace, schedule, split, files, port, out)
        }
        Form::Lossy(source, trace, schedule, limits) => {
            perform_lossy(alloc, source, trace, schedule, limits, files, port, out)
        }
        Form::Check(source, limits, split) => {
            perform_check(alloc, source, limits, split, files, out)
        }
        Form::Audit(source, trace, report) => {
            perform_audit(alloc, source, trace, report, files, out)
        }
        Form::Chain(wiring) => perform_chain(alloc, wiring, files, out),
        Form::Gen(seed, count) => perform_gen(alloc, seed, count, port, out),
        Form::PcapIn(capture, by) => perform_pcap_in(alloc, capture, by, files, out),
        Form::PcapOut(trace, big, nano) => perform_pcap_out(alloc, trace, big, nano, files, out),
    }
}

// Does what the words ask for.
fn perform<'a, F: Files, S: SwitchPort, O: Sink>(
    alloc: Global,
    words: &'a [String],
    files: &mut F,
    port: &mut S,
    out: &mut O,
) -> Result<(), Refusal<'a>>
    ensures { HasEnded result (request_of (map string_bytes words.now))
        (work_of (F.seen files.old) (F.seen files.new) (S.seen port.old) (S.seen port.new)
        (O.seen out.old) (O.seen out.new)) }
{
    match form_of(words) {
        Some(form) => perform_form(alloc, form, files, port, out),
        None => Err(Refusal::Usage),
    }
}

/// Does what the words after the program's name ask for, and answers how that ended. On Done, `out` has received one
/// whole text. With every other status `err` receives one line or, where writing to it fails, a first part of it or
/// nothing. Only a replay calls the switch. The parts of `Promises` are what is promised of a whole call, from its cause
/// to what it leaves on both sinks and the switch.
pub fn gallium<F: Files, S: SwitchPort, O: Sink, E: Sink>(
    alloc: Global,
    words: &[String],
    files: &mut F,
    port: &mut S,
    out: &mut O,
    err: &mut E,
) -> Status
    ensures { let call : Call = record {
      words = map string_bytes words.now;
      work = work_of (F.seen files.old) (F.seen files.new) (S.seen port.old) (S.seen port.new)
          (O.seen out.old) (O.seen out.new);
      err = E.seen err.old;
      err_after = E.seen err.new;
    } in Promises result call }
{
    match perform(alloc, words, files, port, out) {
        Ok(()) => Status::Done,
        Err(refusal) => tell(alloc, refusal, err),
    }
}
