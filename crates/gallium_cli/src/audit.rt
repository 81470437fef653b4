//! Whether a report is true.
ghost use Rattle.std.specs.Prelude.{◌≡◌, ◌<◌, ◌^◌, Some, IsTrue, IfOk, IfErr, List, OnOk, length};
ghost use Rattle.packet_fields.specs.declared.packet.Packet.{Packet};
ghost use Rattle.element_lang.specs.View.{tree};
ghost use Rattle.element_lang.specs.Rules.{is_good};
ghost use Rattle.report_text.specs.Form.{are_declared};
ghost use Rattle.report_text.specs.Lines.{IsReport};
ghost use Rattle.run_audit.specs.Refused.{IsRefused};
ghost use Rattle.run_audit.specs.Told.{IsTrueReport};
ghost use Rattle.run_model.specs.declared.run.Run.{Run as RunTold};
ghost use Rattle.switch_ir.specs.Port.{PortState};
ghost use Rattle.gallium_cli.specs.Words.{Audit};
ghost use Rattle.gallium_cli.specs.Call.{work_of};
ghost use Rattle.gallium_cli.specs.Lines.{status_of};
ghost use Rattle.gallium_cli.specs.Roles.{gates_of, true_report};
ghost use Rattle.gallium_cli.specs.Reports.{untruth_of};
ghost use Rattle.gallium_cli.specs.Answers.{IsAuditInput, IsTrueFile, audited_text};
ghost use Rattle.gallium_cli.specs.Loads.{LeavesFiles, IsFileRefused, IsUnread, raised_by};
ghost use Rattle.gallium_cli.specs.Causes.{HasEnded, HasRead};

use crate::exceeding::owner;
use crate::input::load_input;
use crate::load::{Format, MAX_TEXT, load};
use crate::output::put;
use crate::refusal::{Refusal, Untruth};
use crate::status::Status;
use element_lang::Middlebox;
use gal_io::{Files, NoMemory, Sink, Text};
use packet_fields::Packets;
use report_text::{RunTextError, read_run};
use run_audit::{AuditError, audit};
use run_model::Run;
use state_store::ObjectDecl;
use std::alloc::Global;

/// A report of a serial run of this middlebox over these packets.
#[derive(Drop)]
pub struct ReportFormat<'f> {
    pub middlebox: &'f Middlebox,
    pub packets: &'f Packets,
}

// The run that a text tells, whether or not it is a serial one.
fn read(alloc: Global, m: &Middlebox, text: &[u8]) -> Result<Run, Refusal<'static>>
    requires { IsTrue (are_declared (tree m.now).objects) }
    ensures ok { IfOk result (IsReport (tree m.now).objects text.now) }
    ensures only { IfOk result (λ run. (other : RunTold) → IsReport (tree m.now).objects text.now other → other ≡ run) }
    ensures err { (packets : List Packet) → IfErr result (λ refusal.
        IsUnread refusal (true_report (tree m.now) packets) text.now) }
{
    match read_run(alloc, &m.objects, text) {
        Ok(run) => Ok(run),
        Err(RunTextError::Line(number)) => Err(Refusal::Report(number)),
        Err(RunTextError::NoMemory) => Err(Refusal::NoMemory),
    }
}

// What is told of a report that isn't true.
fn untruth(alloc: Global, objects: &[ObjectDecl], error: AuditError) -> Result<Untruth, NoMemory>
    ensures { IfOk result (λ told. told ≡ untruth_of objects.now error) }
{
    let blamed = match error {
        AuditError::Object(object) => Some(object),
        _ => None,
    };
    let object = owner(alloc, objects, blamed)?;
    Ok(Untruth { error, object })
}

// What is told where the run of a text isn't true.
fn told(
    alloc: Global,
    m: &Middlebox,
    packets: &Packets,
    run: &Run,
    text: &[u8],
    error: AuditError,
) -> Refusal<'static>
    requires spelled { IsReport (tree m.now).objects text.now run.now }
    requires only { (other : RunTold) → IsReport (tree m.now).objects text.now other → other ≡ run.now }
    requires refused { IsRefused (tree m.now) packets.now run.now error }
    ensures { IsUnread result (true_report (tree m.now) packets.now) text.now }
{
    match error {
        AuditError::NoMemory => Refusal::NoMemory,
        _ => match untruth(alloc, m.objects.as_slice(), error) {
            Ok(untruth) => Refusal::Audit(untruth),
            Err(_) => Refusal::NoMemory,
        },
    }
}

// The run that a text tells, where it is a serial one of the middlebox over these packets.
fn read_true(
    alloc: Global,
    m: &Middlebox,
    packets: &Packets,
    text: &[u8],
) -> Result<Run, Refusal<'static>>
    requires declared { IsTrue (are_declared (tree m.now).objects) }
    requires good { IsTrue (is_good (tree m.now)) }
    requires few_objects { length m.now.objects < 2 ^ 32 }
    ensures ok { IfOk result (IsReport (tree m.now).objects text.now) }
    ensures serial { IfOk result (IsTrueReport (tree m.now) packets.now) }
    ensures err { IfErr result (λ refusal. IsUnread refusal (true_report (tree m.now) packets.now) text.now) }
{
    let run = read(alloc, m, text)?;
    match audit(alloc, m, packets, &run) {
        Ok(()) => Ok(run),
        Err(error) => Err(told(alloc, m, packets, &run, text, error)),
    }
}

impl<'f> Format for ReportFormat<'f> {
    type Value = Run;

    ghost role = { λ format. true_report (tree format.middlebox.now) format.packets.now };

    ghost spells = { λ format text run. IsReport (tree format.middlebox.now).objects text run };

    ghost sound = { λ format run. IsTrueReport (tree format.middlebox.now) format.packets.now run };

    ghost ready = { λ format. IsTrue (are_declared (tree format.middlebox.now).objects)
        × IsTrue (is_good (tree format.middlebox.now)) × (length format.middlebox.now.objects < 2 ^ 32) };

    fn size(&self) -> usize {
        MAX_TEXT
    }

    fn read(&self, alloc: Global, text: &[u8]) -> Result<Run, Refusal<'static>> {
        read_true(alloc, self.middlebox, self.packets, text)
    }
}

// The run that a file tells, which is a serial one of the middlebox over these packets.
fn load_report<'a, F: Files>(
    alloc: Global,
    m: &Middlebox,
    packets: &Packets,
    name: &'a str,
    files: &mut F,
) -> Result<Run, Refusal<'a>>
    requires declared { IsTrue (are_declared (tree m.now).objects) }
    requires good { IsTrue (is_good (tree m.now)) }
    requires few_objects { length m.now.objects < 2 ^ 32 }
    ensures ok { IfOk result (λ run.
        IsTrueFile (F.seen files.old).told name.now (tree m.now) packets.now run) }
    ensures err { IfErr result (λ refusal. IsFileRefused refusal (true_report (tree m.now) packets.now) name.now
        (F.seen files.old) (F.seen files.new)) }
    ensures stays { OnOk result (LeavesFiles Status.Done (F.seen files.old) (F.seen files.new)) }
    ensures fault { IfErr result (λ refusal.
        LeavesFiles (status_of refusal) (F.seen files.old) (F.seen files.new)) }
    ensures read { (F.seen files.new).reads ≡ raised_by 1 (F.seen files.old).reads }
{
    let format = ReportFormat {
        middlebox: m,
        packets,
    };
    load(alloc, files, &format, name)
}

// A middlebox, packets, and a serial run of it over them.
#[derive(Drop)]
struct TrueRun {
    middlebox: Middlebox,
    packets: Packets,
    run: Run,
}

// What three files spell, where the report of the third tells a serial run.
fn load_audited<'a, F: Files>(
    alloc: Global,
    source: &'a str,
    trace: &'a str,
    report: &'a str,
    files: &mut F,
) -> Result<TrueRun, Refusal<'a>>
    ensures input { IfOk result (λ x.
        IsAuditInput (F.seen files.old).told source.now trace.now (tree x.middlebox) x.packets) }
    ensures told { IfOk result (λ x.
        IsTrueFile (F.seen files.old).told report.now (tree x.middlebox) x.packets x.run) }
    ensures reads { HasRead result (gates_of (Audit source.now trace.now report.now)) 3
        (F.seen files.old) (F.seen files.new) }
{
    let (middlebox, packets) = load_input(alloc, source, trace, files)?;
    let run = load_report(alloc, &middlebox, &packets, report, files)?;
    Ok(TrueRun {
        middlebox,
        packets,
        run,
    })
}

// The line of a report that is true.
fn audited(alloc: Global, run: &Run) -> Result<Text, NoMemory>
    ensures { IfOk result (λ text. text ≡ audited_text run.now) }
{
    let decided = run.decided;
    let released = run.released;
    let line = format!(in alloc; "ok decided {decided} released {released}\n")?;
    Text::from_slice(alloc, line.as_bytes())
}

/// Reads the report that a file holds, and says how many packets it tells to be decided and released, where it tells a
/// serial run of what one file spells over the packets of another.
pub fn perform_audit<'a, F: Files, O: Sink>(
    alloc: Global,
    source: &'a str,
    trace: &'a str,
    report: &'a str,
    files: &mut F,
    out: &mut O,
) -> Result<(), Refusal<'a>>
    ensures { (port : PortState) → HasEnded result (Some (Audit source.now trace.now report.now))
        (work_of (F.seen files.old) (F.seen files.new) port port (O.seen out.old) (O.seen out.new)) }
{
    let found = load_audited(alloc, source, trace, report, files)?;
    let Ok(text) = audited(alloc, &found.run) else {
        return Err(Refusal::NoMemory);
    };
    put(out, text.as_slice())
}
